ghost use Rattle.std.specs.Prelude.{◌≡◌, ◌≤◌, [], is_some, IfOk, All};
ghost use Rattle.clock_gate.specs.declared.limits.TheConstants.{LAST_MOMENT};
ghost use Rattle.status_machine.specs.declared.poll.Poll.{Poll as Polled};
ghost use Rattle.status_machine.specs.Incarnation.{records_after};

use crate::daemon::Daemon;
use crate::poll::Poll;
use clock_gate::List;
use segment_layout::{Record, Start};
use std::alloc::{AllocError, Global};

/// The records of an incarnation: what `Daemon::resume` and one `Daemon::step` for each of these polls give.
///
/// The polls are in the order in which they came; each has a marker exactly where there is a page.
pub fn records(
    alloc: Global,
    start: &Start,
    drift: u32,
    support: bool,
    base: u32,
    polls: &[Poll],
) -> Result<List<Record>, AllocError>
    requires drift { drift ≤ 1000000000 }
    requires markers { All (λ (p : Polled). is_some p.marker ≡ support) polls.now }
    requires moments { All (λ (p : Polled). p.reading.mono ≤ LAST_MOMENT) polls.now }
    ensures { IfOk result (λ records. records ≡ records_after (record { start = start.now; drift = drift; support = support; base = base }) [] polls.now) }
{
    let mut daemon = Daemon::resume(start, drift, support, base);
    let mut records = Vec::new(alloc);
    for poll in polls {
        let rec = daemon.step(poll);
        records.push(rec)?;
    }
    Ok(List::from_vec(records))
}
