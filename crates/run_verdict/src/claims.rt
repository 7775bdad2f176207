//! What is judged of an answer: its claim, and what a fault of the claim makes of the run's premises.
ghost use Rattle.std.specs.Prelude.{◌≡◌, ◌≤◌, ◌<◌, length};
ghost use Rattle.run_promises.specs.Judged.{claim_of, image_claim, is_trusted, poll_claim, verdict_of};
ghost use Rattle.run_verdict.specs.Past.{past_of};

use crate::ended::Ended;
use crate::looking::{base_before, read_before};
use abstract_run::{Event, Trail};
use clock_gate::ClockStatus;
use interval_now::Timed;
use promise_judge::{Claim, Fault};
use run_promises::Premises;

// No poll gave the base: the record stood in the image.
fn image_claim(time: &Timed, trail: &Trail) -> Claim
    ensures { result ≡ image_claim time.now trail.now }
{
    Claim {
        inside: trail.inside,
        base: 0,
        bound: 0,
        second: 0,
        marked_at: 0,
        row: time.row,
        mark_at: trail.mark_at,
    }
}

/// The claim of a time by the publication that it read and by that of the base poll, which gives the second clock row and the place
/// where the marker was loaded.
pub fn poll_claim(time: &Timed, trail: &Trail, told: &Ended, base: &Ended) -> Claim
    ensures { result ≡ poll_claim time.now trail.now told.now base.now }
{
    Claim {
        inside: trail.inside,
        base: told.publication.base,
        bound: told.publication.rec.bound().unsigned_abs(),
        second: base.publication.replied,
        marked_at: base.marked_at,
        row: time.row,
        mark_at: trail.mark_at,
    }
}

/// The claim of a time whose answer stands at this place, by looking back over the events before it.
pub fn claim_before(events: &[Event], place: usize, time: &Timed, trail: &Trail) -> Claim
    requires { place ≤ length events.now }
    ensures { result ≡ claim_of (past_of events.now place) time.now trail.now }
{
    let Some(told) = read_before(events, place, trail.position) else {
        return image_claim(time, trail);
    };
    let Some(base) = base_before(events, place, told.publication.base) else {
        return image_claim(time, trail);
    };
    poll_claim(time, trail, &told, &base)
}

/// Whether an interval with this status is said to contain true time.
pub fn is_trusted(status: ClockStatus) -> bool
    ensures { result ≡ is_trusted status }
{
    match status {
        ClockStatus::Unknown => false,
        ClockStatus::Synchronized => true,
        ClockStatus::FreeRunning => true,
        ClockStatus::Disrupted => false,
    }
}

/// The premises of a run in which this answer alone was judged, with this fault.
pub fn verdict_of(client: u32, call: u32, fault: Option<Fault>) -> Premises
    ensures { result ≡ verdict_of client call fault }
{
    match fault {
        None => Premises::Held,
        Some(fault) => Premises::Failed {
            client,
            call,
            why: fault.why,
            at: fault.at,
        },
    }
}
