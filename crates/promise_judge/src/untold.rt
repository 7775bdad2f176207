//! The test `Untold`.
ghost use Rattle.std.specs.Prelude.{◌≡◌};
ghost use Rattle.promise_judge.specs.Promises.{untold_of};
ghost use Rattle.promise_judge.specs.Shown.{ShowsRows};
ghost use Rattle.promise_judge.specs.Telling.{FitsRows};

use crate::claim::Claim;
use crate::offsets::is_untold;
use crate::searching::{entry, if_below};
use crate::tables::Tables;
use clock_gate::{ClockRow, Trace};

// By the table of clock rows that tell no truth.
#[tactic(auto, using(crate::proofs::ByTables::untold_by))]
pub(crate) fn untold_shown(trace: &Trace, tables: &Tables, claim: Claim) -> Option<u64>
    requires shown { ShowsRows trace.now tables.now }
    requires fits { FitsRows trace.now claim }
    ensures { result ≡ untold_of trace.now.clock claim }
{
    let next = entry(&tables.untold, u64::from(claim.second));
    if_below(u64::from(claim.row) + 1, next)
}

// By walking over the clock rows.
#[tactic(auto, using(crate::proofs::Walking::walk_step, crate::proofs::Walking::walk_end))]
pub(crate) fn untold_walked(clock: &[ClockRow], claim: Claim) -> Option<u64>
    ensures { result ≡ untold_of clock.now claim }
{
    let high = u64::from(claim.row) + 1;
    let mut n = u64::from(claim.second);
    'rows: while n < high {
        if is_untold(clock, n) {
            return Some(n);
        }
        n += 1;
    }
    None
}
