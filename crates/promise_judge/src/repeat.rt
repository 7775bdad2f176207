//! The test `Repeat`.
ghost use Rattle.std.specs.Prelude.{◌≡◌};
ghost use Rattle.promise_judge.specs.Markers.{start_marker};
ghost use Rattle.promise_judge.specs.Promises.{repeat_of};
ghost use Rattle.promise_judge.specs.Shown.{ShowsRows};
ghost use Rattle.promise_judge.specs.Telling.{FitsRows};

use crate::claim::Claim;
use crate::markers::repeats_at;
use crate::searching::if_below;
use crate::tables::Tables;
use clock_gate::{HostRow, Trace};

// By the first row that brought back a marker.
#[tactic(auto, using(crate::proofs::ByTables::repeat_by))]
pub(crate) fn repeat_shown(trace: &Trace, tables: &Tables, claim: Claim) -> Option<u64>
    requires shown { ShowsRows trace.now tables.now }
    requires fits { FitsRows trace.now claim }
    ensures { result ≡ repeat_of (start_marker trace.now.page) trace.now.host claim }
{
    if_below(u64::from(claim.mark_at) + 1, u64::from(tables.repeat))
}

// By walking over the host's rows.
#[tactic(auto, using(crate::proofs::Walking::walk_step, crate::proofs::Walking::walk_end))]
pub(crate) fn repeat_walked(start: Option<u64>, host: &[HostRow], claim: Claim) -> Option<u64>
    ensures { result ≡ repeat_of start host.now claim }
{
    let high = u64::from(claim.mark_at) + 1;
    let mut p = 1u64;
    'rows: while p < high {
        if repeats_at(start, host, p) {
            return Some(p);
        }
        p += 1;
    }
    None
}
