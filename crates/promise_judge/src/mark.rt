//! The test `Mark`.
ghost use Rattle.std.specs.Prelude.{◌≡◌, ◌-◌, ◌<◌, ◌^◌};
ghost use Rattle.promise_judge.specs.Disruptions.{is_hidden as is_hidden_at, is_told as is_told_after};
ghost use Rattle.promise_judge.specs.Markers.{start_marker};
ghost use Rattle.promise_judge.specs.Promises.{mark_of};
ghost use Rattle.promise_judge.specs.Shown.{ShowsRows};
ghost use Rattle.promise_judge.specs.Telling.{FitsRows};

use crate::claim::Claim;
use crate::markers::changes_at;
use crate::positions::{is_disrupt_at, position_of};
use crate::searching::{entry, if_below, larger};
use crate::tables::Tables;
use clock_gate::{HostRow, Trace};

// By the tables of disruptions and of changed markers: no disruption before the last change is hidden.
#[tactic(auto, using(crate::proofs::ByTables::mark_by))]
pub(crate) fn mark_shown(trace: &Trace, tables: &Tables, claim: Claim) -> Option<u64>
    requires shown { ShowsRows trace.now tables.now }
    requires fits { FitsRows trace.now claim }
    ensures { result ≡ mark_of (start_marker trace.now.page) trace.now.host claim }
{
    let changed = entry(&tables.changed, u64::from(claim.mark_at));
    let from = larger(u64::from(claim.marked_at) + 1, changed);
    let next = entry(&tables.disrupt, from);
    let position = entry(&tables.positions, u64::from(claim.row));
    if_below(position, next)
}

// By walking over the host's rows.
#[tactic(auto, using(crate::proofs::Walking::walk_step, crate::proofs::Walking::walk_end))]
pub(crate) fn mark_walked(start: Option<u64>, host: &[HostRow], claim: Claim) -> Option<u64>
    ensures { result ≡ mark_of start host.now claim }
{
    let high = position_of(host, u64::from(claim.row));
    let mut p = u64::from(claim.marked_at) + 1;
    'rows: while p < high {
        if is_hidden(start, host, claim.mark_at, p) {
            return Some(p);
        }
        p += 1;
    }
    None
}

fn is_hidden(start: Option<u64>, host: &[HostRow], mark_at: u32, p: u64) -> bool
    requires { p < 2 ^ 64 - 1 }
    ensures { result ≡ is_hidden_at start host.now mark_at p }
{
    is_disrupt_at(host, p) && !is_told(start, host, mark_at, p)
}

// Whether a page row after this position changed the marker before the marker load.
#[tactic(auto, using(crate::proofs::Walking::walk_step, crate::proofs::Walking::walk_end))]
fn is_told(start: Option<u64>, host: &[HostRow], mark_at: u32, p: u64) -> bool
    requires { p < 2 ^ 64 - 1 }
    ensures { result ≡ is_told_after start host.now mark_at p }
{
    let high = u64::from(mark_at) + 1;
    let mut next = p + 1;
    'rows: while next < high {
        if changes_at(start, host, next) {
            return true;
        }
        next += 1;
    }
    false
}
