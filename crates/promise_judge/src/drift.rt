//! The test `Drift`.
ghost use Rattle.std.specs.Prelude.{◌≡◌, ◌<◌, ◌≤◌, ◌+◌, ◌-◌, ◌&&◌, nat_lt, is_some, length};
ghost use Rattle.promise_judge.specs.Disruptions.{is_drifting, is_excused as is_excused_by};
ghost use Rattle.promise_judge.specs.Firsts.{first_in};
ghost use Rattle.promise_judge.specs.Positions.{is_disrupt_at as is_disrupted_at, position_of as position_by};
ghost use Rattle.promise_judge.specs.Promises.{drift_of};
ghost use Rattle.promise_judge.specs.Searching.{AreNext};
ghost use Rattle.promise_judge.specs.Shown.{ArePositions, ShowsRows};
ghost use Rattle.promise_judge.specs.Telling.{FitsRows};

use crate::claim::Claim;
use crate::offsets::breaks_at;
use crate::positions::{is_disrupt_at, position_of};
use crate::searching::{entry, if_below, larger};
use crate::tables::Tables;
use clock_gate::{ClockRow, HostRow, Trace};

// By the table of pairs that drift. Only the first pair can lie round the base poll's marker load: it is looked at by itself.
#[tactic(auto, using(crate::proofs::ByTables::drift_by, crate::proofs::ByTables::drift_none, crate::proofs::ByTables::drift_first))]
pub(crate) fn drift_shown(trace: &Trace, tables: &Tables, claim: Claim) -> Option<u64>
    requires shown { ShowsRows trace.now tables.now }
    requires fits { FitsRows trace.now claim }
    ensures { result ≡ drift_of trace.now.drift trace.now.clock trace.now.host claim }
{
    if claim.row <= claim.second {
        return None;
    }
    if first_drifts(trace, tables, claim) {
        return Some(u64::from(claim.second) + 1);
    }
    let next = entry(&tables.drifting, u64::from(claim.second) + 2);
    if_below(u64::from(claim.row) + 1, next)
}

// Whether the pair of the base poll's second clock row and the next one drifts.
fn first_drifts(trace: &Trace, tables: &Tables, claim: Claim) -> bool
    requires shown { ShowsRows trace.now tables.now }
    requires fits { FitsRows trace.now claim }
    requires more { claim.second < claim.row }
    ensures { result ≡ is_drifting trace.now.drift trace.now.clock trace.now.host claim.marked_at (claim.second + 1) }
{
    let next = u64::from(claim.second) + 1;
    drifts(
        trace,
        &tables.positions,
        &tables.disrupt,
        claim.marked_at,
        next,
    )
}

// Whether the drift is broken from the row before clock row n to row n, and no disruption after host position i excuses it.
pub(crate) fn drifts(
    trace: &Trace,
    positions: &Vec<u32>,
    disrupt: &Vec<u32>,
    i: u32,
    n: u64,
) -> bool
    requires positions { ArePositions trace.now.host (length trace.now.clock) positions.now.items }
    requires disrupt { AreNext (is_disrupted_at trace.now.host) 1 (length trace.now.host + 1) disrupt.now.items }
    requires low { 1 < n }
    requires high { n ≤ length trace.now.clock }
    requires load { i ≤ length trace.now.host }
    requires before { position_by trace.now.host (n - 1) ≤ length trace.now.host }
    requires here { position_by trace.now.host n ≤ length trace.now.host }
    ensures { result ≡ is_drifting trace.now.drift trace.now.clock trace.now.host i n }
{
    let clock = trace.clock.as_slice();
    breaks_at(trace.drift, clock, n) && !is_excused(trace, positions, disrupt, i, n)
}

// By the next disruption after the pair's first row and after host position i.
fn is_excused(trace: &Trace, positions: &Vec<u32>, disrupt: &Vec<u32>, i: u32, n: u64) -> bool
    requires positions { ArePositions trace.now.host (length trace.now.clock) positions.now.items }
    requires disrupt { AreNext (is_disrupted_at trace.now.host) 1 (length trace.now.host + 1) disrupt.now.items }
    requires low { 1 < n }
    requires high { n ≤ length trace.now.clock }
    requires load { i ≤ length trace.now.host }
    requires before { position_by trace.now.host (n - 1) ≤ length trace.now.host }
    requires here { position_by trace.now.host n ≤ length trace.now.host }
    ensures { result ≡ is_excused_by trace.now.host i n }
{
    let first = entry(positions, n - 1);
    let after = larger(u64::from(i), first);
    let next = entry(disrupt, after + 1);
    next < entry(positions, n)
}

// By walking over the pairs of clock rows.
#[tactic(auto, using(crate::proofs::Walking::walk_step, crate::proofs::Walking::walk_end))]
pub(crate) fn drift_walked(
    drift: u32,
    clock: &[ClockRow],
    host: &[HostRow],
    claim: Claim,
) -> Option<u64>
    ensures { result ≡ drift_of drift clock.now host.now claim }
{
    let high = u64::from(claim.row) + 1;
    let mut n = u64::from(claim.second) + 1;
    'pairs: while n < high {
        if drifts_walked(drift, clock, host, claim.marked_at, n) {
            return Some(n);
        }
        n += 1;
    }
    None
}

fn drifts_walked(drift: u32, clock: &[ClockRow], host: &[HostRow], i: u32, n: u64) -> bool
    ensures { result ≡ is_drifting drift clock.now host.now i n }
{
    breaks_at(drift, clock, n) && !is_excused_walked(host, i, n)
}

fn is_excused_walked(host: &[HostRow], i: u32, n: u64) -> bool
    ensures { result ≡ is_excused_by host.now i n }
{
    let before = position_of(host, n.saturating_sub(1));
    is_disrupted_between(host, i, before + 1, position_of(host, n))
}

// Whether a disruption after host position i stands from one position on, and below another.
#[tactic(auto, using(crate::proofs::Walking::walk_step, crate::proofs::Walking::walk_end))]
fn is_disrupted_between(host: &[HostRow], i: u32, low: u64, high: u64) -> bool
    ensures { result ≡ is_some (first_in (λ p. is_disrupted_at host.now p && nat_lt i p) low high) }
{
    let mut p = low;
    'rows: while p < high {
        if is_disrupt_at(host, p) && u64::from(i) < p {
            return true;
        }
        p += 1;
    }
    false
}
