//! A claim is judged.
ghost use Rattle.std.specs.Prelude.{◌≡◌, Some};
ghost use Rattle.promise_judge.specs.Promises.{broken_promise_of};
ghost use Rattle.promise_judge.specs.Shown.{ShowsRows};
ghost use Rattle.promise_judge.specs.Telling.{FitsRows};

use crate::bound::bound_fault;
use crate::claim::Claim;
use crate::counts::{image_fault, wrap_fault};
use crate::drift::{drift_shown, drift_walked};
use crate::fault::{Fault, Why};
use crate::mark::{mark_shown, mark_walked};
use crate::markers::start_marker;
use crate::repeat::{repeat_shown, repeat_walked};
use crate::tables::Tables;
use crate::untold::{untold_shown, untold_walked};
use clock_gate::Trace;

/// The first test that finds a fault of a claim, with what it names; `None` where the claim's promises were kept. It takes
/// constant time, by the tables of the trace's rows.
#[tactic(auto, unfolding(crate::specs::Promises::broken_promise_of))]
pub fn judge(trace: &Trace, tables: &Tables, claim: Claim) -> Option<Fault>
    requires shown { ShowsRows trace.now tables.now }
    requires fits { FitsRows trace.now claim }
    ensures { result ≡ broken_promise_of trace.now claim }
{
    if let Some(at) = wrap_fault(trace.layout, claim) {
        return found(Why::Wrap, at);
    }
    if let Some(at) = image_fault(claim) {
        return found(Why::Image, at);
    }
    if let Some(at) = untold_shown(trace, tables, claim) {
        return found(Why::Untold, at);
    }
    if let Some(at) = bound_fault(trace.clock.as_slice(), claim) {
        return found(Why::Bound, at);
    }
    if let Some(at) = drift_shown(trace, tables, claim) {
        return found(Why::Drift, at);
    }
    if let Some(at) = mark_shown(trace, tables, claim) {
        return found(Why::Mark, at);
    }
    if let Some(at) = repeat_shown(trace, tables, claim) {
        return found(Why::Repeat, at);
    }
    None
}

/// The same as `judge`, without tables and so without memory, by walking over the rows for each claim.
#[tactic(auto, unfolding(crate::specs::Promises::broken_promise_of))]
pub fn first_fault(trace: &Trace, claim: Claim) -> Option<Fault>
    ensures { result ≡ broken_promise_of trace.now claim }
{
    let clock = trace.clock.as_slice();
    let host = trace.host.as_slice();
    if let Some(at) = wrap_fault(trace.layout, claim) {
        return found(Why::Wrap, at);
    }
    if let Some(at) = image_fault(claim) {
        return found(Why::Image, at);
    }
    if let Some(at) = untold_walked(clock, claim) {
        return found(Why::Untold, at);
    }
    if let Some(at) = bound_fault(clock, claim) {
        return found(Why::Bound, at);
    }
    if let Some(at) = drift_walked(trace.drift, clock, host, claim) {
        return found(Why::Drift, at);
    }
    if let Some(at) = mark_walked(start_marker(trace), host, claim) {
        return found(Why::Mark, at);
    }
    if let Some(at) = repeat_walked(start_marker(trace), host, claim) {
        return found(Why::Repeat, at);
    }
    None
}

fn found(why: Why, at: u64) -> Option<Fault>
    ensures { result ≡ Some (record { why = why; at = at }) }
{
    Some(Fault { why, at })
}
