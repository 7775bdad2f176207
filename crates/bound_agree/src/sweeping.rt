//! One sweep over the edges of spans, in ascending order.
ghost use Rattle.std.specs.Prelude.{◌≡◌, ◌+◌, ◌-◌, ◌^◌, ◌<◌, ◌≤◌, ◌++◌, List, Option, ℤ, pos, neg_ℤ, ◌≤ℤ◌, IfOk, OnOk};
ghost use Rattle.bound_agree.specs.Board.{is_held};
ghost use Rattle.bound_agree.specs.Edges.{AreEdgesOf};
ghost use Rattle.bound_agree.specs.Runs.{AreRuns};
ghost use Rattle.bound_agree.specs.Span.{SpanEnds};
ghost use Rattle.bound_agree.specs.declared.span.TheConstants.{FARTHEST_END};
ghost use Rattle.bound_agree.specs.Sweep.{opened as opened_by, closed as closed_by, CanClose};

use crate::edge::Counts;
use crate::span::Span;
use std::alloc::{AllocError, Global};
use std::collections::BTreeMap;

// Where the run began that is open from an edge on.
fn opened(run: Option<i64>, passes: bool, at: i64) -> Option<i64>
    ensures { result ≡ opened_by run passes at }
{
    match run {
        Some(from) if passes => Some(from),
        None if passes => Some(at),
        _ => None,
    }
}

// Ends the run that is open, where too few spans hold the points from an edge on.
fn close(runs: &mut Vec<Span>, run: Option<i64>, passes: bool, at: i64) -> Result<(), AllocError>
    requires low { neg_ℤ FARTHEST_END ≤ℤ at }
    requires span { CanClose run at }
    ensures { OnOk result (runs.new.items ≡ runs.old.items ++ closed_by run passes at) }
{
    if let Some(earliest) = run
        && !passes
    {
        runs.push(Span {
            earliest,
            latest: at - 1,
        })?;
    }
    Ok(())
}

// How many spans hold the points from an edge on.
fn after(held: u32, counts: Counts) -> u32
    requires low { counts.past ≤ held + counts.first }
    requires high { held + counts.first < 2 ^ 32 }
    ensures { result ≡ held + counts.first - counts.past }
{
    held + counts.first - counts.past
}

/// The maximal runs of points that so many spans hold, by the edges of these spans.
pub fn sweep(
    alloc: Global,
    edges: &BTreeMap<i64, Counts>,
    need: u32,
) -> Result<Vec<Span>, AllocError>
    requires some { 0 < need }
    requires edges { (spans : List (Option SpanEnds)) × AreEdgesOf spans edges.now.entries }
    ensures { IfOk result (λ runs. (spans : List (Option SpanEnds)) → AreEdgesOf spans edges.now.entries → AreRuns (is_held need spans) runs.items) }
{
    let mut runs = Vec::new(alloc);
    let mut held = 0;
    let mut run = None;
    'edges: for (at, counts) in edges {
        held = after(held, *counts);
        let passes = need <= held;
        close(&mut runs, run, passes, *at)?;
        run = opened(run, passes, *at);
    }
    Ok(runs)
}
