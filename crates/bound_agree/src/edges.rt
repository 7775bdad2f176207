//! The edges of spans in an ordered map, with how many spans have an edge at each point.
ghost use Rattle.std.specs.Prelude.{◌≡◌, ◌≢◌, ◌^◌, ◌<◌, ℤ, pos, ◌-ℤ◌, Some, None, OnOk, OnErr};
ghost use Rattle.std.specs.BTreeMap.{is_at};
ghost use Rattle.std.specs.Map.{lookup};
ghost use Rattle.std.specs.Ordering.{int_cmp};
ghost use Rattle.bound_agree.specs.declared.edge.Edge.{Edge as Kind};
ghost use Rattle.bound_agree.specs.Edges.{edge_of as place_of, nothing, total_to, Adds, AreKeys, Grows, HasEdges, IsKey, IsSpan, Rises, SameTotals};

use crate::edge::{Counts, Edge, Point, edge_of, one_fewer, one_more};
use crate::span::Span;
use std::alloc::AllocError;
use std::collections::BTreeMap;
use std::collections::btree_map::Entry;

// The counts where no span has an edge.
const NONE: Counts = Counts { first: 0, past: 0 };

// One span more has this edge here.
#[tactic(auto, using(crate::proofs::Edits::there, crate::proofs::Edits::rises_from, crate::proofs::Edits::keys_insert, crate::proofs::Edits::raised), unfolding(crate::specs::Edges::counts_at))]
fn raise(edges: &mut BTreeMap<i64, Counts>, at: Point, edge: Edge) -> Result<(), AllocError>
    requires key { IsKey at.0 }
    requires keys { AreKeys edges.old.entries }
    requires rises { Rises edges.old.entries }
    requires small { total_to edge at.0 edges.old.entries < 2 ^ 31 }
    ensures keys { AreKeys edges.new.entries }
    ensures rises { Rises edges.new.entries }
    ensures done { OnOk result (Grows edge at.0 edges.old.entries edges.new.entries) }
    ensures err { OnErr result (edges.new.entries ≡ edges.old.entries) }
{
    let counts = edges.entry(at.0)?.or_insert(NONE);
    *counts = one_more(*counts, edge);
    Ok(())
}

// One span fewer has this edge here. Never takes memory: the point has an entry, which goes with its last span.
#[tactic(auto, using(crate::proofs::Edits::there, crate::proofs::Edits::absent, crate::proofs::Edits::rises_from, crate::proofs::Edits::keys_insert, crate::proofs::Edits::keys_remove, crate::proofs::Edits::lessened, crate::proofs::Edits::emptied), unfolding(crate::specs::Edges::counts_at))]
fn lower(edges: &mut BTreeMap<i64, Counts>, at: Point, edge: Edge)
    requires key { IsKey at.0 }
    requires keys { AreKeys edges.old.entries }
    requires rises { Rises edges.old.entries }
    requires some { total_to edge (at.0 -ℤ pos 1) edges.old.entries < total_to edge at.0 edges.old.entries }
    ensures keys { AreKeys edges.new.entries }
    ensures rises { Rises edges.new.entries }
    ensures done { Grows edge at.0 edges.new.entries edges.old.entries }
    ensures gone { lookup (is_at (int_cmp at.0)) edges.new.entries ≢ Some nothing }
{
    match edges.entry(at.0) {
        Ok(Entry::Occupied(mut entry)) => {
            let counts = one_fewer(*entry.get(), edge);
            if counts == NONE {
                entry.remove();
            } else {
                entry.insert(counts);
            }
        }
        Ok(Entry::Vacant(_)) => unreachable!(),
        Err(_) => unreachable!(),
    }
}

/// Adds both edges of a span. After an error there are as many edges at each point as before.
#[tactic(auto, using(crate::proofs::Edits::added, crate::proofs::Edits::back, crate::proofs::Edits::grown))]
pub fn add(edges: &mut BTreeMap<i64, Counts>, span: Span) -> Result<(), AllocError>
    requires keys { AreKeys edges.old.entries }
    requires rises { Rises edges.old.entries }
    requires small { (edge : Kind) (x : ℤ) → total_to edge x edges.old.entries < 2 ^ 31 }
    ensures keys { AreKeys edges.new.entries }
    ensures rises { Rises edges.new.entries }
    ensures limits { IsSpan (Some span) }
    ensures done { OnOk result (Adds (Some span) edges.old.entries edges.new.entries) }
    ensures err { OnErr result (SameTotals edges.old.entries edges.new.entries) }
{
    let first = edge_of(span, Edge::First);
    let past = edge_of(span, Edge::Past);
    raise(edges, first, Edge::First)?;
    match raise(edges, past, Edge::Past) {
        Ok(()) => Ok(()),
        Err(error) => {
            lower(edges, first, Edge::First);
            Err(error)
        }
    }
}

fn remove_both(edges: &mut BTreeMap<i64, Counts>, span: Span)
    requires keys { AreKeys edges.old.entries }
    requires rises { Rises edges.old.entries }
    requires present { HasEdges (Some span) edges.old.entries }
    ensures keys { AreKeys edges.new.entries }
    ensures rises { Rises edges.new.entries }
    ensures done { Adds (Some span) edges.new.entries edges.old.entries }
{
    lower(edges, edge_of(span, Edge::First), Edge::First);
    lower(edges, edge_of(span, Edge::Past), Edge::Past);
}

/// Removes both edges of a span, if it is one.
pub fn remove(edges: &mut BTreeMap<i64, Counts>, span: Option<Span>)
    requires keys { AreKeys edges.old.entries }
    requires rises { Rises edges.old.entries }
    requires present { HasEdges span edges.old.entries }
    ensures keys { AreKeys edges.new.entries }
    ensures rises { Rises edges.new.entries }
    ensures done { Adds span edges.new.entries edges.old.entries }
{
    if let Some(span) = span {
        remove_both(edges, span);
    }
}
