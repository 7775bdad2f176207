//! The edges of spans, at which the number of spans that hold a point changes.
ghost use Rattle.std.specs.Prelude.{◌≡◌, ◌+◌, ◌^◌, ◌<◌, Some};
ghost use Rattle.bound_agree.specs.Edges.{count_of, edge_of, IsKey, IsOneMore, IsSpan};

use crate::span::Span;

/// A kind of edge.
#[derive(Clone, Copy, Debug, PartialEq, Eq)]
pub enum Edge {
    /// The first point of a span.
    First,
    /// The first point past a span.
    Past,
}

/// How many spans have an edge of each kind at a point.
#[derive(Clone, Copy, Debug, PartialEq, Eq)]
pub struct Counts {
    pub first: u32,
    pub past: u32,
}

/// A whole number.
#[derive(Clone, Copy, Debug, PartialEq, Eq)]
pub struct Point(pub i64);

/// Where a span has this edge.
pub fn edge_of(span: Span, edge: Edge) -> Point
    ensures place { result.0 ≡ edge_of edge span }
    ensures key { IsKey result.0 }
    ensures limits { IsSpan (Some span) }
{
    match edge {
        Edge::First => Point(span.earliest()),
        Edge::Past => Point(span.latest() + 1),
    }
}

/// The counts with one span more that has this edge here.
pub fn one_more(counts: Counts, edge: Edge) -> Counts
    requires { count_of edge counts < 2 ^ 31 }
    ensures { IsOneMore edge counts result }
{
    match edge {
        Edge::First => Counts {
            first: counts.first + 1,
            past: counts.past,
        },
        Edge::Past => Counts {
            first: counts.first,
            past: counts.past + 1,
        },
    }
}

/// The counts with one span fewer that has this edge here.
pub fn one_fewer(counts: Counts, edge: Edge) -> Counts
    requires { 0 < count_of edge counts }
    ensures { IsOneMore edge result counts }
{
    match edge {
        Edge::First => Counts {
            first: counts.first - 1,
            past: counts.past,
        },
        Edge::Past => Counts {
            first: counts.first,
            past: counts.past - 1,
        },
    }
}
