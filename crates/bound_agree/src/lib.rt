//! Agreement of several clocks, after Marzullo: the points that all but so many spans hold, while spans come and go.
//!
//! A `Board` has at most one `Span` for each of 1,000 servers. `Board::ask` gives the maximal runs of neighbouring whole
//! numbers that lie in all but so many of the spans: those that counting the spans at each point gives
//! (`specs/Board.antt`). A board keeps the edges of its spans in an ordered map: a change takes logarithmic time, and an
//! answer one sweep over the edges. Stands on `clock_gate`, for `List` and `Memory`.
#![tactic(auto)]

mod board;
mod edge;
mod edges;
mod span;
mod sweeping;

pub use board::{Board, MOST_SERVERS};
pub use span::{FARTHEST_END, Span};

#[cfg(test)]
mod tests;
