//! Whether the promises of an answer were kept: seven tests of the rows of a finished run.
//!
//! A `Claim` is what is judged of an answer. `judge` names the first test that finds a fault, in constant time by `Tables` of
//! the rows; `first_fault` finds the same by walking over the rows, without memory (`specs/Promises.antt`). A claim without a
//! fault has the truth of its clock row in its interval: that is the contract of `kept_claims_contain`. Stands on `clock_gate`,
//! for the rows of a trace.
#![tactic(auto)]

mod bound;
mod claim;
mod counts;
mod drift;
mod fault;
mod judging;
mod laws;
mod mark;
mod markers;
mod nexts;
mod offsets;
mod paging;
mod positions;
mod repeat;
mod searching;
mod tables;
mod untold;

pub use claim::Claim;
pub use fault::{Fault, Why};
pub use judging::{first_fault, judge};
pub use laws::{kept_claims_contain, searches_find_first, told_claims_fit};
pub use tables::Tables;

#[cfg(test)]
mod tests;
