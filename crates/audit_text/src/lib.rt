//! The audit of a report in one text with its trace.
//!
//! `audited` cuts a text at its first line `report`: what stands before that line is read as a trace, and what follows it is judged as
//! a report of threads on that trace. Its output is the verdict in a line, and a text that can't be judged is refused as a trace is, by
//! the number of a record and a reason (`specs/Cut.antt`, `specs/Audited.antt`). Stands on `trace_reader` and `report_audit`, and finds
//! the line with the kit's `memchr`.
#![tactic(auto)]

mod judging;
mod laws;
mod line;
mod missing;
mod parts;

pub use judging::audited;
pub use laws::verdict_laws;

#[cfg(test)]
mod tests;
