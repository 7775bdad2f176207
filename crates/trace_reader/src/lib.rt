//! Traces: what a text says that one run is given, or which of its records is the first to be refused, and why.
//!
//! `read_trace` answers exactly what the grammar of `specs/Grammar.antt` says of the text's records: each record is a
//! line by itself (`specs/Line.antt`) and is tested by the facts of the lines before it (`specs/Checks.antt`). A trace
//! that is read is lawful (`clock_gate`), its image can be opened in its layout, and its pages are pages of one clock.
//! `grammar_laws` tells the grammar record by record.
//!
//! Stands on `csv_records` for the records, and on `clock_gate`, `generation_word`, `vmclock_page` and `segment_layout`.
#![tactic(auto)]

mod held;
mod kind;
mod laws;
mod line;
mod party;
mod reader;

pub use csv_records::{Reason, TraceError, TraceFault};
pub use laws::grammar_laws;
pub use reader::read_trace;

#[cfg(test)]
mod tests;
