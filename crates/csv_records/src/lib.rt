//! Records of a csv text: what their fields say, and why a record is refused.
//!
//! `Records` are the records of a text, each `read` taking the first into a `roomy_row` (`specs/Records.antt`; where nothing
//! is quoted, `specs/Plain.antt`). A record's kind is that whose word is its first field (`read_kind`), and its parts are what its
//! fields say by their places: `read_number`, `read_optional` and `read_bytes`, over `number` and `bytes_of`, which give
//! what one field says exactly where it says it. What fails is a `Reason`; a `Refusal` is that or want of memory, and a
//! `TraceError` is what a reader of a whole text answers, the reason with the number of its record.
//!
//! Stands on `clock_gate` and on the kit's `csv`, `hex` and `thiserror`.
#![tactic(auto)]

mod fields;
mod kind;
mod parts;
mod reason;
mod records;
mod refusal;
mod trace_error;

pub use fields::{bytes_of, is_word, number};
pub use kind::{Worded, kind_named, read_kind};
pub use parts::{read_bytes, read_number, read_optional};
pub use reason::Reason;
pub use records::{Records, roomy_row};
pub use refusal::Refusal;
pub use trace_error::{TraceError, TraceFault};

#[cfg(test)]
mod tests;
