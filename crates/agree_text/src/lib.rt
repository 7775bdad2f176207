//! The command `agree`: a text of changes to a board of spans and of questions in, the answers out.
//!
//! `agree` reads the records of a text one by one and keeps a `Board` of `bound_agree`. Its answer is
//! `agreement_text` of `specs/Agreement.antt`: the whole output, or the first record that is refused with the first
//! reason to refuse it. Stands on `csv_records` for the records, and on `bound_agree` for the answers.
#![tactic(auto)]

mod agreement;
mod answers;
mod kind;
mod limits;
mod line;
mod session;
mod signed;

pub use agreement::agree;
pub use limits::{MOST_ASKS, MOST_RECORDS};

#[cfg(test)]
mod tests;
