//! The command `pagetime`: what is told of a text of VMClock pages and readings of their counters.
//!
//! `pagetime` reads the text record by record (`csv_records`), and writes a line for each reading and one
//! for the promises of the pages (`vmclock_time`), or names the first record that is refused. A record by itself says its
//! line (`specs/Line.antt`), what the lines before it say decides whether it may stand there (`specs/Facts.antt`), and the
//! text that is written stands in `specs/Text.antt`, byte for byte. No row is kept: each reading is told as it is read
//! (`specs/Held.antt`). `pagetime_laws` says the same of the records in the grammar's own words. Stands on `csv_records`,
//! `vmclock_page`, `vmclock_time` and `clock_gate`.
#![tactic(auto)]

mod command;
mod held;
mod kind;
mod laws;
mod line;
mod reading;
mod text;

pub use command::pagetime;
pub use laws::pagetime_laws;

#[cfg(test)]
mod tests;
