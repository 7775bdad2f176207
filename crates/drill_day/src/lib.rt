//! The generated day: a large trace from a seed and a number of polls.
//!
//! A day has a second for each poll. Each second has a row of the clock with its true time, a poll with chrony's reply, and
//! a call of each of three clients; once the counter is disrupted, with a page that tells it, and once the daemon stops.
//! A seed other than 0 has a schedule of short turns too. `drill_trace` gives the day as a trace (`specs/Day.antt`), which
//! may be run, and `drill_text` as the text that says it (`specs/Text.antt`). What a second has is said once, in
//! `specs/Seconds.antt`, and what is drawn in `specs/Draws.antt`. Stands on `clock_gate`, `generation_word`, `chrony_fraction`,
//! `candm_codec`, `vmclock_page` and `segment_layout`, and on the kit's `hex`.
#![tactic(auto)]

mod draws;
mod limits;
mod lists;
mod schedule;
mod seconds;
mod texts;
mod trace_of_day;

pub use limits::{FEWEST_DAY_POLLS, MOST_DAY_POLLS};
pub use texts::drill_text;
pub use trace_of_day::drill_trace;

#[cfg(test)]
mod tests;
