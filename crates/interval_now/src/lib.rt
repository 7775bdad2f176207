//! The interval of true time at a reading of the clock, with its status, and a client call that gives it.
//!
//! `interval` takes a published record, a reading of the clock, and the marker of the page where there is one. It gives
//! the real time of the reading, the record's bound and its growth since as-of on either side, and how far that can be
//! trusted; or it says that the reading lies before the record (`specs/Interval.antt`). It is whole: every record, every
//! reading of a trace and every marker has its answer, and each status comes exactly where its case holds (`specs/Status.antt`,
//! `status_law`). `NowMachine` is a client call as a step machine: it reads the segment,
//! loads the clock, reads the page where there is one, and then answers. Its answer is told by all the values that it was
//! given (`specs/CallValues.antt`) and by its steps (`specs/CallRun.antt`): `call_laws`. Stands on segment_layout, whose
//! record it reads, and on the readers of shm_reader and vmclock_page. `is_calm`, `record_read` and `answer_of` are for a caller that loads
//! in a row, and `NowMachine::after_header`, `after_words` and `at_page` for its machine that goes on.
#![tactic(auto)]

mod answers;
mod laws;
mod now;
mod read;
mod rule;
mod stage;

pub use answers::{Answer, Causality, Interval, Timed};
pub use laws::{call_laws, status_law};
pub use now::{NowMachine, answer_of};
pub use read::{is_calm, record_read};
pub use rule::interval;

#[cfg(test)]
mod machine_tests;
#[cfg(test)]
mod tests;
