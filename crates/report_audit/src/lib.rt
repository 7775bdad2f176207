//! The audit of a report of threads.
//!
//! `audit` takes the lines of a report one after another and judges whether each may stand after those before it, by the rules of
//! `lawful_report`. A line is read loosely, printed again and compared byte for byte, so there is no parser. An `Auditor` holds what
//! the lines so far have come to; a client's answer is found at the least point that gives it. The verdict is exact: `Lawful` where
//! the report is lawful, and else its first unlawful line, of which there is one. Stands on `lawful_report`, and on the crates whose
//! values the lines tell.
#![tactic(auto)]

mod answer_head;
mod answer_line;
mod auditing;
mod auditor;
mod beginning;
mod due;
mod early_answer;
mod failed_answers;
mod found_lines;
mod known;
mod leading;
mod opening;
mod pages;
mod points;
mod poll_line;
mod progress;
mod publication_line;
mod reading;
mod time_answer;
mod time_line;
mod verdict;

pub use auditing::audit;
pub use lawful_report::{Printed, print_line, put_line};
pub use verdict::Verdict;
