//! The lines of a report, and which reports of threads are lawful.
//!
//! A `Printed` is a line. `print_line` gives its bytes, `put_line` appends them to a text, and `after_line` tells whether a text
//! begins with them, all by the definitions of `specs/Lines.antt`, so that whoever writes or checks a report has the same lines.
//! A report of threads can't be foretold: it is lawful where each line may stand after those before it (`specs/Lawful.antt`). Where
//! the trace has fewer polls than the layout's period, every report of a run by threads is lawful (`live_report` proves it); a lawful
//! report doesn't have to be one that threads can give. `report_laws` says what lawful reports are to those who make them. Stands on
//! `vmclock_page`, `segment_layout`, `status_machine` and `interval_now`, whose values the lines tell, and on `backward_line`.
#![tactic(auto)]

mod answer_lines;
mod call;
mod counts;
mod daemon_lines;
mod entry;
mod laws;
mod line;
mod printed;
mod seen;
mod status_name;

pub use call::Call;
pub use counts::Counts;
pub use entry::Entry;
pub use laws::report_laws;
pub use line::{after_line, print_line, put_line};
pub use printed::Printed;
pub use seen::Seen;

#[cfg(test)]
mod tests;
