//! The report of a run whose host, daemon and clients ran side by side on the shared words, and why it is lawful.
//!
//! A `Line` is what one call of the daemon or of a client came to; `Lines` keeps the daemon's, and of each client's the answers alone.
//! `specs/LiveRun.antt` says what a run of a trace is: the calls of
//! each seat in their order, each with its line, and what has been settled when all have ended. `specs/LiveReport.antt` has the report
//! of its lines. `live_laws` has that this report is lawful, whatever order the calls of the parties took, and that the history is
//! that of the lines. No thread stands here: whoever makes such a run, makes a lawful report.
#![tactic(auto)]

mod counts;
mod laws;
mod limits;
mod line;
mod lines;
mod printing;

pub use laws::live_laws;
pub use limits::MOST_LINES;
pub use line::Line;
pub use lines::Lines;
pub use printing::report;
