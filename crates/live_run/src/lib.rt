//! A run of a trace by real threads, all over one table of shared words.
//!
//! `run_workers` runs the host, a poller, the daemon and the clients side by side: the host does its rows, the poller reads the replies
//! ahead and a queue brings them to the daemon, and workers give each of their clients a step in turn. What no thread can be made for is
//! run by its caller. Whatever order the steps take, the lines are those of the calls that the seats made (`IsRunOf` of `live_report`), so
//! that the report of these lines is lawful where the trace has fewer polls than the layout's period. The files of `specs/` say what each
//! worker begins with and what it leaves.
#![tactic(auto)]

mod beside;
mod clients;
mod feeding;
mod gather;
mod host;
mod lines;
mod pause;
mod poller;
mod publisher;
mod room;
mod run;
mod workers;

pub use live_report::{Line, Lines};
pub use run::{Ran, run_trace, run_workers};
