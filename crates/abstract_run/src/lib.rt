//! The run of a trace with nothing but what is in it: positions that never wrap, whole records, no shared word.
//!
//! One turn is one step of one party. What a load gives is computed from where the host and the segment stand (`specs/HostRun.antt`,
//! `specs/ClientRun.antt`, `specs/DaemonRun.antt`); a whole run does the trace's schedule, and then what it leaves of the trace's jobs
//! in their order (`specs/RunWhole.antt`). What ends is told as an `Event`. `run_laws` are the laws of the events of every run. Stands
//! on the definitions of the daemon, of a call and of the segment, and on no machine.
#![tactic(auto)]

mod event;
mod laws;
mod limits;
mod trace_types;

pub use event::{Event, Trail};
pub use laws::run_laws;
pub use limits::{MOST_EVENTS, MOST_JOB_STEPS};
pub use trace_types::given;
