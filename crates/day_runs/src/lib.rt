//! Laws of a generated day: its promises are kept, in every run, whatever the seed, the number of polls and the order of the
//! parties' turns.
//!
//! No test finds a fault of a claim that is one of a day's run (`specs/Kept.antt`), each reply of the day bounds the clock's
//! error by at least 244,141 ns, and every run of a day makes such claims (`specs/DayRuns.antt`). The functions here have no
//! bodies: their contracts are laws that others cite. Stands on `drill_day`, whose day it speaks of, on `promise_judge`,
//! which has the tests, and on `run_promises`, which says what claims the answers of a run make.
#![tactic(auto)]

mod laws;

pub use laws::{day_keeps_its_promises, day_runs_hold, replies_bound_the_clock};
