//! Laws over every run, whatever the order of its parties' turns: what its events tell of each answer, and that an answer whose
//! promises were kept has the truth in its interval.
//!
//! `any_run` has what the events tell. `specs/Judged.antt` says which claim the events before an answer make of it, and what
//! `Premises` of a run are; `kept_answers` has that each answer without a fault contains true time. Stands on `abstract_run`, whose
//! definitions say what a run is, and on `promise_judge`, whose tests a claim passes or fails.
#![tactic(auto)]

mod answers;
mod premises;
mod runs;

pub use answers::kept_answers;
pub use premises::Premises;
pub use runs::any_run;
