//! Whether the promises of a run's answers were kept, and which was the first that was not.
//!
//! Each answer that is Synchronized or Free Running is judged by `promise_judge`, by the claim that the events before it make of it
//! (`run_promises`). `premises` looks back over the events and takes no memory; `judged_run` keeps tables and judges each answer in
//! constant time. Both give the one verdict that `run_promises` defines, and where it is `Held` each such answer contains true time.
#![tactic(auto)]

mod claims;
mod ended;
mod judging;
mod looking;
mod past;
mod walking;

pub use judging::judged_run;
pub use walking::premises;

#[cfg(test)]
mod tests;
