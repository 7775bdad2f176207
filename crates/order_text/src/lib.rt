//! The lines that tell stamps and leases of the answers of a run.
//!
//! `put_order` takes the answers out of a run's events, each with its interval and the true time of the clock row that it read, and
//! appends a line or two for each of them, by the steps of `bound_order`, and their counts
//! (`specs/Told.antt`, `specs/Lines.antt`). Stands on `abstract_run` for the events and on `bound_order` for the steps.
#![tactic(auto)]

mod counts;
mod lines;
mod told;
mod whole;

pub use whole::put_order;
