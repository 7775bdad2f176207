//! Laws of stamps and leases in every run: where the premises of a run held, the stamps of its answers follow true time and its leases
//! don't overlap, whatever the order of its parties' turns.
//!
//! Stands on `order_text`, whose definitions say what is told of an answer, on `run_promises`, by which a trusted answer contains true
//! time where the premises held, and on `bound_order`, whose theorem asks nothing else.
#![tactic(auto)]

mod runs;

pub use runs::ordered_laws;
