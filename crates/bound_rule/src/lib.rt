//! When a reply of chronyd bounds the clock's error, and by how much.
//!
//! `assess` takes a readable tracking reply and the reading of the clock at which it was asked for. It gives the bound
//! and the monotonic times between which the bound may be used, or says why the reply bounds nothing
//! (`specs/GoodPoll.antt`). Stands on chrony_fraction, whose clock error bound it takes, and on candm_codec's reply.
#![tactic(auto)]

mod good;
mod rule;
mod unfit;

pub use good::Good;
pub use rule::assess;
pub use unfit::Unfit;

#[cfg(test)]
mod tests;
