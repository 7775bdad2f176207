//! The daemon's step machines: how it opens a segment, and how it makes one poll.
//!
//! An `Opener` looks at what a segment holds when the daemon is started. It gives a new segment its magic and header,
//! keeps a record or the odd number of an abandoned update, and moves a segment of version 2 to layout 3. A
//! `PollMachine` loads the clock, with support looks at the page, loads the clock again, where the reply counts as taken,
//! and makes the publisher's ten stores, cut at the stop where there is one. What each wants next, or its answer, is told
//! by the list of all values that it was given: `specs/Opening.antt` and `specs/Poll.antt` say how, `opening_laws` and
//! `poll_laws` that it is so, that they end, and after how many steps. Stands on `shm_writer` for the stores,
//! `status_machine` for what a poll makes of its reply, `vmclock_page` for the page and `segment_layout` for the words.
#![tactic(auto)]

mod law;
mod opener;
mod opening;
mod order;
mod poll_machine;
mod polled;
mod stage;
mod steps;
mod storing;

pub use law::{opening_laws, poll_laws};
pub use opener::Opener;
pub use opening::Opening;
pub use poll_machine::PollMachine;
pub use polled::Polled;

#[cfg(test)]
mod tests;
