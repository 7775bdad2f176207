//! The queue between a poller and a publisher: what was heard at each poll goes through in the order of the polls.
//!
//! `FeedQueue::new` makes an empty queue for the feeds of some polls, with room for eight of them, and its two ends.
//! `FeedIn::put` puts the next feed and `FeedOut::take` takes the next one, each on a thread of its own. There is one end of
//! each kind, and neither can be copied. Whatever the schedule, the feeds taken are, in order and each once, the first so many of
//! the polls. How many polls there are is not limited. The queue is the kit's `RuledArrayQueue`: `specs/Queued.antt` has
//! its rule, and what each end knows. Stands on `clock_gate` and `status_machine`.
#![tactic(auto)]

mod feed;
mod feed_in;
mod feed_out;
mod queue;
mod rule;

pub use feed::Feed;
pub use feed_in::FeedIn;
pub use feed_out::FeedOut;
pub use queue::FeedQueue;

#[cfg(test)]
mod tests;
