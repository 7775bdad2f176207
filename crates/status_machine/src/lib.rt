//! The state of the daemon: what each poll makes of its reply.
//!
//! `Daemon::resume` begins an incarnation from what the segment held, `Daemon::step` takes one poll and gives the record
//! to publish. A daemon holds a marker, a mode and a base, and nothing else of its past. The records of any list of polls
//! are those of a look back over the whole list (`specs/Incarnation.antt`), which holds none of the three: that is the
//! contract of `records`, and `last_mark` says in what sense the look back finds the last disruption.
//! Stands on bound_rule, which says when a reply bounds the clock's error, and on segment_layout's record.
#![tactic(auto)]

mod base;
mod daemon;
mod heard;
mod law;
mod life;
mod mode;
mod poll;

pub use base::Base;
pub use daemon::Daemon;
pub use heard::{Heard, hear};
pub use law::{base_keeps_marker, calm_start, last_mark};
pub use life::records;
pub use mode::Mode;
pub use poll::Poll;

#[cfg(test)]
mod tests;
