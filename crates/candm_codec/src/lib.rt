//! chrony's messages about tracking, as bytes and as values: the request and its reply.
//!
//! `read_reply` and `read_request` take the bytes of a message apart, or name their first fault. `write_reply` and
//! `write_request` make the bytes of one. Which bytes stand for which value is said once, by the places of the fields:
//! `IsTrackingReply` of `specs/Reply.antt` and `IsTrackingRequest` of `specs/Request.antt`. What is read is what stands
//! there, what is written stands there, and reading it gives the value back.
#![tactic(auto)]

mod numbers;
mod protocol;
mod reading;
mod request;
mod spelling;
mod tracking;
mod writing;

pub use protocol::{
    COMMAND_TRACKING, LARGEST_LEAP, REPLY_LENGTH, REPLY_PACKET, REPLY_TRACKING, REQUEST_LENGTH,
    REQUEST_PACKET, STATUS_SUCCESS, VERSION,
};
pub use reading::{read_reply, read_request};
pub use request::{Request, RequestFault};
pub use tracking::{Leap, RefTime, ReplyFault, Tracking};
pub use writing::{write_reply, write_request};

#[cfg(test)]
mod tests;
