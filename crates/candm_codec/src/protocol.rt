//! The numbers that mark chrony's tracking messages. Source: candm.h.

/// The protocol version, byte 0 of each message.
pub const VERSION: u8 = 6;

/// The packet type of a request, byte 1.
pub const REQUEST_PACKET: u8 = 1;

/// The packet type of a reply, byte 1.
pub const REPLY_PACKET: u8 = 2;

/// The command that asks for tracking, and that its reply repeats.
pub const COMMAND_TRACKING: u16 = 33;

/// The kind of reply that tells of tracking.
pub const REPLY_TRACKING: u16 = 5;

/// The status of a request that was granted.
pub const STATUS_SUCCESS: u16 = 0;

/// The largest code of a leap.
pub const LARGEST_LEAP: u16 = 3;

/// The bytes of a tracking reply. Those after them are ignored (this project's rule).
pub const REPLY_LENGTH: usize = 104;

/// The bytes of a request for tracking, as many as of its reply. Those after them are ignored (this project's rule).
pub const REQUEST_LENGTH: usize = 104;
