//! The bounds of a record, each in its one home.

/// The most whole seconds of as-of.
pub const MOST_AS_OF_SECONDS: u64 = 4_000_000_000;

/// The most whole seconds of void-after: a record is void 1,000 s after as-of.
pub const MOST_VOID_AFTER_SECONDS: u64 = 4_000_001_000;

/// The largest bound, in nanoseconds: 2^62.
pub const MOST_BOUND: u64 = 1 << 62;

/// The largest drift, in parts per billion.
pub const MOST_DRIFT: u32 = 1_000_000_000;

/// The last as-of, in nanoseconds.
pub const LAST_AS_OF: i128 = 4_000_000_000_999_999_999;

/// The last void-after, in nanoseconds.
pub const LAST_VOID_AFTER: i128 = 4_000_001_000_999_999_999;
