//! The limits of a trace, each in its one home.

/// The most bytes that a program reads of its source: 16 MiB.
pub const INPUT_LIMIT: usize = 16_777_216;

/// The last moment of a trace, in nanoseconds. Monotonic, real and true times lie from 0 to it; as a real time it
/// is in October 2096.
pub const LAST_MOMENT: u64 = 4_000_000_000_000_000_000;

/// The greatest drift, in parts per billion: the clock may stand still, or run twice as fast.
pub const MOST_DRIFT: u32 = 1_000_000_000;

/// The drift of a trace that sets none, in parts per billion.
pub const USUAL_DRIFT: u32 = 50_000;

/// The most tries of one read of the segment or of the page.
pub const MOST_TRIES: u16 = 1_000;

/// The tries of a trace that sets none.
pub const USUAL_TRIES: u16 = 10;

/// The most clients.
pub const MOST_CLIENTS: u32 = 64;

/// The most rows that the host writes in one trace; a clock has no more rows than that.
pub const MOST_HOST_ROWS: usize = 300_000;

/// The most polls of the daemon in one trace.
pub const MOST_POLLS: usize = 100_000;

/// The most calls of all clients in one trace.
pub const MOST_CALLS: usize = 300_000;

/// The most lines of a schedule.
pub const MOST_SCHEDULE_LINES: usize = 1_000_000;

/// The most turns of all `run` lines of a schedule.
pub const MOST_TURNS: u64 = 50_000_000;

/// The most turns, or jobs, of one line of a schedule.
pub const MOST_OF_A_LINE: u32 = 1_000_000;

/// The most bytes of a reply in a trace.
pub const MOST_REPLY_BYTES: usize = 1_024;

/// The most bytes of a page in a trace.
pub const MOST_PAGE_BYTES: usize = 4_096;

/// The stores of one publication: a daemon stops after none of them, after all, or after some.
pub const MOST_STORES: u8 = 10;
