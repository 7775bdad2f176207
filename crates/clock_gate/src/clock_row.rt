/// One row of a clock's readings. All times are nanoseconds from 0 to `LAST_MOMENT`.
#[derive(Clone, Copy, Debug, PartialEq, Eq, Hash)]
pub struct ClockRow {
    /// The monotonic clock, which never falls from one row to the next.
    pub mono: u64,
    /// The system's real-time clock, since 1970-01-01T00:00:00Z.
    pub real: u64,
    /// True time since the same moment, where the trace tells it.
    pub truth: Option<u64>,
}

/// What a client or the daemon sees when it reads the clock: a row without its truth.
#[derive(Clone, Copy, Debug, PartialEq, Eq, Hash)]
pub struct Reading {
    /// The number of the row, from 1.
    pub row: u32,
    /// The monotonic clock, in nanoseconds.
    pub mono: u64,
    /// The system's real-time clock, in nanoseconds since 1970-01-01T00:00:00Z.
    pub real: u64,
}
