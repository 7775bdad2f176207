//! What a client call answers.

use clock_gate::{ClockStatus, Stamp};

/// From `earliest` to `latest`, in nanoseconds since 1970-01-01T00:00:00Z. With `Synchronized` or `FreeRunning`, true time lies in it
/// where the promises of its base were kept. With `Unknown` or `Disrupted` it claims nothing.
#[derive(Clone, Copy, Debug, PartialEq, Eq)]
pub struct Interval {
    pub earliest: i128,
    pub latest: i128,
    pub status: ClockStatus,
}

/// The reading lies before the record: its monotonic time and 1,000 ns are below as-of.
#[derive(Clone, Copy, Debug, PartialEq, Eq)]
pub struct Causality {
    pub as_of: Stamp,
    /// In nanoseconds.
    pub mono: u64,
}

/// The answer of a client call that got an interval.
#[derive(Clone, Copy, Debug, PartialEq, Eq)]
pub struct Timed {
    /// The generation of the record that it read.
    pub generation: u32,
    /// The clock row that it read.
    pub row: u32,
    /// The page's sequence count that it saw, or 0 without a page.
    pub sequence: u32,
    pub interval: Interval,
}

/// What a client call has come to.
#[derive(Clone, Copy, Debug, PartialEq, Eq)]
pub enum Answer {
    /// A try read the record, a try read the page where there is one, and the reading does not lie before the record.
    Time(Timed),
    /// Every try to read the segment failed.
    Busy {
        /// How many tries there were.
        tries: u16,
        /// The generation that the last try loaded first.
        first: u32,
        /// The generation that it loaded last; an odd first one stands in both places.
        last: u32,
    },
    /// A try loaded generation 0: nothing was ever published.
    NotInitialized,
    /// A try read the record, and then every try to read the page failed.
    PageBusy {
        /// The sequence count that the last try loaded first.
        first: u32,
        /// The sequence count that it loaded last; an odd first one stands in both places.
        last: u32,
    },
    /// The reading lies before the record.
    Causality(Causality),
}
