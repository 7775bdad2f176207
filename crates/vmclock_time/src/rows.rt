//! What a report is made of, and what it says.
use crate::fault::PageTimeFault;
use clock_gate::List;
use vmclock_page::Page;

/// One row: a page, or a reading of its counter. True times are nanoseconds since 1970, where they are known.
#[derive(Clone, Copy, Debug, PartialEq, Eq)]
pub enum PageRow {
    /// A page, and true time at its `counter_value`.
    Page { page: Page, truth: Option<u64> },
    /// A reading of the counter of the last page before it, and true time at the reading.
    Read { counter: u64, truth: Option<u64> },
}

/// What a reading is told by the last page before it.
#[derive(Clone, Copy, Debug, PartialEq, Eq)]
pub enum PageTold {
    /// The interval, in nanoseconds since 1970.
    Time { earliest: i128, latest: i128 },
    /// Why there is none.
    Refused(PageTimeFault),
}

/// A test that a read fails which was told an interval: the first, in this order.
#[derive(Clone, Copy, Debug, PartialEq, Eq, Hash)]
pub enum PageWhy {
    /// True time at the page's counter value or at the reading isn't known.
    Untold,
    /// True time at the page's counter value differs from the page's own time by more than `time_maxerror_nanosec`.
    Page,
    /// The true time that went by differs from a period for each tick by more than the greatest error of so many periods.
    Rate,
}

/// A read that fails a test.
#[derive(Clone, Copy, Debug, PartialEq, Eq, Hash)]
pub struct PageFailed {
    /// The number of the read, from 1. Refused reads are counted too.
    pub read: u32,
    pub why: PageWhy,
}

/// What the reads are told, and whether the pages kept what they promise.
#[derive(Debug, Drop)]
pub struct PageReport {
    /// What each read is told, in order.
    pub told: List<PageTold>,
    /// The first read that was told an interval and fails a test, with its first test; `None` where there is none.
    pub failed: Option<PageFailed>,
}
