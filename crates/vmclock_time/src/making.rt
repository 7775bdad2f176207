//! A report in the making.
ghost use Rattle.std.specs.Prelude.{◌≡◌, ◌<◌, is_some};
ghost use Rattle.vmclock_time.specs.Making.{Made, failed_first, nothing_made, told_by, with_row};
ghost use Rattle.vmclock_time.specs.PageReport.{told_as};
ghost use Rattle.vmclock_time.specs.PageTime.{page_time_of};
ghost use Rattle.vmclock_time.specs.declared.limits.TheConstants.{MOST_PAGE_ROWS};
ghost use Rattle.vmclock_time.specs.declared.rows.PageRow.TheVariants as row;

use crate::premises::failure;
use crate::rows::{PageFailed, PageTold, PageWhy};
use crate::time::page_time;
use std::marker::Model;
use vmclock_page::Page;

/// A report in the making: how many reads there were, the first of them that failed a test, and the last page with true time at
/// its counter value. What a read is told, it tells when it takes it.
#[derive(Drop)]
pub struct Making {
    reads: u32,
    failed: Option<PageFailed>,
    last: Option<(Page, Option<u64>)>,
}

impl Model for Making {
    ghost use Rattle.vmclock_time.specs.Making.{Made};

    ghost Value = { Made };

    ghost view = { λ m. record { reads = m.reads; failed = m.failed; last = m.last } };
}

// What a reading is told by a page.
fn told(page: &Page, counter: u64) -> PageTold
    ensures { result ≡ told_as (page_time_of page.now counter) }
{
    match page_time(page, counter) {
        Ok((earliest, latest)) => PageTold::Time { earliest, latest },
        Err(fault) => PageTold::Refused(fault),
    }
}

// The first failure, where the read of this number failed by this test.
fn first_failure(failed: Option<PageFailed>, read: u32, why: Option<PageWhy>) -> Option<PageFailed>
    ensures { result ≡ failed_first failed read why }
{
    if failed.is_some() {
        return failed;
    }
    let why = why?;
    Some(PageFailed { read, why })
}

impl Making {
    /// Before the first row.
    pub fn new() -> Making
        ensures { result ≡ nothing_made }
    {
        Making {
            reads: 0,
            failed: None,
            last: None,
        }
    }

    /// Whether a page was taken.
    pub fn has_page(&self) -> bool
        ensures { result ≡ is_some (Made.last self.now) }
    {
        self.last.is_some()
    }

    /// The first read that was told an interval and failed a test, with its first test.
    pub fn failed(&self) -> Option<PageFailed>
        ensures { result ≡ Made.failed self.now }
    {
        self.failed
    }

    /// Takes a page, and true time at its counter value.
    pub fn take_page(&mut self, page: &Page, truth: Option<u64>)
        ensures { self.new ≡ with_row self.old (row.Page page.now truth) }
    {
        self.last = Some((*page, truth));
    }

    /// Takes a reading of the counter of the last page, and true time at the reading: what it is told. Without a page it is none.
    #[tactic(auto, unfolding(crate::specs::PageReport::told_to))]
    pub fn take_read(&mut self, counter: u64, truth: Option<u64>) -> Option<PageTold>
        requires { Made.reads self.old < MOST_PAGE_ROWS }
        ensures row { self.new ≡ with_row self.old (row.Read counter truth) }
        ensures told { result ≡ told_by (Made.last self.old) counter truth }
    {
        let last = self.last;
        let (page, started) = last?;
        let number = self.reads + 1;
        let why = failure(&page, started, counter, truth);
        self.reads = number;
        self.failed = first_failure(self.failed, number, why);
        Some(told(&page, counter))
    }
}
