//! The report of a list of rows.
ghost use Rattle.std.specs.Prelude.{◌≡◌, ◌<◌, ◌≤◌, length, vec_items, IfOk, IfSome, IfNone, OnOk};
ghost use Rattle.vmclock_time.specs.Making.{Made, with_row};
ghost use Rattle.vmclock_time.specs.PageReport.{failed_of, told_more, told_of};
ghost use Rattle.vmclock_time.specs.Premises.{AllHold, AreSafe, IsFirstFailed};
ghost use Rattle.vmclock_time.specs.Reads.{BeginsWithPage, read_in, reads_of};
ghost use Rattle.vmclock_time.specs.declared.limits.TheConstants.{MOST_PAGE_ROWS};

use crate::making::Making;
use crate::rows::{PageReport, PageRow, PageTold};
use clock_gate::{List, Memory};
use std::alloc::{AllocError, Global};

// What the reads are told, after one row more.
fn take_row(told: &mut Vec<PageTold>, making: &mut Making, row: &PageRow) -> Result<(), AllocError>
    requires { Made.reads making.old < MOST_PAGE_ROWS }
    ensures told { OnOk result (vec_items told.new ≡ told_more (vec_items told.old) (read_in (Made.last making.old) row.now)) }
    ensures made { OnOk result (making.new ≡ with_row making.old row.now) }
{
    match row {
        PageRow::Page { page, truth } => {
            making.take_page(page, *truth);
            Ok(())
        }
        PageRow::Read { counter, truth } => match making.take_read(*counter, *truth) {
            None => Ok(()),
            Some(line) => Ok(told.push(line)?),
        },
    }
}

fn report(alloc: Global, rows: &[PageRow]) -> Result<PageReport, AllocError>
    requires { length rows.now ≤ MOST_PAGE_ROWS }
    ensures { IfOk result (λ report. (report.told ≡ told_of rows.now) × (report.failed ≡ failed_of rows.now)) }
{
    let mut told = Vec::new(alloc);
    let mut making = Making::new();
    'rows: for row in rows {
        take_row(&mut told, &mut making, row)?;
    }
    Ok(PageReport {
        told: List::from_vec(told),
        failed: making.failed(),
    })
}

/// What each read is told by the last page before it, and the first read whose true time breaks what the page promises.
///
/// A read that was told an interval is tested: true time is known at the page's counter value and at the reading; at the
/// counter value it is within `time_maxerror_nanosec` of the page's own time; and as much of it went by as the ticks tell,
/// within the greatest error of their period. Where a read passes, its true time lies in its interval.
pub fn page_report(alloc: Global, rows: &[PageRow]) -> Result<PageReport, Memory>
    requires most { length rows.now ≤ MOST_PAGE_ROWS }
    requires begins { BeginsWithPage rows.now }
    ensures told { IfOk result (λ report. report.told ≡ told_of rows.now) }
    ensures failed { IfOk result (λ report. report.failed ≡ failed_of rows.now) }

    // The failure is the first; without one each read passes.
    ensures first { IfOk result (λ report. IfSome report.failed (IsFirstFailed (reads_of rows.now))) }
    ensures held { IfOk result (λ report. IfNone report.failed (AllHold (reads_of rows.now))) }

    // Each read that was told an interval and passes has its true time in it.
    ensures safe { IfOk result (λ report. AreSafe (reads_of rows.now) report.told) }
{
    let report = report(alloc, rows)?;
    Ok(report)
}
