//! The interval of true time that a VMClock page and a reading of its counter tell.
//!
//! `page_time` tells it in whole nanoseconds: its earliest is the greatest number not above the exact fraction, its
//! latest the least not below (`specs/PageTime.antt`), or it names the first of six refusals (`specs/Refusals.antt`).
//! `page_report` tells it to each reading of a list of pages and readings, and names the first reading whose true time
//! breaks what its page promises; where one keeps it, the true time lies in the interval (`specs/Premises.antt`). A `Making` is
//! such a report row by row, which keeps none of them (`specs/Making.antt`). All sums are whole numbers of 128 bits, and none is
//! rounded but the result. Stands on `vmclock_page`, and on `clock_gate` for `List` and `Memory`.
#![tactic(auto)]

mod fault;
mod limits;
mod making;
mod premises;
mod reporting;
mod rows;
mod span;
mod time;
mod units;

pub use fault::PageTimeFault;
pub use limits::{LAST_SECOND, MOST_PAGE_ROWS, MOST_SHIFT};
pub use making::Making;
pub use reporting::page_report;
pub use rows::{PageFailed, PageReport, PageRow, PageTold, PageWhy};
pub use time::page_time;

#[cfg(test)]
mod tests;
