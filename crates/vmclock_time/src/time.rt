//! The interval of true time at one reading of the counter.
ghost use Rattle.std.specs.Prelude.{◌≡◌, ◌+◌, ◌-◌, ◌*◌, ◌^◌, ◌<◌, ◌≤◌, IfOk, IfErr, OnOk, Some, None, pos, neg_ℤ, ◌+ℤ◌, ◌-ℤ◌, ◌≤ℤ◌};
ghost use Rattle.vmclock_time.specs.PageTime.{IsInterval, page_time_of};
ghost use Rattle.vmclock_time.specs.Refusals.{first_refusal};
ghost use Rattle.vmclock_time.specs.Units.{floor_of, lower_units, upper_units};
ghost use Rattle.vmclock_time.specs.declared.limits.TheConstants.{LAST_SECOND};

use crate::fault::PageTimeFault;
use crate::span::{Span, fraction, measure, seconds, slack};
use crate::units::whole_nanos;
use vmclock_page::Page;

// The page's part of a second and the time that went by, less the error of that time.
fn behind(page: &Page, span: Span) -> i128
    requires elapsed { span.elapsed ≤ 2 ^ 124 }
    requires drift { span.drift ≤ 2 ^ 124 }
    ensures value { result ≡ pos (page.now.time_frac_sec * 2 ^ 40 + span.elapsed) -ℤ pos span.drift }
    ensures low { neg_ℤ (pos (2 ^ 126)) ≤ℤ result }
    ensures high { result ≤ℤ pos (2 ^ 126) }
{
    fraction(page) + span.elapsed as i128 - span.drift as i128
}

// The page's part of a second, the time that went by and its error, all below 0.
fn ahead(page: &Page, span: Span) -> i128
    requires elapsed { span.elapsed ≤ 2 ^ 124 }
    requires drift { span.drift ≤ 2 ^ 124 }
    ensures value { result ≡ neg_ℤ (pos (page.now.time_frac_sec * 2 ^ 40 + span.elapsed + span.drift)) }
    ensures low { neg_ℤ (pos (2 ^ 126)) ≤ℤ result }
    ensures high { result ≤ℤ pos (2 ^ 126) }
{
    -(fraction(page) + span.elapsed as i128 + span.drift as i128)
}

fn less(seconds: i128, nanoseconds: i128, error: u64) -> i128
    requires seconds_low { pos 0 ≤ℤ seconds }
    requires seconds_high { seconds ≤ℤ pos (2 ^ 62) }
    requires low { neg_ℤ (pos (2 ^ 54)) ≤ℤ nanoseconds }
    requires high { nanoseconds ≤ℤ pos (2 ^ 54) }
    ensures { result ≡ seconds +ℤ nanoseconds -ℤ pos error }
{
    seconds + nanoseconds - i128::from(error)
}

fn more(seconds: i128, nanoseconds: i128, error: u64) -> i128
    requires seconds_low { pos 0 ≤ℤ seconds }
    requires seconds_high { seconds ≤ℤ pos (2 ^ 62) }
    requires low { neg_ℤ (pos (2 ^ 54)) ≤ℤ nanoseconds }
    requires high { nanoseconds ≤ℤ pos (2 ^ 54) }
    ensures { result ≡ seconds +ℤ pos error -ℤ nanoseconds }
{
    seconds + i128::from(error) - nanoseconds
}

fn earliest(page: &Page, span: Span) -> i128
    requires seconds { page.now.time_sec ≤ LAST_SECOND }
    requires elapsed { span.elapsed ≤ 2 ^ 124 }
    requires drift { span.drift ≤ 2 ^ 124 }
    ensures { result ≡ floor_of (lower_units page.now span.elapsed span.drift) }
{
    let units = behind(page, span);
    less(seconds(page), whole_nanos(units), slack(page))
}

fn latest(page: &Page, span: Span) -> i128
    requires seconds { page.now.time_sec ≤ LAST_SECOND }
    requires elapsed { span.elapsed ≤ 2 ^ 124 }
    requires drift { span.drift ≤ 2 ^ 124 }
    ensures { result ≡ neg_ℤ (floor_of (neg_ℤ (upper_units page.now span.elapsed span.drift))) }
{
    let units = ahead(page, span);
    more(seconds(page), whole_nanos(units), slack(page))
}

#[tactic(auto, using(crate::proofs::Scaled::earliest_scaled, crate::proofs::Scaled::latest_scaled), unfolding(crate::specs::PageTime::page_time_of))]
fn interval(page: &Page, reading: u64) -> Result<(i128, i128), PageTimeFault>
    ensures { result ≡ page_time_of page.now reading }
{
    let span = measure(page, reading)?;
    Ok((earliest(page, span), latest(page, span)))
}

/// The interval of true time at a reading of the counter, earliest and latest, in nanoseconds since 1970.
///
/// The time at the page's `counter_value` and a period for each tick since then, less (and plus) the greatest error of
/// both: rounded down to the earliest, and up to the latest whole nanosecond. A fault comes exactly where it is the
/// first of `PageTimeFault`'s that holds. The fields and the period's unit are those of vmclock-abi.h; that
/// `time_frac_sec` counts in 2^-64 s, that the error counts in the period's unit, and the limits are this project's own.
/// `flags` are ignored.
pub fn page_time(page: &Page, reading: u64) -> Result<(i128, i128), PageTimeFault>
    ensures exact { result ≡ page_time_of page.now reading }
    // The first fault that holds, and none where there is an interval.
    ensures fault { IfErr result (λ fault. first_refusal page.now reading ≡ Some fault) }
    ensures accepted { OnOk result (first_refusal page.now reading ≡ None) }
    // The greatest whole number not above the exact lower end, and the least not below the upper.
    ensures interval { IfOk result (λ told. IsInterval page.now reading told.0 told.1) }
{
    interval(page, reading)
}
