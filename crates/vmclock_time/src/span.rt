//! What a page tells of the time since its counter value, in units of 2^-104 s, or why it tells nothing.
ghost use Rattle.std.specs.Prelude.{◌≡◌, ◌+◌, ◌-◌, ◌*◌, ◌^◌, ◌<◌, ◌≤◌, IfOk, IfErr, IfNone, OnOk, Some, None, pos, ◌≤ℤ◌};
ghost use Rattle.vmclock_time.specs.Refusals.{first_refusal};
ghost use Rattle.vmclock_time.specs.Units.{IsNear, IsSpan};
ghost use Rattle.vmclock_time.specs.declared.limits.TheConstants.{LAST_SECOND};

use crate::fault::PageTimeFault;
use crate::limits::{LAST_SECOND, MOST_SHIFT};
use crate::units::spent;
use vmclock_page::Page;

/// The time that went by, and its greatest error.
#[derive(Clone, Copy, Debug)]
pub struct Span {
    pub elapsed: u128,
    pub drift: u128,
}

#[tactic(auto, using(crate::proofs::Floors::near), unfolding(crate::specs::Refusals::first_refusal))]
fn refused(page: &Page, reading: u64) -> Option<PageTimeFault>
    ensures value { result ≡ first_refusal page.now reading }
    ensures near { IfNone result (IsNear page.now reading) }
{
    if page.time_type != 0 {
        return Some(PageTimeFault::TimeType(page.time_type));
    }
    if page.clock_status != 2 && page.clock_status != 3 {
        return Some(PageTimeFault::Status(page.clock_status));
    }
    let shift = page.counter_period_shift;
    if shift > MOST_SHIFT {
        return Some(PageTimeFault::Shift(shift));
    }
    if page.time_sec > LAST_SECOND {
        return Some(PageTimeFault::Range(page.time_sec));
    }
    if reading < page.counter_value {
        return Some(PageTimeFault::Back);
    }
    let ticks = reading - page.counter_value;
    let word = page
        .counter_period_frac_sec
        .max(page.counter_period_maxerror_rate_frac_sec);
    if u128::from(ticks) * u128::from(word) > 1 << (84 + shift) {
        return Some(PageTimeFault::TooFar);
    }
    None
}

/// The time that went by since the counter value, or the first fault of the page.
pub fn measure(page: &Page, reading: u64) -> Result<Span, PageTimeFault>
    ensures fault { IfErr result (λ fault. first_refusal page.now reading ≡ Some fault) }
    ensures accepted { OnOk result (first_refusal page.now reading ≡ None) }
    ensures span { IfOk result (λ span. IsSpan page.now reading span.elapsed span.drift) }
{
    if let Some(fault) = refused(page, reading) {
        return Err(fault);
    }
    let ticks = reading - page.counter_value;
    let shift = page.counter_period_shift;
    let elapsed = spent(shift, page.counter_period_frac_sec, ticks);
    let drift = spent(shift, page.counter_period_maxerror_rate_frac_sec, ticks);
    Ok(Span { elapsed, drift })
}

/// The part of a second that the page tells beside its whole seconds, in units of 2^-104 s.
pub fn fraction(page: &Page) -> i128
    ensures value { result ≡ pos (page.now.time_frac_sec * 2 ^ 40) }
    ensures small { page.now.time_frac_sec * 2 ^ 40 < 2 ^ 104 }
{
    i128::from(page.time_frac_sec) * (1 << 40)
}

/// Its whole seconds, in nanoseconds.
pub fn seconds(page: &Page) -> i128
    requires { page.now.time_sec ≤ LAST_SECOND }
    ensures value { result ≡ pos (1_000_000_000 * page.now.time_sec) }
    ensures low { pos 0 ≤ℤ result }
    ensures high { result ≤ℤ pos (2 ^ 62) }
{
    1_000_000_000 * i128::from(page.time_sec)
}

/// The greatest error of the page's own time, in nanoseconds.
pub fn slack(page: &Page) -> u64
    ensures value { result ≡ page.now.time_maxerror_nanosec }
    ensures small { result < 2 ^ 64 }
{
    page.time_maxerror_nanosec
}
