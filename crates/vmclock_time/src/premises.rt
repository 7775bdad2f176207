//! Whether true time keeps what a page promises.
ghost use Rattle.std.specs.Prelude.{◌≡◌, ◌+◌, ◌*◌, ◌^◌, ◌≤◌, ◌↔◌, IsTrue, pos, neg_ℤ, ◌-ℤ◌, ◌*ℤ◌, ◌≤ℤ◌};
ghost use Rattle.vmclock_time.specs.Premises.{failure_of};
ghost use Rattle.vmclock_time.specs.Units.{failure_in_units, page_keeps, rate_keeps, slack_units, start_units};
ghost use Rattle.vmclock_time.specs.declared.limits.TheConstants.{LAST_SECOND};

use crate::rows::PageWhy;
use crate::span::{Span, fraction, measure, seconds, slack};
use crate::units::whole_nanos;
use vmclock_page::Page;

// Whether so many nanoseconds are at most so many units of 2^-104 s.
#[tactic(auto, using(crate::proofs::Floors::below_floor))]
fn is_at_most(nanoseconds: i128, units: i128) -> bool
    requires low { neg_ℤ (pos (2 ^ 126)) ≤ℤ units }
    requires high { units ≤ℤ pos (2 ^ 126) }
    ensures { IsTrue result ↔ ((nanoseconds *ℤ pos (2 ^ 104)) ≤ℤ (units *ℤ pos 1_000_000_000)) }
{
    nanoseconds <= whole_nanos(units)
}

// True time at the counter value, less the page's whole seconds and its greatest error.
fn late_by(seconds: i128, started: u64, slack: u64) -> i128
    requires low { pos 0 ≤ℤ seconds }
    requires high { seconds ≤ℤ pos (2 ^ 62) }
    ensures { result ≡ pos started -ℤ pos slack -ℤ seconds }
{
    i128::from(started) - i128::from(slack) - seconds
}

// The page's whole seconds, less true time at the counter value and the page's greatest error.
fn early_by(seconds: i128, started: u64, slack: u64) -> i128
    requires low { pos 0 ≤ℤ seconds }
    requires high { seconds ≤ℤ pos (2 ^ 62) }
    ensures { result ≡ seconds -ℤ pos started -ℤ pos slack }
{
    seconds - i128::from(started) - i128::from(slack)
}

fn negated_fraction(page: &Page) -> i128
    ensures value { result ≡ neg_ℤ (pos (page.now.time_frac_sec * 2 ^ 40)) }
    ensures low { neg_ℤ (pos (2 ^ 104)) ≤ℤ result }
    ensures high { result ≤ℤ pos 0 }
{
    -fraction(page)
}

fn is_not_late(page: &Page, started: u64) -> bool
    requires { page.now.time_sec ≤ LAST_SECOND }
    ensures { IsTrue result ↔ (started * 2 ^ 104 ≤ start_units page.now + slack_units page.now) }
{
    is_at_most(late_by(seconds(page), started, slack(page)), fraction(page))
}

fn is_not_early(page: &Page, started: u64) -> bool
    requires { page.now.time_sec ≤ LAST_SECOND }
    ensures { IsTrue result ↔ (start_units page.now ≤ started * 2 ^ 104 + slack_units page.now) }
{
    is_at_most(
        early_by(seconds(page), started, slack(page)),
        negated_fraction(page),
    )
}

fn page_keeps(page: &Page, started: u64) -> bool
    requires { page.now.time_sec ≤ LAST_SECOND }
    ensures { result ≡ page_keeps page.now started }
{
    if !is_not_late(page, started) {
        return false;
    }
    is_not_early(page, started)
}

fn between(from: u64, to: u64) -> i128
    ensures { result ≡ pos to -ℤ pos from }
{
    i128::from(to) - i128::from(from)
}

fn most(span: Span) -> i128
    requires elapsed { span.elapsed ≤ 2 ^ 124 }
    requires drift { span.drift ≤ 2 ^ 124 }
    ensures value { result ≡ pos (span.elapsed + span.drift) }
    ensures high { result ≤ℤ pos (2 ^ 126) }
{
    (span.elapsed + span.drift) as i128
}

fn least_negated(span: Span) -> i128
    requires elapsed { span.elapsed ≤ 2 ^ 124 }
    requires drift { span.drift ≤ 2 ^ 124 }
    ensures value { result ≡ pos span.drift -ℤ pos span.elapsed }
    ensures low { neg_ℤ (pos (2 ^ 126)) ≤ℤ result }
    ensures high { result ≤ℤ pos (2 ^ 126) }
{
    span.drift as i128 - span.elapsed as i128
}

#[tactic(auto, using(crate::proofs::Floors::at_most_the_most))]
fn is_not_above(span: Span, started: u64, truth: u64) -> bool
    requires elapsed { span.elapsed ≤ 2 ^ 124 }
    requires drift { span.drift ≤ 2 ^ 124 }
    ensures { IsTrue result ↔ (truth * 2 ^ 104 ≤ started * 2 ^ 104 + 1_000_000_000 * span.elapsed + 1_000_000_000 * span.drift) }
{
    is_at_most(between(started, truth), most(span))
}

#[tactic(auto, using(crate::proofs::Floors::at_least_the_least))]
fn is_not_below(span: Span, started: u64, truth: u64) -> bool
    requires elapsed { span.elapsed ≤ 2 ^ 124 }
    requires drift { span.drift ≤ 2 ^ 124 }
    ensures { IsTrue result ↔ (started * 2 ^ 104 + 1_000_000_000 * span.elapsed ≤ truth * 2 ^ 104 + 1_000_000_000 * span.drift) }
{
    is_at_most(between(truth, started), least_negated(span))
}

fn rate_keeps(span: Span, started: u64, truth: u64) -> bool
    requires elapsed { span.elapsed ≤ 2 ^ 124 }
    requires drift { span.drift ≤ 2 ^ 124 }
    ensures { result ≡ rate_keeps span.elapsed span.drift started truth }
{
    if !is_not_above(span, started, truth) {
        return false;
    }
    is_not_below(span, started, truth)
}

fn failure_of_span(
    page: &Page,
    span: Span,
    started: Option<u64>,
    truth: Option<u64>,
) -> Option<PageWhy>
    requires seconds { page.now.time_sec ≤ LAST_SECOND }
    requires elapsed { span.elapsed ≤ 2 ^ 124 }
    requires drift { span.drift ≤ 2 ^ 124 }
    ensures { result ≡ failure_in_units page.now span.elapsed span.drift started truth }
{
    let Some(started) = started else {
        return Some(PageWhy::Untold);
    };
    let Some(truth) = truth else {
        return Some(PageWhy::Untold);
    };
    if !page_keeps(page, started) {
        return Some(PageWhy::Page);
    }
    if !rate_keeps(span, started, truth) {
        return Some(PageWhy::Rate);
    }
    None
}

/// The first test that a read fails, where the page tells it a time. True times are nanoseconds since 1970, at the
/// page's counter value and at the reading.
#[tactic(auto, using(crate::proofs::Kept::failure_scaled), unfolding(crate::specs::Premises::failure_of))]
pub fn failure(
    page: &Page,
    started: Option<u64>,
    counter: u64,
    truth: Option<u64>,
) -> Option<PageWhy>
    ensures { result ≡ failure_of (record { page = page.now; started = started; counter = counter; truth = truth }) }
{
    match measure(page, counter) {
        Ok(span) => failure_of_span(page, span, started, truth),
        Err(_) => None,
    }
}
