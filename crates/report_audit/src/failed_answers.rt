//! The answers of a client that read no record, or no page, at the head of a text.
ghost use Rattle.std.specs.Prelude.{◌≡◌, ◌<◌, ◌^◌, IfOk};
ghost use Rattle.clock_gate.specs.declared.trace.Trace.{Trace};
ghost use Rattle.lawful_report.specs.Course.{Course};
ghost use Rattle.report_audit.specs.FoundLines.{AnswerFound, IsBusyAnswer, IsNothingAnswer, IsPageBusyAnswer};
ghost use Rattle.report_audit.specs.KnownPages.{KnowsPages};
ghost use Rattle.report_audit.specs.Numbers.{numbers_in};

use crate::answer_head::after_answer;
use crate::pages::{Pages, page_after};
use crate::points::busy_point;
use clock_gate::{Memory, Trace};
use interval_now::Answer;
use lawful_report::{Call, Seen};

// What a client has seen that comes to this point.
fn seen_at(seen: Seen, point: u64) -> Seen
    ensures { result ≡ record seen { point = point } }
{
    Seen {
        point,
        row: seen.row,
        page: seen.page,
    }
}

// What a client has seen that comes to this page.
fn seen_on(seen: Seen, page: u32) -> Seen
    ensures { result ≡ record seen { page = page } }
{
    Seen {
        point: seen.point,
        row: seen.row,
        page,
    }
}

/// The answer that nothing was published: it may stand where the client had come to no point.
pub fn nothing_answer<'a>(
    call: Call,
    seen: Seen,
    text: &'a [u8],
) -> Result<Option<(Seen, Answer, &'a [u8])>, Memory>
    ensures { IfOk result (λ found. (trace : Trace) (course : Course) → AnswerFound trace course call seen text.now IsNothingAnswer found) }
{
    if seen.point != 0 {
        return Ok(None);
    }
    match after_answer(text, call, 0, Answer::NotInitialized) {
        Some(later) => Ok(Some((seen, Answer::NotInitialized, later))),
        None => Ok(None),
    }
}

/// The answer of a client whose tries of the segment all failed, where the run comes to the point `until`: the point at which the last
/// one failed is the least that shows its numbers.
pub fn busy_answer<'a>(
    trace: &Trace,
    until: u64,
    call: Call,
    seen: Seen,
    numbers: [u64; 5],
    text: &'a [u8],
) -> Result<Option<(Seen, Answer, &'a [u8])>, Memory>
    requires numbers { numbers ≡ numbers_in 5 text.now }
    requires from { seen.point < 2 ^ 40 }
    requires until { until < 2 ^ 40 }
    ensures { IfOk result (λ found. (course : Course) → course.point ≡ until → AnswerFound trace.now course call seen text.now IsBusyAnswer found) }
{
    let Ok(first) = u32::try_from(numbers[3]) else {
        return Ok(None);
    };
    let Ok(last) = u32::try_from(numbers[4]) else {
        return Ok(None);
    };
    let period = trace.layout.period();
    let Some(point) = busy_point(period, u64::from(first), u64::from(last), seen.point, until)
    else {
        return Ok(None);
    };
    let tries = call.tries;
    match after_answer(text, call, 0, Answer::Busy { tries, first, last }) {
        Some(later) => Ok(Some((
            seen_at(seen, point),
            Answer::Busy { tries, first, last },
            later,
        ))),
        None => Ok(None),
    }
}

/// The answer of a client whose tries of the page all failed: it has seen the page that their last count tells.
pub fn page_busy_answer<'a>(
    pages: Pages,
    call: Call,
    seen: Seen,
    numbers: [u64; 5],
    text: &'a [u8],
) -> Result<Option<(Seen, Answer, &'a [u8])>, Memory>
    requires numbers { numbers ≡ numbers_in 5 text.now }
    requires most { pages.most < 2 ^ 31 }
    requires page { seen.page < 2 ^ 31 }
    ensures { IfOk result (λ found. (trace : Trace) (course : Course) → KnowsPages trace pages → AnswerFound trace course call seen text.now IsPageBusyAnswer found) }
{
    let Ok(first) = u32::try_from(numbers[2]) else {
        return Ok(None);
    };
    let Ok(last) = u32::try_from(numbers[3]) else {
        return Ok(None);
    };
    let Some(page) = page_after(pages, seen.page, first, last) else {
        return Ok(None);
    };
    match after_answer(text, call, 0, Answer::PageBusy { first, last }) {
        Some(later) => Ok(Some((seen_on(seen, page), Answer::PageBusy { first, last }, later))),
        None => Ok(None),
    }
}
