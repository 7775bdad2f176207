//! Lines of one kind, found at the head of a text.
ghost use Rattle.std.specs.Prelude.{◌≡◌, ◌<◌, ◌+◌, ◌^◌, IfOk, option_map};
ghost use Rattle.clock_gate.specs.declared.trace.Trace.{Trace};
ghost use Rattle.report_audit.specs.KnownPages.{KnowsPages};
ghost use Rattle.report_audit.specs.FoundLines.{SkipFound};

use crate::pages::{Pages, page_after};
use crate::reading::six_numbers;
use clock_gate::Memory;
use lawful_report::{Printed, after_line};

/// The line of a poll that was skipped, where page `page` was seen before: the page that it tells, and what follows it.
pub fn skip_at<'a>(
    pages: Pages,
    poll: u32,
    page: u32,
    text: &'a [u8],
) -> Result<Option<(u32, &'a [u8])>, Memory>
    requires most { pages.most < 2 ^ 31 }
    requires page { page < 2 ^ 31 }
    ensures { IfOk result (λ found. (trace : Trace) → KnowsPages trace pages → SkipFound trace poll page text.now found) }
{
    let numbers = six_numbers(text);
    let Ok(first) = u32::try_from(numbers[1]) else {
        return Ok(None);
    };
    let Ok(last) = u32::try_from(numbers[2]) else {
        return Ok(None);
    };
    let Some(seen) = page_after(pages, page, first, last) else {
        return Ok(None);
    };
    match after_line(text, &Printed::Skipped { poll, first, last }) {
        Some(later) => Ok(Some((seen, later))),
        None => Ok(None),
    }
}
