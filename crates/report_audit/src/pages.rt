//! Pages by the sequence counts of tries that failed.
ghost use Rattle.std.specs.Prelude.{◌≡◌, ◌↔◌, IsTrue, ◌<◌, ◌+◌, ◌-◌, ◌^◌, ◌%◌};
ghost use Rattle.clock_gate.specs.declared.trace.Trace.{Trace};
ghost use Rattle.lawful_report.specs.Pages.{FailsBetween};
ghost use Rattle.report_audit.specs.KnownPages.{PageSeenOrNone, KnowsPages};

// How often a sequence count has changed since the start page's.
fn changes_of(start: u32, count: u32) -> u32
    ensures { result ≡ (count + 2 ^ 32 - start) % 2 ^ 32 }
{
    count.wrapping_sub(start)
}

// Whether a try that found these fails.
fn fails_between(first: u32, last: u32) -> bool
    ensures { IsTrue result ↔ FailsBetween first last }
{
    if first % 2 == 1 {
        return last == first;
    }
    first < last
}

/// What an auditor knows of the pages of a trace.
#[derive(Clone, Copy, Debug, PartialEq, Eq)]
pub struct Pages {
    /// Whether there are any.
    pub has_page: bool,
    /// The start page's sequence count, or 0.
    pub start: u32,
    /// The number of the last page.
    pub most: u32,
}

/// The page that failing tries of the page tell by their last two sequence counts, where page `page` was seen before.
pub fn page_after(pages: Pages, page: u32, first: u32, last: u32) -> Option<u32>
    requires most { pages.most < 2 ^ 31 }
    requires page { page < 2 ^ 31 }
    ensures { (trace : Trace) → KnowsPages trace pages → PageSeenOrNone trace page first last result }
{
    if !pages.has_page {
        return None;
    }
    let (first, last) = (
        changes_of(pages.start, first),
        changes_of(pages.start, last),
    );
    if first < 2 * page {
        return None;
    }
    if 2 * pages.most < first {
        return None;
    }
    if 2 * pages.most < last {
        return None;
    }
    if !fails_between(first, last) {
        return None;
    }
    Some(last / 2)
}
