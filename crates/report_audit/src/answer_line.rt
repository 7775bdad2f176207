//! Any answer at the head of a text.
ghost use Rattle.std.specs.Prelude.{◌≡◌, ◌≤◌, ◌<◌, ◌^◌, length, All, IfOk};
ghost use Rattle.clock_gate.specs.ClockRow.{IsClock};
ghost use Rattle.clock_gate.specs.declared.limits.TheConstants.{MOST_HOST_ROWS};
ghost use Rattle.lawful_report.specs.Course.{Course};
ghost use Rattle.report_audit.specs.Auditor.{KnowsTrace, ShowsCourse, EntryFits};
ghost use Rattle.report_audit.specs.FoundLines.{AnswerFound, IsAnyAnswer};

use crate::early_answer::early_answer;
use crate::failed_answers::{busy_answer, nothing_answer, page_busy_answer};
use crate::known::Known;
use crate::progress::Progress;
use crate::reading::five_numbers;
use crate::time_answer::time_answer;
use clock_gate::{Memory, Trace};
use interval_now::Answer;
use lawful_report::{Call, Seen};

/// The answer to a call that begins the text, where its client has seen this: what the client has seen then, the answer, and what
/// follows its line. `None` exactly where none that may stand begins it.
pub fn answer_at<'a>(
    trace: &Trace,
    known: &Known,
    progress: &Progress,
    call: Call,
    seen: Seen,
    text: &'a [u8],
) -> Result<Option<(Seen, Answer, &'a [u8])>, Memory>
    requires clock { IsClock trace.now.clock }
    requires rows { length trace.now.clock ≤ MOST_HOST_ROWS }
    requires knows { KnowsTrace trace.now known.now }
    requires row { 1 ≤ seen.row }
    requires page { seen.page < 2 ^ 31 }
    requires from { seen.point < 2 ^ 40 }
    requires before { progress.now.before < 2 ^ 40 }
    requires until { progress.now.point < 2 ^ 39 }
    requires entries { All EntryFits progress.now.entries.items }
    ensures { IfOk result (λ found. (course : Course) → ShowsCourse course progress.now → AnswerFound trace.now course call seen text.now IsAnyAnswer found) }
{
    match nothing_answer(call, seen, text) {
        Err(Memory) => return Err(Memory),
        Ok(Some(found)) => return Ok(Some(found)),
        Ok(None) => {}
    }
    let numbers = five_numbers(text);
    match time_answer(trace, known, progress, call, seen, numbers, text) {
        Err(Memory) => return Err(Memory),
        Ok(Some(found)) => return Ok(Some(found)),
        Ok(None) => {}
    }
    match busy_answer(trace, progress.point, call, seen, numbers, text) {
        Err(Memory) => return Err(Memory),
        Ok(Some(found)) => return Ok(Some(found)),
        Ok(None) => {}
    }
    match page_busy_answer(known.pages, call, seen, numbers, text) {
        Err(Memory) => return Err(Memory),
        Ok(Some(found)) => return Ok(Some(found)),
        Ok(None) => {}
    }
    // The last of the kinds: a search that finds nothing is then the end of the audit.
    early_answer(trace, progress, call, seen, numbers, text)
}
