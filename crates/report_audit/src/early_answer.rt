//! The answer of a client whose clock came before its record, at the head of a text.
ghost use Rattle.std.specs.Prelude.{◌≡◌, ◌↔◌, ℕ, ◌≤◌, ◌<◌, ◌^◌, ◌+◌, length, pos, All, IfOk, IfSome, IfNone, IsTrue};
ghost use Rattle.clock_gate.specs.ClockRow.{IsClock};
ghost use Rattle.clock_gate.specs.declared.limits.TheConstants.{MOST_HOST_ROWS};
ghost use Rattle.lawful_report.specs.Course.{Course};
ghost use Rattle.report_audit.specs.Auditor.{ShowsCourse, EntryFits};
ghost use Rattle.report_audit.specs.FoundLines.{AnswerFound, IsEarlyAnswer, AsOfFound, HasMonoAt};
ghost use Rattle.report_audit.specs.Numbers.{numbers_in};
ghost use Rattle.report_audit.specs.Leasts.{IsLeastOrNone};

use crate::answer_head::after_answer;
use crate::progress::Progress;
use crate::time_line::entry_at;
use clock_gate::{ClockRow, Memory, Stamp, Trace};
use interval_now::{Answer, Causality};
use lawful_report::{Call, Entry, Seen};

fn has_as_of(entry: &Entry, as_of: u64) -> bool
    ensures { IsTrue result ↔ (entry.now.rec.as_of ≡ pos as_of) }
{
    entry.rec.as_of().nanos() == i128::from(as_of)
}

// The later of two rows.
fn later_of(a: u32, b: u32) -> u32
    ensures first { a ≤ result }
    ensures second { b ≤ result }
    ensures least { (n : ℕ) → a ≤ n → b ≤ n → result ≤ n }
{
    a.max(b)
}

// The least even point from `from` to `until` whose record has this as-of, with the row of its reply; `None` exactly where there is
// none. The points of a client rise, so all its searches together look at each record once.
fn as_of_point(
    entries: &[Entry],
    before: u64,
    as_of: u64,
    from: u64,
    until: u64,
) -> Option<(u64, u32)>
    requires from { from < 2 ^ 40 }
    requires before { before < 2 ^ 40 }
    requires until { until < 2 ^ 40 }
    ensures { (course : Course) → course.entries ≡ entries.now → course.before ≡ before → AsOfFound course as_of from until result }
{
    let mut position = from.div_ceil(2).max(before + 1);
    'positions: loop {
        if until < 2 * position {
            return None;
        }
        let Some(entry) = entry_at(entries, before, position) else {
            return None;
        };
        if has_as_of(&entry, as_of) {
            return Some((2 * position, entry.replied));
        }
        position += 1;
    }
}

// The least row from this one on that has this mono; `None` exactly where there is none.
fn mono_row(clock: &[ClockRow], mono: u64, from: u32) -> Option<u32>
    requires first { 1 ≤ from }
    requires rows { length clock.now ≤ MOST_HOST_ROWS }
    ensures { IsLeastOrNone from (length clock.now) (HasMonoAt clock.now mono) result }
{
    let mut row = from;
    'rows: loop {
        if clock.len() < row as usize {
            return None;
        }
        if clock[row as usize - 1].mono == mono {
            return Some(row);
        }
        row += 1;
    }
}

// This as-of, where a reading at this mono lies before it; `None` exactly where it doesn't.
fn as_of_after(as_of: u64, mono: u64) -> Option<Stamp>
    ensures found { IfSome result (λ stamp. (mono + 1000 < as_of) × (stamp ≡ pos as_of)) }
    ensures late { IfNone result (as_of ≤ mono + 1000) }
{
    if as_of <= mono.saturating_add(1000) {
        return None;
    }
    Some(Stamp::from_nanos(i128::from(as_of)).unwrap())
}

/// The answer that the reading lies before the record: it stands for the least point with that as-of, and then for the least row with
/// that mono.
pub fn early_answer<'a>(
    trace: &Trace,
    progress: &Progress,
    call: Call,
    seen: Seen,
    numbers: [u64; 5],
    text: &'a [u8],
) -> Result<Option<(Seen, Answer, &'a [u8])>, Memory>
    requires numbers { numbers ≡ numbers_in 5 text.now }
    requires clock { IsClock trace.now.clock }
    requires rows { length trace.now.clock ≤ MOST_HOST_ROWS }
    requires row { 1 ≤ seen.row }
    requires from { seen.point < 2 ^ 40 }
    requires before { progress.now.before < 2 ^ 40 }
    requires until { progress.now.point < 2 ^ 40 }
    requires entries { All EntryFits progress.now.entries.items }
    ensures { IfOk result (λ found. (course : Course) → ShowsCourse course progress.now → AnswerFound trace.now course call seen text.now IsEarlyAnswer found) }
{
    let (nanos, mono) = (numbers[2], numbers[3]);
    let Some(as_of) = as_of_after(nanos, mono) else {
        return Ok(None);
    };
    let entries = progress.entries.as_slice();
    let found = as_of_point(entries, progress.before, nanos, seen.point, progress.point);
    let Some((point, replied)) = found else {
        return Ok(None);
    };
    let Some(row) = mono_row(trace.clock.as_slice(), mono, later_of(seen.row, replied)) else {
        return Ok(None);
    };
    let answer = Answer::Causality(Causality { as_of, mono });
    match after_answer(text, call, 0, answer) {
        Some(later) => {
            let page = seen.page;
            let answer = Answer::Causality(Causality { as_of, mono });
            Ok(Some((Seen { point, row, page }, answer, later)))
        }
        None => Ok(None),
    }
}
