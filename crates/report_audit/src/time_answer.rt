//! The answer of a client with an interval, at the head of a text.
ghost use Rattle.std.specs.Prelude.{◌≡◌, ◌↔◌, ◌≤◌, ◌<◌, ◌^◌, length, IfOk, IsTrue};
ghost use Rattle.clock_gate.specs.ClockRow.{IsClock};
ghost use Rattle.clock_gate.specs.declared.limits.TheConstants.{MOST_HOST_ROWS};
ghost use Rattle.lawful_report.specs.Course.{Course};
ghost use Rattle.report_audit.specs.Auditor.{KnowsTrace, ShowsCourse};
ghost use Rattle.report_audit.specs.FoundLines.{AnswerFound, IsTimeAnswer, LeastTime, PlaceFits};
ghost use Rattle.report_audit.specs.Numbers.{numbers_in};

use crate::known::Known;
use crate::progress::Progress;
use crate::reading::three_of;
use crate::time_line::{TimePlace, time_point};
use clock_gate::{Memory, Trace, reading};
use interval_now::{Answer, Interval, Timed};
use lawful_report::{Call, Seen};

// Whether a client that has seen this may name these: the generation of a record, a row of so many and a page up to the last.
fn place_fits(seen: Seen, rows: usize, last: u32, generation: u32, row: u32, page: u32) -> bool
    ensures { IsTrue result ↔ PlaceFits seen rows last generation row page }
{
    if generation == 0 {
        return false;
    }
    if row < seen.row {
        return false;
    }
    if rows < row as usize {
        return false;
    }
    if page < seen.page {
        return false;
    }
    page <= last
}

// The least point from this one on whose record gives the interval that begins the text, by a reading of this row.
fn time_after<'a>(
    trace: &Trace,
    known: &Known,
    progress: &Progress,
    place: TimePlace,
    row: u32,
    from: u64,
    text: &'a [u8],
) -> Result<Option<(u64, (Interval, &'a [u8]))>, Memory>
    requires clock { IsClock trace.now.clock }
    requires rows { length trace.now.clock ≤ MOST_HOST_ROWS }
    requires knows { KnowsTrace trace.now known.now }
    requires first { 1 ≤ row }
    requires last { row ≤ length trace.now.clock }
    requires from { from < 2 ^ 40 }
    requires until { progress.now.point < 2 ^ 39 }
    ensures { IfOk result (λ found. (course : Course) → ShowsCourse course progress.now → LeastTime trace.now course place.client place.call place.generation row place.page from progress.now.point text.now found) }
{
    let clock = trace.clock.as_slice();
    time_point(
        trace.layout.period(),
        progress.entries.as_slice(),
        progress.before,
        place,
        reading(clock, u64::from(row)),
        known.markers.get(place.page as usize).copied(),
        from,
        progress.point,
        text,
    )
}

/// The answer with an interval: it stands for the least point whose record gives it.
pub fn time_answer<'a>(
    trace: &Trace,
    known: &Known,
    progress: &Progress,
    call: Call,
    seen: Seen,
    numbers: [u64; 5],
    text: &'a [u8],
) -> Result<Option<(Seen, Answer, &'a [u8])>, Memory>
    requires numbers { numbers ≡ numbers_in 5 text.now }
    requires clock { IsClock trace.now.clock }
    requires rows { length trace.now.clock ≤ MOST_HOST_ROWS }
    requires knows { KnowsTrace trace.now known.now }
    requires row { 1 ≤ seen.row }
    requires from { seen.point < 2 ^ 40 }
    requires until { progress.now.point < 2 ^ 39 }
    ensures { IfOk result (λ found. (course : Course) → ShowsCourse course progress.now → AnswerFound trace.now course call seen text.now IsTimeAnswer found) }
{
    let Some((generation, row, page)) = three_of(numbers[2], numbers[3], numbers[4]) else {
        return Ok(None);
    };
    let clock = trace.clock.as_slice();
    if !place_fits(seen, clock.len(), known.pages.most, generation, row, page) {
        return Ok(None);
    }
    let place = TimePlace {
        client: call.client,
        call: call.number,
        generation,
        page,
    };
    let found = time_after(trace, known, progress, place, row, seen.point, text)?;
    match found {
        Some((point, (interval, later))) => {
            let sequence = 0;
            let timed = Timed {
                generation,
                row,
                sequence,
                interval,
            };
            Ok(Some((Seen { point, row, page }, Answer::Time(timed), later)))
        }
        None => Ok(None),
    }
}
