//! An answer with an interval, at the head of a text.
ghost use Rattle.std.specs.Prelude.{◌≡◌, ◌≤◌, ◌<◌, ◌+◌, ◌*◌, ◌/◌, ◌-◌, ◌%◌, ◌^◌, IfOk, slice_get, nat_lt, if◌then◌else◌, None};
ghost use Rattle.std.specs.Option.{option_copied};
ghost use Rattle.clock_gate.specs.declared.limits.TheConstants.{LAST_MOMENT};
ghost use Rattle.clock_gate.specs.declared.trace.Trace.{Trace};
ghost use Rattle.generation_word.specs.Layout.{period_of};
ghost use Rattle.lawful_report.specs.Points.{HasNumber};
ghost use Rattle.lawful_report.specs.Course.{Course};
ghost use Rattle.report_audit.specs.FoundLines.{KnowsTime, TimeFitsOrNot, KnowsRun, LeastTime};

use crate::points::least_point;
use clock_gate::{Memory, Reading};
use interval_now::{Answer, Interval, Timed, interval};
use lawful_report::{Entry, Printed, after_line};

/// The place in a report of an answer Time: its client and call, and what it names.
#[derive(Clone, Copy, Debug, PartialEq, Eq)]
pub struct TimePlace {
    pub client: u32,
    pub call: u32,
    pub generation: u32,
    pub page: u32,
}

/// The entry at a position, where the entries begin after the position `before`.
pub fn entry_at(entries: &[Entry], before: u64, position: u64) -> Option<Entry>
    ensures { result ≡ (if nat_lt before position then slice_get entries.now (position - before - 1) else None) }
{
    if position <= before {
        return None;
    }
    entries.get((position - before - 1) as usize).copied()
}

/// Whether the answer with this place, for the record at this point, begins the text: its interval, and what follows it.
pub fn time_at<'a>(
    entries: &[Entry],
    before: u64,
    place: TimePlace,
    reading: Reading,
    marker: Option<u64>,
    text: &'a [u8],
    point: u64,
) -> Result<Option<(Interval, &'a [u8])>, Memory>
    requires mono { reading.mono ≤ LAST_MOMENT }
    requires real { reading.real ≤ LAST_MOMENT }
    ensures { IfOk result (λ found. (trace : Trace) (course : Course) → KnowsTime trace course entries.now before reading.row place.page reading.mono reading.real marker → point % 2 ≡ 0 → HasNumber (period_of trace.layout) place.generation point → TimeFitsOrNot trace course place.client place.call place.generation reading.row place.page text.now point found) }
{
    let Some(entry) = entry_at(entries, before, point / 2) else {
        return Ok(None);
    };
    if reading.row < entry.replied {
        return Ok(None);
    }
    if place.page < entry.page {
        return Ok(None);
    }
    let Ok(interval) = interval(&entry.rec, reading, marker) else {
        return Ok(None);
    };
    let timed = Timed {
        generation: place.generation,
        row: reading.row,
        sequence: 0,
        interval,
    };
    let line = Printed::Answered {
        client: place.client,
        call: place.call,
        page: place.page,
        answer: Answer::Time(timed),
    };
    match after_line(text, &line) {
        Some(later) => Ok(Some((interval, later))),
        None => Ok(None),
    }
}

/// The least point from `from` to `until` whose record gives the answer with this place that begins the text; `None` exactly
/// where there is none. It looks at one point in each period.
pub fn time_point<'a>(
    period: u64,
    entries: &[Entry],
    before: u64,
    place: TimePlace,
    reading: Reading,
    marker: Option<u64>,
    from: u64,
    until: u64,
    text: &'a [u8],
) -> Result<Option<(u64, (Interval, &'a [u8]))>, Memory>
    requires some { 0 < period }
    requires most { period < 2 ^ 32 }
    requires mono { reading.mono ≤ LAST_MOMENT }
    requires real { reading.real ≤ LAST_MOMENT }
    requires from { from < 2 ^ 40 }
    requires until { until < 2 ^ 39 }
    ensures { IfOk result (λ found. (trace : Trace) (course : Course) → KnowsRun trace course entries.now before reading.row place.page reading.mono reading.real marker period → LeastTime trace course place.client place.call place.generation reading.row place.page from until text.now found) }
{
    if place.generation % 2 == 1 {
        return Ok(None);
    }
    let mut cursor = from;
    'rounds: loop {
        let next = least_point(period, u64::from(place.generation), cursor, until);
        let Some(point) = next else {
            return Ok(None);
        };
        let found = time_at(entries, before, place, reading, marker, text, point)?;
        match found {
            Some(found) => return Ok(Some((point, found))),
            None => cursor = point + 1,
        }
    }
}
