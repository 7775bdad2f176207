//! What an opening finds.
ghost use Rattle.std.specs.Prelude.{◌≡◌, ◌==◌, ◌&&◌, pos, false, None, slice_index};
ghost use Rattle.clock_gate.specs.declared.clock_status.ClockStatus.TheVariants.{Unknown};
ghost use Rattle.segment_layout.specs.History.{start_seen};
ghost use Rattle.segment_layout.specs.Image.{is_old_header};
ghost use Rattle.lawful_report.specs.Course.{Course, entry_or_none, last_entry, keeps};
ghost use Rattle.lawful_report.specs.Points.{segment_at};
ghost use Rattle.report_audit.specs.Auditor.{ShowsCourse};

use crate::progress::Progress;
use crate::time_line::entry_at;
use clock_gate::{ClockStatus, Stamp, Trace};
use generation_word::{Layout, generation, odd_of, split_word1};
use lawful_report::Entry;
use segment_layout::{Record, Start};

fn zero_stamp() -> Stamp
    ensures { result ≡ pos 0 }
{
    Stamp::from_nanos(0).unwrap()
}

// What stands where nothing was published.
fn no_record() -> Record
    ensures { result ≡ record { as_of = pos 0; void_after = pos 0; bound = pos 0; marker = 0; drift = 0; status = Unknown; support = false } }
{
    Record::new(
        zero_stamp(),
        zero_stamp(),
        0,
        0,
        0,
        ClockStatus::Unknown,
        false,
    )
    .unwrap()
}

fn no_entry() -> Entry
    ensures { result ≡ entry_or_none None }
{
    Entry {
        rec: no_record(),
        replied: 1,
        page: 0,
        base: 0,
    }
}

/// The entry at the present position; where there is none, one that says nothing.
pub fn last_entry(progress: &Progress) -> Entry
    ensures { (course : Course) → ShowsCourse course progress.now → result ≡ last_entry course }
{
    let entries = progress.entries.as_slice();
    match entry_at(entries, progress.before, progress.point / 2) {
        Some(entry) => entry,
        None => no_entry(),
    }
}

/// What an opening finds at this point, where this is the entry there.
pub fn start_at(layout: Layout, point: u64, last: &Entry) -> Start
    ensures { result ≡ start_seen layout (segment_at point) last.now.rec }
{
    let position = point / 2;
    if point % 2 == 1 {
        return Start::Torn(odd_of(layout, position));
    }
    if position == 0 {
        return Start::Fresh;
    }
    Start::Kept(generation(layout, position), last.rec)
}

/// Whether an opening that finds this moves the segment: the first one, where it finds a record under an old header.
pub fn moves(trace: &Trace, polled: u32, start: &Start) -> bool
    ensures { result ≡ ((polled == 0) && (is_old_header trace.now.layout (slice_index trace.now.image 1) && keeps start.now)) }
{
    if polled != 0 {
        return false;
    }
    match trace.layout {
        Layout::Two => return false,
        Layout::Three => {}
    }
    if split_word1(trace.image[1]).1 != 2 {
        return false;
    }
    match start {
        Start::Kept(_, _) => true,
        Start::Fresh | Start::Torn(_) => false,
    }
}
