//! The line of a publication, at the head of a text.
ghost use Rattle.std.specs.Prelude.{◌≡◌, ◌↔◌, ◌≤◌, ◌<◌, ◌^◌, length, IfOk, IsTrue};
ghost use Rattle.clock_gate.specs.ClockRow.{IsClock};
ghost use Rattle.clock_gate.specs.declared.limits.TheConstants.{MOST_HOST_ROWS};
ghost use Rattle.clock_gate.specs.declared.trace.PollRow.{PollRow};
ghost use Rattle.lawful_report.specs.Course.{Course, Life};
ghost use Rattle.lawful_report.specs.declared.printed.Printed.TheVariants.{Published};
ghost use Rattle.status_machine.specs.Poll.{heard_of};
ghost use Rattle.status_machine.specs.Step.{ShowsPast};
ghost use Rattle.report_audit.specs.Auditor.{KnowsTrace, ShowsCourse, CanStep};
ghost use Rattle.report_audit.specs.FoundLines.{PublicationFound, RowsFit};

use crate::known::Known;
use crate::poll_line::poll_at;
use crate::progress::Progress;
use crate::reading::three_at;
use clock_gate::{Memory, Trace};
use generation_word::generation;
use lawful_report::{Entry, Printed, after_line};
use segment_layout::Publication;
use status_machine::{Daemon, Heard};

// Whether a poll may name these after the row and the page that the daemon saw last: two rows of so many, and a page up to the last.
fn rows_fit(
    progress: &Progress,
    rows: usize,
    last: u32,
    asked: u32,
    page: u32,
    replied: u32,
) -> bool
    ensures { IsTrue result ↔ RowsFit progress.now.row progress.now.page rows last asked page replied }
{
    if asked < progress.row {
        return false;
    }
    if replied < asked {
        return false;
    }
    if rows < replied as usize {
        return false;
    }
    if page < progress.page {
        return false;
    }
    page <= last
}

fn entry_told(publication: &Publication, page: u32) -> Entry
    ensures { result ≡ record { rec = publication.now.rec; replied = publication.now.replied; page = page; base = publication.now.base } }
{
    Entry {
        rec: publication.rec,
        replied: publication.replied,
        page,
        base: publication.base,
    }
}

fn line_told(position: u64, page: u32, publication: Publication) -> Printed
    ensures { result ≡ Published position page publication }
{
    Printed::Published {
        position,
        page,
        publication,
    }
}

/// The publication of the poll that is next, by this daemon and this reply: the entry that it gives, the daemon after it, and what
/// follows its line. `None` exactly where no publication of this poll begins the text.
pub fn publication_at<'a>(
    trace: &Trace,
    known: &Known,
    progress: &Progress,
    daemon: Daemon,
    heard: Heard,
    text: &'a [u8],
) -> Result<Option<(Entry, Daemon, &'a [u8])>, Memory>
    requires clock { IsClock trace.now.clock }
    requires rows { length trace.now.clock ≤ MOST_HOST_ROWS }
    requires knows { KnowsTrace trace.now known.now }
    requires polled { progress.now.polled ≤ 100000 }
    requires point { progress.now.point < 2 ^ 34 }
    requires row { 1 ≤ progress.now.row }
    requires steps { CanStep trace.now daemon }
    ensures { IfOk result (λ found. (course : Course) (life : Life) (row : PollRow) → ShowsCourse course progress.now → ShowsPast life.from life.past daemon → heard_of row.reply ≡ heard → PublicationFound trace.now course life row text.now found) }
{
    let Some((asked, page, replied)) = three_at(text, 3) else {
        return Ok(None);
    };
    let clock = trace.clock.as_slice();
    let rows = clock.len();
    if !rows_fit(progress, rows, known.pages.most, asked, page, replied) {
        return Ok(None);
    }
    let poll = progress.polled + 1;
    let position = progress.point / 2 + 1;
    let mut daemon = daemon;
    let marker = known.markers.get(page as usize).copied();
    let (rec, base) = poll_at(clock, &mut daemon, poll, asked, marker, heard);
    let publication = Publication {
        poll,
        generation: generation(trace.layout, position),
        asked,
        sequence: 0,
        replied,
        base,
        rec,
    };
    let entry = entry_told(&publication, page);
    let line = line_told(position, page, publication);
    match after_line(text, &line) {
        Some(later) => Ok(Some((entry, daemon, later))),
        None => Ok(None),
    }
}
