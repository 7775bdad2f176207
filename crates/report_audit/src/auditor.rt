//! The state of an audit: what the lines so far have come to, and which line stands next.
ghost use Rattle.std.specs.Prelude.{◌≡◌, ℕ, ◌≤◌, ◌<◌, ◌^◌, ◌==◌, if◌then◌else◌, [], ◌∷◌, drop, slice_get, Some, IfOk, OnOk, IsTrue, ◌↔◌};
ghost use Rattle.clock_gate.specs.Trace.{IsLawfulTrace};
ghost use Rattle.clock_gate.specs.declared.trace.PollRow.{PollRow as PolledRow};
ghost use Rattle.clock_gate.specs.declared.trace.Trace.{Trace as Traced};
ghost use Rattle.status_machine.specs.declared.poll.Poll.{Poll as Polled};
ghost use Rattle.status_machine.specs.Step.{ShowsPast};
ghost use Rattle.lawful_report.specs.declared.counts.Counts.{Counts as Counted};
ghost use Rattle.lawful_report.specs.declared.seen.Seen.{Seen as Sights};
ghost use Rattle.lawful_report.specs.Course.{Course, Life, entry_of, point_stopped, published};
ghost use Rattle.lawful_report.specs.Lawful.{Standing, standing_start, due_next, one_time, one_answer, one_publication, has_stop, DoesNotStop, Heading, Opening, Moving, Polling, Stopping, Answering};
ghost use Rattle.report_audit.specs.Auditor.{KnowsTrace, ShowsCourse, KeepsSizes, CountsFit, SeenFits, DueFits, StartIsSmall};
ghost use Rattle.report_audit.specs.NextLine.{Holds, ShowsDue, ShowsStanding, NextFound, NoSkip, at, published_by};
ghost use Rattle.report_audit.specs.declared.due.Due.TheVariants as dues;
ghost use Rattle.report_audit.specs.declared.known.Known.{Known as Knows};

use crate::answer_line::answer_at;
use crate::beginning::progress_of;
use crate::due::Due;
use crate::found_lines::skip_at;
use crate::known::Known;
use crate::opening::{last_entry, moves, start_at};
use crate::progress::{Progress, push_entry};
use crate::publication_line::publication_at;
use clock_gate::{ClockStatus, MOST_STORES, Memory, PollRow, Trace};
use generation_word::generation;
use interval_now::Answer;
use lawful_report::{Call, Counts, Entry, Printed, Seen, after_line};
use status_machine::{Daemon, hear};
use std::alloc::Global;

/// What the lines so far have come to, and which line stands next.
#[derive(Debug, Drop)]
pub struct Auditor {
    pub progress: Progress,
    pub counts: Counts,
    pub due: Due,
}

// What stands next where no line of an opening or of a stop does.
fn due_next(trace: &Trace, known: &Known, progress: &Progress) -> Due
    requires knows { KnowsTrace trace.now known.now }
    ensures { (course : Course) → ShowsCourse course progress.now → ShowsDue known.now (due_next trace.now course) result }
{
    if trace.polls.len() <= progress.polled as usize {
        return Due::Answering {
            seen: known.first,
            place: 0,
        };
    }
    match progress.life {
        None => Due::Opening,
        Some(_) => Due::Polling,
    }
}

fn due_opened(moves: bool) -> Due
    ensures { result ≡ (if moves then dues.Moving else dues.Polling) }
{
    if moves { Due::Moving } else { Due::Polling }
}

// The point after so many stores of a publication that doesn't end.
fn point_stopped(point: u64, stores: u8) -> u64
    requires { point < 2 ^ 40 }
    ensures { result ≡ point_stopped point stores }
{
    if stores == 0 {
        return point;
    }
    2 * (point / 2) + 1
}

// A client begins with its first call.
fn seen_before(first: Seen, seen: Seen, call: Call) -> Seen
    ensures { result ≡ (if call.number == 1 then first else seen) }
{
    if call.number == 1 { first } else { seen }
}

fn counted_time(counts: Counts, status: ClockStatus) -> Counts
    requires { CountsFit counts }
    ensures { result ≡ one_time status counts }
{
    let answers = counts.answers + 1;
    let times = counts.times + 1;
    match status {
        ClockStatus::Unknown => Counts {
            publications: counts.publications,
            answers,
            times,
            unknown: counts.unknown + 1,
            synchronized: counts.synchronized,
            free_running: counts.free_running,
            disrupted: counts.disrupted,
        },
        ClockStatus::Synchronized => Counts {
            publications: counts.publications,
            answers,
            times,
            unknown: counts.unknown,
            synchronized: counts.synchronized + 1,
            free_running: counts.free_running,
            disrupted: counts.disrupted,
        },
        ClockStatus::FreeRunning => Counts {
            publications: counts.publications,
            answers,
            times,
            unknown: counts.unknown,
            synchronized: counts.synchronized,
            free_running: counts.free_running + 1,
            disrupted: counts.disrupted,
        },
        ClockStatus::Disrupted => Counts {
            publications: counts.publications,
            answers,
            times,
            unknown: counts.unknown,
            synchronized: counts.synchronized,
            free_running: counts.free_running,
            disrupted: counts.disrupted + 1,
        },
    }
}

fn counted(counts: Counts, answer: &Answer) -> Counts
    requires { CountsFit counts }
    ensures { result ≡ one_answer answer.now counts }
{
    match answer {
        Answer::Time(timed) => counted_time(counts, timed.interval.status),
        Answer::Busy { .. }
        | Answer::NotInitialized
        | Answer::PageBusy { .. }
        | Answer::Causality(_) => Counts {
            publications: counts.publications,
            answers: counts.answers + 1,
            times: counts.times,
            unknown: counts.unknown,
            synchronized: counts.synchronized,
            free_running: counts.free_running,
            disrupted: counts.disrupted,
        },
    }
}

impl Auditor {
    fn heading<'a>(
        &mut self,
        trace: &Trace,
        known: &Known,
        text: &'a [u8],
    ) -> Result<Option<&'a [u8]>, Memory>
        requires knows { KnowsTrace trace.now known.now }
        ensures { IfOk result (λ found. (course : Course) (counts : Counted) → Holds course counts self.old → NextFound trace.now known.now (at course counts Heading) text.now found self.new) }
    {
        let Some(later) = after_line(text, &Printed::Header) else {
            return Ok(None);
        };
        self.due = due_next(trace, known, &self.progress);
        Ok(Some(later))
    }

    fn opening<'a>(&mut self, trace: &Trace, text: &'a [u8]) -> Result<Option<&'a [u8]>, Memory>
        requires polled { self.old.progress.polled ≤ 100000 }
        requires drift { trace.now.drift ≤ 1000000000 }
        ensures { IfOk result (λ found. (known : Knows) (course : Course) (counts : Counted) → Holds course counts self.old → NextFound trace.now known (at course counts Opening) text.now found self.new) }
    {
        let last = last_entry(&self.progress);
        let start = start_at(trace.layout, self.progress.point, &last);
        let due = due_opened(moves(trace, self.progress.polled, &start));
        let daemon = Daemon::resume(&start, trace.drift, trace.page.is_some(), last.base);
        let poll = self.progress.polled + 1;
        let Some(later) = after_line(text, &Printed::Opened { poll, start }) else {
            return Ok(None);
        };
        self.progress.life = Some(daemon);
        self.due = due;
        Ok(Some(later))
    }

    fn moving<'a>(&mut self, trace: &Trace, text: &'a [u8]) -> Result<Option<&'a [u8]>, Memory>
        requires polled { self.old.progress.polled ≤ 100000 }
        requires point { self.old.progress.point < 2 ^ 34 }
        ensures { IfOk result (λ found. (known : Knows) (course : Course) (counts : Counted) → Holds course counts self.old → NextFound trace.now known (at course counts Moving) text.now found self.new) }
    {
        let position = self.progress.point / 2 + 1;
        let line = Printed::Moved {
            poll: self.progress.polled + 1,
            position,
            generation: generation(trace.layout, position),
        };
        let Some(later) = after_line(text, &line) else {
            return Ok(None);
        };
        let rec = last_entry(&self.progress).rec;
        let entry = Entry {
            rec,
            replied: 1,
            page: 0,
            base: 0,
        };
        push_entry(&mut self.progress.entries, entry)?;
        self.progress.point = 2 * position;
        self.due = Due::Polling;
        Ok(Some(later))
    }

    // After the poll's last store the daemon stops.
    fn stopping<'a>(
        &mut self,
        trace: &Trace,
        known: &Known,
        text: &'a [u8],
    ) -> Result<Option<&'a [u8]>, Memory>
        requires knows { KnowsTrace trace.now known.now }
        ensures { IfOk result (λ found. (course : Course) (counts : Counted) → Holds course counts self.old → NextFound trace.now known.now (at course counts Stopping) text.now found self.new) }
    {
        let line = Printed::Stopped {
            poll: self.progress.polled,
            stores: MOST_STORES,
        };
        let Some(later) = after_line(text, &line) else {
            return Ok(None);
        };
        self.due = due_next(trace, known, &self.progress);
        Ok(Some(later))
    }

    // The daemon stops before the publication ends.
    fn stopped<'a>(
        &mut self,
        trace: &Trace,
        known: &Known,
        stores: u8,
        text: &'a [u8],
    ) -> Result<Option<&'a [u8]>, Memory>
        requires knows { KnowsTrace trace.now known.now }
        requires few { stores ≤ 9 }
        requires polled { self.old.progress.polled ≤ 100000 }
        requires point { self.old.progress.point < 2 ^ 34 }
        ensures { IfOk result (λ found. (course : Course) (counts : Counted) (row : PolledRow) → Holds course counts self.old → slice_get trace.now.polls self.old.progress.polled ≡ Some row → row.stop ≡ Some stores → NoSkip trace.now course text.now → NextFound trace.now known.now (at course counts Polling) text.now found self.new) }
    {
        let poll = self.progress.polled + 1;
        let Some(later) = after_line(text, &Printed::Stopped { poll, stores }) else {
            return Ok(None);
        };
        self.progress.polled = poll;
        self.progress.point = point_stopped(self.progress.point, stores);
        self.progress.life = None;
        self.due = due_next(trace, known, &self.progress);
        Ok(Some(later))
    }

    // The poll publishes its record, and the daemon goes on or stops then.
    fn publishing<'a>(
        &mut self,
        trace: &Trace,
        known: &Known,
        row: &PollRow,
        stops: bool,
        text: &'a [u8],
    ) -> Result<Option<&'a [u8]>, Memory>
        requires lawful { IsLawfulTrace trace.now }
        requires knows { KnowsTrace trace.now known.now }
        requires sizes { KeepsSizes trace.now self.old.progress }
        requires counts { CountsFit self.old.counts }
        ensures { IfOk result (λ found. (course : Course) (counts : Counted) → Holds course counts self.old → slice_get trace.now.polls self.old.progress.polled ≡ Some row.now → DoesNotStop row.now.stop → has_stop row.now.stop 10 ≡ stops → NoSkip trace.now course text.now → NextFound trace.now known.now (at course counts Polling) text.now found self.new) }
    {
        let life = self.progress.life;
        let Some(daemon) = life else {
            return Ok(None);
        };
        let heard = hear(row.reply.as_slice());
        match publication_at(trace, known, &self.progress, daemon, heard, text) {
            Err(Memory) => Err(Memory),
            Ok(None) => Ok(None),
            Ok(Some((entry, daemon, later))) => {
                self.publish(trace, known, entry, daemon, stops)?;
                Ok(Some(later))
            }
        }
    }

    // Takes the entry of a publication.
    fn publish(
        &mut self,
        trace: &Trace,
        known: &Known,
        entry: Entry,
        daemon: Daemon,
        stops: bool,
    ) -> Result<(), Memory>
        requires knows { KnowsTrace trace.now known.now }
        requires polled { self.old.progress.polled ≤ 100000 }
        requires point { self.old.progress.point < 2 ^ 34 }
        requires counts { CountsFit self.old.counts }
        ensures { OnOk result ((course : Course) (counts : Counted) (life : Life) (poll : Polled) (replied page : ℕ) → Holds course counts self.old → entry ≡ entry_of life poll replied page → ShowsPast life.from (poll ∷ life.past) daemon → ShowsStanding known.now (published_by trace.now (one_publication counts) stops (published course life poll replied page)) self.new) }
    {
        let (replied, page) = (entry.replied, entry.page);
        push_entry(&mut self.progress.entries, entry)?;
        self.progress.polled = self.progress.polled + 1;
        self.progress.point = 2 * (self.progress.point / 2 + 1);
        self.progress.row = replied;
        self.progress.page = page;
        self.counts.publications = self.counts.publications + 1;
        if stops {
            self.progress.life = None;
            self.due = Due::Stopping;
            return Ok(());
        }
        self.progress.life = Some(daemon);
        self.due = due_next(trace, known, &self.progress);
        Ok(())
    }

    // The line of the poll at this row of the trace, where it isn't skipped.
    fn unskipped<'a>(
        &mut self,
        trace: &Trace,
        known: &Known,
        text: &'a [u8],
    ) -> Result<Option<&'a [u8]>, Memory>
        requires lawful { IsLawfulTrace trace.now }
        requires knows { KnowsTrace trace.now known.now }
        requires sizes { KeepsSizes trace.now self.old.progress }
        requires counts { CountsFit self.old.counts }
        ensures { IfOk result (λ found. (course : Course) (counts : Counted) → Holds course counts self.old → NoSkip trace.now course text.now → NextFound trace.now known.now (at course counts Polling) text.now found self.new) }
    {
        let Some(row) = trace.polls.get(self.progress.polled as usize) else {
            return Ok(None);
        };
        match row.stop {
            None => self.publishing(trace, known, row, false, text),
            Some(MOST_STORES) => self.publishing(trace, known, row, true, text),
            Some(stores) if stores < MOST_STORES => { self.stopped(trace, known, stores, text) }
            Some(_) => Ok(None),
        }
    }

    fn polling<'a>(
        &mut self,
        trace: &Trace,
        known: &Known,
        text: &'a [u8],
    ) -> Result<Option<&'a [u8]>, Memory>
        requires lawful { IsLawfulTrace trace.now }
        requires knows { KnowsTrace trace.now known.now }
        requires sizes { KeepsSizes trace.now self.old.progress }
        requires counts { CountsFit self.old.counts }
        ensures { IfOk result (λ found. (course : Course) (counts : Counted) → Holds course counts self.old → NextFound trace.now known.now (at course counts Polling) text.now found self.new) }
    {
        let poll = self.progress.polled + 1;
        let found = skip_at(known.pages, poll, self.progress.page, text)?;
        let Some((page, later)) = found else {
            return self.unskipped(trace, known, text);
        };
        self.progress.polled = poll;
        self.progress.page = page;
        self.due = due_next(trace, known, &self.progress);
        Ok(Some(later))
    }

    // The counts, after the last answer.
    fn counting<'a>(&mut self, text: &'a [u8]) -> Result<Option<&'a [u8]>, Memory>
        ensures { IfOk result (λ found. (trace : Traced) (known : Knows) (course : Course) (counts : Counted) (seen : Sights) → Holds course counts self.old → NextFound trace known (at course counts (Answering seen [])) text.now found self.new) }
    {
        let counts = [
            self.counts.publications,
            self.counts.answers,
            self.counts.times,
            self.counts.unknown,
            self.counts.synchronized,
            self.counts.free_running,
            self.counts.disrupted,
        ];
        let Some(later) = after_line(text, &Printed::Total { counts }) else {
            return Ok(None);
        };
        self.due = Due::Finished;
        Ok(Some(later))
    }

    fn answering<'a>(
        &mut self,
        trace: &Trace,
        known: &Known,
        seen: Seen,
        place: usize,
        text: &'a [u8],
    ) -> Result<Option<&'a [u8]>, Memory>
        requires lawful { IsLawfulTrace trace.now }
        requires knows { KnowsTrace trace.now known.now }
        requires sizes { KeepsSizes trace.now self.old.progress }
        requires counts { CountsFit self.old.counts }
        requires seen { SeenFits seen }
        ensures { IfOk result (λ found. (course : Course) (counts : Counted) → Holds course counts self.old → NextFound trace.now known.now (at course counts (Answering seen (drop place known.now.calls))) text.now found self.new) }
    {
        let Some(call) = known.calls.get(place).copied() else {
            return self.counting(text);
        };
        let before = seen_before(known.first, seen, call);
        match answer_at(trace, known, &self.progress, call, before, text) {
            Err(Memory) => Err(Memory),
            Ok(None) => Ok(None),
            Ok(Some((after, answer, later))) => {
                self.counts = counted(self.counts, &answer);
                self.due = Due::Answering {
                    seen: after,
                    place: place + 1,
                };
                Ok(Some(later))
            }
        }
    }

    /// Takes the line that stands next, where it begins the text, and gives what follows it. `None` exactly where no line that may
    /// stand here begins the text.
    pub fn next<'a>(
        &mut self,
        trace: &Trace,
        known: &Known,
        text: &'a [u8],
    ) -> Result<Option<&'a [u8]>, Memory>
        requires lawful { IsLawfulTrace trace.now }
        requires knows { KnowsTrace trace.now known.now }
        requires sizes { KeepsSizes trace.now self.old.progress }
        requires counts { CountsFit self.old.counts }
        requires seen { DueFits self.old.due }
        ensures { IfOk result (λ found. (standing : Standing) → ShowsStanding known.now standing self.old → NextFound trace.now known.now standing text.now found self.new) }
    {
        let due = self.due;
        match due {
            Due::Heading => self.heading(trace, known, text),
            Due::Opening => self.opening(trace, text),
            Due::Moving => self.moving(trace, text),
            Due::Polling => self.polling(trace, known, text),
            Due::Stopping => self.stopping(trace, known, text),
            Due::Answering { seen, place } => { self.answering(trace, known, seen, place, text) }
            Due::Finished => Ok(None),
        }
    }

    /// Whether no line stands next.
    pub fn is_finished(&self) -> bool
        ensures { IsTrue result ↔ (self.now.due ≡ dues.Finished) }
    {
        match self.due {
            Due::Finished => true,
            Due::Heading | Due::Opening | Due::Moving | Due::Polling => false,
            Due::Stopping | Due::Answering { .. } => false,
        }
    }
}

/// The state before the first line.
pub fn auditor_of(alloc: Global, trace: &Trace) -> Result<Auditor, Memory>
    ensures shows { IfOk result (λ auditor. (known : Knows) → ShowsStanding known (standing_start trace.now) auditor) }
    ensures small { StartIsSmall trace.now }
{
    Ok(Auditor {
        progress: progress_of(alloc, trace)?,
        counts: Counts {
            publications: 0,
            answers: 0,
            times: 0,
            unknown: 0,
            synchronized: 0,
            free_running: 0,
            disrupted: 0,
        },
        due: Due::Heading,
    })
}
