//! The report of a run: a line for each of its events, their counts, and whether the promises of its answers were kept.
ghost use Rattle.std.specs.Prelude.{◌≡◌, ◌≤◌, ◌++◌, vec_items, length, IfOk, OnOk};
ghost use Rattle.abstract_run.specs.declared.limits.TheConstants.{MOST_EVENTS};
ghost use Rattle.abstract_run.specs.Given.{CanRun};
ghost use Rattle.run_promises.specs.Judged.{premises_of};
ghost use Rattle.abstract_run.specs.RunWhole.{run_of};
ghost use Rattle.vmclock_page.specs.Host.{count_of};
ghost use Rattle.bound_cli.specs.Replay.{counts_of, lines_of, page_of, printed_of, report_text, summary_text};

use crate::civil::put_line_with;
use crate::premises_line::put_premises;
use crate::times::Times;
use crate::totals::{Totals, totals_of};
use abstract_run::Event;
use clock_gate::{Memory, Trace};
use interval_now::Answer;
use lawful_report::{Printed, put_line};
use run_promises::{Premises, any_run};
use run_verdict::judged_run;
use std::alloc::{AllocError, Global};
use vmclock_page::page_number;

// Room for a line: most are shorter, and a text grows where they aren't.
const LINE_ROOM: usize = 96;

/// The sequence count of the start page, or 0 without a page.
fn start_count(page: &Option<[u64; 13]>) -> u32
    ensures { result ≡ count_of page.now }
{
    match page {
        None => 0,
        Some(words) => (words[1] / 0x1_0000_0000) as u32,
    }
}

fn page_of(start: u32, answer: &Answer) -> u32
    ensures { result ≡ page_of start answer.now }
{
    match answer {
        Answer::Time(timed) => page_number(start, timed.sequence),
        Answer::Busy { .. } => 0,
        Answer::NotInitialized => 0,
        Answer::PageBusy { .. } => 0,
        Answer::Causality(_) => 0,
    }
}

fn printed(start: u32, event: &Event) -> Printed
    ensures { result ≡ printed_of start event.now }
{
    match event {
        Event::Opened { poll, start } => Printed::Opened {
            poll: *poll,
            start: *start,
        },
        Event::Moved {
            poll,
            position,
            generation,
        } => Printed::Moved {
            poll: *poll,
            position: *position,
            generation: *generation,
        },
        Event::Published {
            position,
            publication,
            ..
        } => Printed::Published {
            position: *position,
            page: page_number(start, publication.sequence),
            publication: *publication,
        },
        Event::Skipped { poll, first, last } => Printed::Skipped {
            poll: *poll,
            first: *first,
            last: *last,
        },
        Event::Stopped { poll, stores } => Printed::Stopped {
            poll: *poll,
            stores: *stores,
        },
        Event::Answered {
            client,
            call,
            answer,
            ..
        } => Printed::Answered {
            client: *client,
            call: *call,
            page: page_of(start, answer),
            answer: *answer,
        },
    }
}

fn put_events(
    text: &mut Vec<u8>,
    times: Times,
    start: u32,
    events: &[Event],
) -> Result<(), AllocError>
    ensures { OnOk result (vec_items text.new ≡ vec_items text.old ++ lines_of times start events.now) }
{
    'events: for event in events {
        put_line_with(text, times, &printed(start, event))?;
    }
    Ok(())
}

fn total(totals: &Totals) -> Printed
    ensures { result ≡ Printed.Total (counts_of totals.now) }
{
    Printed::Total {
        counts: [
            totals.publications,
            totals.answers,
            totals.times,
            totals.unknown,
            totals.synchronized,
            totals.free_running,
            totals.disrupted,
        ],
    }
}

/// The premises of a run with these events.
pub fn premises_of(alloc: Global, trace: &Trace, events: &[Event]) -> Result<Premises, AllocError>
    requires few { length events.now ≤ MOST_EVENTS }
    requires can { CanRun trace.now }
    requires run { events.now ≡ (run_of trace.now).events }
    ensures { IfOk result (λ premises. premises ≡ premises_of trace.now events.now) }
{
    any_run();
    match judged_run(alloc, trace, events) {
        Ok(premises) => Ok(premises),
        Err(Memory) => Err(AllocError),
    }
}

/// Appends the counts of these events, and whether the promises of their answers were kept.
#[tactic(auto, unfolding(crate::specs::Replay::summary_text))]
pub fn put_summary(
    alloc: Global,
    text: &mut Vec<u8>,
    trace: &Trace,
    events: &[Event],
) -> Result<(), AllocError>
    requires few { length events.now ≤ MOST_EVENTS }
    requires can { CanRun trace.now }
    requires run { events.now ≡ (run_of trace.now).events }
    ensures { OnOk result (vec_items text.new ≡ vec_items text.old ++ summary_text trace.now events.now) }
{
    let premises = premises_of(alloc, trace, events)?;
    put_line(text, &total(&totals_of(events)))?;
    put_premises(text, &premises)
}

/// The report of a run of this trace with these events.
#[tactic(auto, unfolding(crate::specs::Replay::report_text))]
pub fn report(
    alloc: Global,
    times: Times,
    trace: &Trace,
    events: &[Event],
) -> Result<Vec<u8>, AllocError>
    requires few { length events.now ≤ MOST_EVENTS }
    requires can { CanRun trace.now }
    requires run { events.now ≡ (run_of trace.now).events }
    ensures { IfOk result (λ text. vec_items text ≡ report_text times trace.now events.now) }
{
    let mut text = Vec::with_capacity(alloc, LINE_ROOM * (events.len() + 3))?;
    put_line(&mut text, &Printed::Header)?;
    put_events(&mut text, times, start_count(&trace.page), events)?;
    put_summary(alloc, &mut text, trace, events)?;
    Ok(text)
}
