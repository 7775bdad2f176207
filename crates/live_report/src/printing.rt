//! The report of a run's lines.
ghost use Rattle.std.specs.List.{range_with_len};
ghost use Rattle.std.specs.Prelude.{◌≡◌, ◌≤◌, ◌<◌, ◌+◌, ◌^◌, ◌++◌, ◌∷◌, [], ℕ, if◌then◌else◌, length, vec_items, IfOk, IsOk, OnOk};
ghost use Rattle.clock_gate.specs.declared.limits.TheConstants.{MOST_CLIENTS};
ghost use Rattle.vmclock_page.specs.Counting.{page_number_of};
ghost use Rattle.vmclock_page.specs.Host.{count_of};
ghost use Rattle.segment_layout.specs.Image.{image_of};
ghost use Rattle.lawful_report.specs.Lawful.{counts_list, has_stop, text_of_lines};
ghost use Rattle.live_report.specs.ClientCalls.{answer_lines, client_lines};
ghost use Rattle.live_report.specs.Counted.{answers_in};
ghost use Rattle.live_report.specs.declared.limits.TheConstants.{MOST_LINES};
ghost use Rattle.live_report.specs.LiveReport.{line_printed, lines_printed, move_printed, page_told, poll_printed, position_after_line, position_first, report_of, stop_of, stop_printed};

use crate::counts::counts_of;
use crate::line::Line;
use crate::lines::Lines;
use clock_gate::{List, Memory, Trace};
use interval_now::Answer;
use lawful_report::{Counts, Printed, put_line};
use segment_layout::{Publication, Start, admit};
use std::alloc::{AllocError, Global};
use vmclock_page::page_number;
use writer_reopen::Polled;

// Room for a line: most are shorter, and a text grows where they aren't.
const LINE_ROOM: usize = 96;

// The sequence count of the start page, or 0 without a page.
fn start_count(page: &Option<[u64; 13]>) -> u32
    ensures { result ≡ count_of page.now }
{
    match page {
        None => 0,
        Some(words) => (words[1] / 0x1_0000_0000) as u32,
    }
}

fn page_told(trace: &Trace, answer: &Answer) -> u32
    ensures { result ≡ page_told trace.now answer.now }
{
    match answer {
        Answer::Time(timed) => page_number(start_count(&trace.page), timed.sequence),
        Answer::Busy { .. } => 0,
        Answer::NotInitialized => 0,
        Answer::PageBusy { .. } => 0,
        Answer::Causality(_) => 0,
    }
}

// Whether the poll with this number has a stop after all its stores.
fn stops_after_all(trace: &Trace, poll: u32) -> bool
    ensures { result ≡ has_stop (stop_of trace.now poll) 10 }
{
    let at = poll.saturating_sub(1) as usize;
    match trace.polls.as_slice().get(at) {
        None => false,
        Some(row) => match row.stop {
            None => false,
            Some(stop) => stop == 10,
        },
    }
}

#[tactic(auto, using(crate::proofs::ReportLines::text_one))]
fn put_stop(text: &mut Vec<u8>, trace: &Trace, poll: u32) -> Result<(), AllocError>
    ensures { OnOk result (vec_items text.new ≡ vec_items text.old ++ text_of_lines (stop_printed poll (stop_of trace.now poll))) }
{
    if stops_after_all(trace, poll) {
        return put_line(text, &Printed::Stopped { poll, stores: 10 });
    }
    Ok(())
}

#[tactic(auto, using(crate::proofs::ReportLines::text_one))]
fn put_move(
    text: &mut Vec<u8>,
    position: u64,
    poll: u32,
    moved: Option<u32>,
) -> Result<(), AllocError>
    requires { position < 2 ^ 63 }
    ensures { OnOk result (vec_items text.new ≡ vec_items text.old ++ text_of_lines (move_printed position poll moved)) }
{
    match moved {
        None => Ok(()),
        Some(generation) => {
            let position = position + 1;
            put_line(
                text,
                &Printed::Moved {
                    poll,
                    position,
                    generation,
                },
            )
        }
    }
}

fn put_opened(
    text: &mut Vec<u8>,
    position: u64,
    poll: u32,
    start: &Start,
    moved: Option<u32>,
) -> Result<(), AllocError>
    requires { position < 2 ^ 63 }
    ensures { OnOk result (vec_items text.new ≡ vec_items text.old ++ text_of_lines (Printed.Opened poll start.now ∷ move_printed position poll moved)) }
{
    put_line(
        text,
        &Printed::Opened {
            poll,
            start: *start,
        },
    )?;
    put_move(text, position, poll, moved)
}

fn put_published(
    text: &mut Vec<u8>,
    trace: &Trace,
    position: u64,
    poll: u32,
    publication: &Publication,
) -> Result<(), AllocError>
    requires { position < 2 ^ 63 }
    ensures { OnOk result (vec_items text.new ≡ vec_items text.old ++ text_of_lines (Printed.Published (position + 1) (page_number_of (count_of trace.now.page) publication.now.sequence) publication.now ∷ stop_printed poll (stop_of trace.now poll))) }
{
    let page = page_number(start_count(&trace.page), publication.sequence);
    let position = position + 1;
    put_line(
        text,
        &Printed::Published {
            position,
            page,
            publication: *publication,
        },
    )?;
    put_stop(text, trace, poll)
}

#[tactic(auto, using(crate::proofs::ReportLines::text_one))]
fn put_polled(
    text: &mut Vec<u8>,
    trace: &Trace,
    position: u64,
    poll: u32,
    polled: &Polled,
) -> Result<(), AllocError>
    requires { position < 2 ^ 63 }
    ensures { OnOk result (vec_items text.new ≡ vec_items text.old ++ text_of_lines (poll_printed trace.now position poll polled.now)) }
{
    match polled {
        Polled::Published { publication, .. } => {
            put_published(text, trace, position, poll, publication)
        }
        Polled::Skipped { first, last } => {
            let (first, last) = (*first, *last);
            put_line(text, &Printed::Skipped { poll, first, last })
        }
        Polled::Stopped { stores } => {
            let stores = *stores;
            put_line(text, &Printed::Stopped { poll, stores })
        }
    }
}

#[tactic(auto, using(crate::proofs::ReportLines::text_one))]
fn put_answered(
    text: &mut Vec<u8>,
    trace: &Trace,
    client: u32,
    call: u32,
    answer: &Answer,
) -> Result<(), AllocError>
    ensures { OnOk result (vec_items text.new ≡ vec_items text.old ++ text_of_lines (Printed.Answered client call (page_told trace.now answer.now) answer.now ∷ [])) }
{
    let page = page_told(trace, answer);
    put_line(
        text,
        &Printed::Answered {
            client,
            call,
            page,
            answer: *answer,
        },
    )
}

// Appends what a line prints where the segment stands at this position.
fn put_printed(
    text: &mut Vec<u8>,
    trace: &Trace,
    position: u64,
    line: &Line,
) -> Result<(), AllocError>
    requires { position < 2 ^ 63 }
    ensures { OnOk result (vec_items text.new ≡ vec_items text.old ++ text_of_lines (line_printed trace.now position line.now)) }
{
    match line {
        Line::Opened { poll, start, moved } => put_opened(text, position, *poll, start, *moved),
        Line::Polled { poll, polled } => put_polled(text, trace, position, *poll, polled),
        Line::Answered {
            client,
            call,
            answer,
        } => put_answered(text, trace, *client, *call, answer),
    }
}

// Whether a line publishes: a move, or a finished publication.
fn publishes(line: &Line) -> bool
    ensures { (position : ℕ) → position_after_line position line.now ≡ position + (if result then 1 else 0) }
{
    match line {
        Line::Opened { moved, .. } => moved.is_some(),
        Line::Polled { polled, .. } => match polled {
            Polled::Published { .. } => true,
            Polled::Skipped { .. } => false,
            Polled::Stopped { .. } => false,
        },
        Line::Answered { .. } => false,
    }
}

fn position_after(position: u64, line: &Line) -> u64
    requires { position < 2 ^ 63 }
    ensures value { result ≡ position_after_line position line.now }
    ensures next { result ≤ position + 1 }
{
    if publishes(line) {
        return position + 1;
    }
    position
}

fn put_lines(
    text: &mut Vec<u8>,
    trace: &Trace,
    position: u64,
    lines: &[Line],
) -> Result<(), AllocError>
    requires small { position < 2 ^ 32 }
    requires few { length lines.now ≤ MOST_LINES }
    ensures { OnOk result (vec_items text.new ≡ vec_items text.old ++ text_of_lines (lines_printed trace.now position lines.now)) }
{
    let mut at = position;
    'lines: for line in lines {
        put_printed(text, trace, at, line)?;
        at = position_after(at, line);
    }
    Ok(())
}

// Appends the lines of a client's answers.
fn put_answers(
    text: &mut Vec<u8>,
    trace: &Trace,
    client: u32,
    answers: &[Answer],
) -> Result<(), AllocError>
    requires few { length answers.now ≤ MOST_LINES }
    ensures { (position : ℕ) → OnOk result (vec_items text.new ≡ vec_items text.old ++ text_of_lines (lines_printed trace.now position (answer_lines client 1 answers.now))) }
{
    let mut call = 1;
    'answers: for answer in answers {
        put_answered(text, trace, client, call, answer)?;
        call += 1;
    }
    Ok(())
}

// Appends the lines of all clients.
fn put_clients(
    text: &mut Vec<u8>,
    trace: &Trace,
    answers: &[List<Answer>],
) -> Result<(), AllocError>
    requires clients { length answers.now ≤ MOST_CLIENTS }
    requires few { answers_in answers.now ≤ MOST_LINES }
    ensures { (position : ℕ) → OnOk result (vec_items text.new ≡ vec_items text.old ++ text_of_lines (lines_printed trace.now position (client_lines (range_with_len 1 (length answers.now)) answers.now))) }
{
    let mut client = 1;
    'clients: for mine in answers {
        put_answers(text, trace, client, mine.as_slice())?;
        client += 1;
    }
    Ok(())
}

// The position of the image.
fn position_first(trace: &Trace) -> u64
    requires { IsOk (image_of trace.now.layout trace.now.image) }
    ensures value { result ≡ position_first trace.now }
    ensures small { result < 2 ^ 32 }
{
    match admit(&trace.image, trace.layout) {
        Ok(start) => u64::from(start.generation() / 2),
        Err(_) => 0,
    }
}

fn total(counts: &Counts) -> Printed
    ensures { result ≡ Printed.Total (counts_list counts.now) }
{
    Printed::Total {
        counts: [
            counts.publications,
            counts.answers,
            counts.times,
            counts.unknown,
            counts.synchronized,
            counts.free_running,
            counts.disrupted,
        ],
    }
}

fn text_of(
    alloc: Global,
    trace: &Trace,
    daemon: &[Line],
    answers: &[List<Answer>],
) -> Result<Vec<u8>, AllocError>
    requires image { IsOk (image_of trace.now.layout trace.now.image) }
    requires clients { length answers.now ≤ MOST_CLIENTS }
    requires few { length daemon.now + answers_in answers.now ≤ MOST_LINES }
    ensures report { IfOk result (λ text. vec_items text ≡ report_of trace.now (daemon.now ++ client_lines (range_with_len 1 (length answers.now)) answers.now)) }
{
    let counts = counts_of(daemon, answers);
    let lines = daemon.len() + counts.answers as usize;
    let mut text = Vec::with_capacity(alloc, LINE_ROOM * (lines + 2))?;
    put_line(&mut text, &Printed::Header)?;
    put_lines(&mut text, trace, position_first(trace), daemon)?;
    put_clients(&mut text, trace, answers)?;
    put_line(&mut text, &total(&counts))?;
    Ok(text)
}

/// The report of a run's lines: its first line, what each line prints, counted from the image's position on, and the counts.
///
/// The image is one that a daemon of the trace's layout can go on with, and the lines are at most `MOST_LINES`: those of a run are
/// fewer (`live_laws`).
pub fn report(alloc: Global, trace: &Trace, lines: &Lines) -> Result<List<u8>, Memory>
    requires image { IsOk (image_of trace.now.layout trace.now.image) }
    requires few { length lines.now ≤ MOST_LINES }
    ensures report { IfOk result (λ text. text ≡ report_of trace.now lines.now) }
{
    let (daemon, answers) = lines.parts();
    match text_of(alloc, trace, daemon, answers) {
        Ok(text) => Ok(List::from_vec(text)),
        Err(_) => Err(Memory),
    }
}
