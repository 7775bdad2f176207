//! A record of a trace by itself: what it says, or the first reason against it that needs no other record.
ghost use Rattle.std.specs.Prelude.{◌≡◌, ◌≤◌, IfOk, length};
ghost use Rattle.csv.specs.Records.{fields_of};
ghost use Rattle.csv_records.specs.Refusal.{Reads};
ghost use Rattle.trace_reader.specs.Line.{call_line_in, clock_row_in, drift_line_in, header_in, image_by, image_line_in, jobs_in, layout_line_in, layout_named, line_by, line_of, mark_line_in, page_found, page_line_in, poll_row_in, run_in, tries_line_in};

use crate::kind::{Kind, allows, kind_in};
use crate::party::read_party;
use clock_gate::{
    ClockRow, LAST_MOMENT, MOST_CLIENTS, MOST_DRIFT, MOST_OF_A_LINE, MOST_PAGE_BYTES,
    MOST_REPLY_BYTES, MOST_STORES, MOST_TRIES, PollRow, Turn,
};
use csv::ByteRecord;
use csv_records::{Reason, Refusal, read_bytes, read_number, read_optional};
use generation_word::Layout;
use segment_layout::image_words;
use std::alloc::Global;
use vmclock_page::{Page, read_page};

/// What a record says.
#[derive(Drop)]
pub enum Line {
    /// The first record of each trace.
    Header,
    Drift(u32),
    Tries(u16),
    Layout(Layout),
    /// The segment's ten words at the start.
    Image([u64; 10]),
    /// The page of these bytes, `None` where they are those of no page.
    Page(Option<Page>),
    Clock(ClockRow),
    /// The page before it, with this marker.
    Mark(u64),
    Disrupt,
    Poll(PollRow),
    /// A client's number, and its tries where the call has its own.
    Call(u32, Option<u16>),
    /// A line of the schedule.
    Turns(Turn),
}

fn header_in(row: &ByteRecord) -> Result<Line, Reason>
    ensures { result ≡ header_in (fields_of row.now) }
{
    read_number(row, 1, 1, 1)?;
    Ok(Line::Header)
}

fn drift_line_in(row: &ByteRecord) -> Result<Line, Reason>
    ensures { result ≡ drift_line_in (fields_of row.now) }
{
    let drift = read_number(row, 2, 0, MOST_DRIFT as u64)?;
    Ok(Line::Drift(drift as u32))
}

fn tries_line_in(row: &ByteRecord) -> Result<Line, Reason>
    ensures { result ≡ tries_line_in (fields_of row.now) }
{
    let tries = read_number(row, 2, 1, MOST_TRIES as u64)?;
    Ok(Line::Tries(tries as u16))
}

fn layout_named(version: u64) -> Layout
    ensures { result ≡ layout_named version }
{
    if version == 2 {
        return Layout::Two;
    }
    Layout::Three
}

fn layout_line_in(row: &ByteRecord) -> Result<Line, Reason>
    ensures { result ≡ layout_line_in (fields_of row.now) }
{
    let version = read_number(row, 2, 2, 3)?;
    Ok(Line::Layout(layout_named(version)))
}

#[tactic(auto, unfolding(crate::specs::Line::image_by))]
fn image_by(bytes: &[u8]) -> Result<Line, Reason>
    ensures { result ≡ image_by bytes.now }
{
    if bytes.len() != 80 {
        return Err(Reason::Hex);
    }
    let mut image = [0; 80];
    image.copy_from_slice(bytes);
    Ok(Line::Image(image_words(&image)))
}

fn image_line_in(alloc: Global, row: &ByteRecord) -> Result<Line, Refusal>
    ensures { Reads result (image_line_in (fields_of row.now)) }
{
    let bytes = read_bytes(alloc, row, 1, 160)?;
    Ok(image_by(bytes.as_slice())?)
}

#[tactic(auto, unfolding(crate::specs::Line::page_found))]
fn page_found(bytes: &[u8]) -> Option<Page>
    ensures { result ≡ page_found bytes.now }
{
    read_page(bytes).ok()
}

fn page_line_in(alloc: Global, row: &ByteRecord) -> Result<Line, Refusal>
    ensures { Reads result (page_line_in (fields_of row.now)) }
{
    let bytes = read_bytes(alloc, row, 1, 2 * MOST_PAGE_BYTES)?;
    Ok(Line::Page(page_found(bytes.as_slice())))
}

fn clock_row_in(row: &ByteRecord) -> Result<ClockRow, Reason>
    ensures { result ≡ clock_row_in (fields_of row.now) }
{
    let mono = read_number(row, 1, 0, LAST_MOMENT)?;
    let real = read_number(row, 2, 0, LAST_MOMENT)?;
    let truth = read_optional(row, 3, 0, LAST_MOMENT)?;
    Ok(ClockRow { mono, real, truth })
}

fn mark_line_in(row: &ByteRecord) -> Result<Line, Reason>
    ensures { result ≡ mark_line_in (fields_of row.now) }
{
    let marker = read_number(row, 1, 0, u64::MAX)?;
    Ok(Line::Mark(marker))
}

fn poll_row_in(alloc: Global, row: &ByteRecord) -> Result<PollRow, Refusal>
    ensures { Reads result (poll_row_in (fields_of row.now)) }
{
    let reply = read_bytes(alloc, row, 1, 2 * MOST_REPLY_BYTES)?;
    match read_optional(row, 2, 0, MOST_STORES as u64)? {
        None => Ok(PollRow { reply, stop: None }),
        Some(stop) => Ok(PollRow {
            reply,
            stop: Some(stop as u8),
        }),
    }
}

fn call_line_in(row: &ByteRecord) -> Result<Line, Reason>
    ensures { result ≡ call_line_in (fields_of row.now) }
{
    let client = read_number(row, 1, 1, MOST_CLIENTS as u64)?;
    match read_optional(row, 2, 1, MOST_TRIES as u64)? {
        None => Ok(Line::Call(client as u32, None)),
        Some(tries) => Ok(Line::Call(client as u32, Some(tries as u16))),
    }
}

fn run_in(row: &ByteRecord) -> Result<Turn, Reason>
    ensures { result ≡ run_in (fields_of row.now) }
{
    let party = read_party(row, 1)?;
    let count = read_number(row, 2, 1, MOST_OF_A_LINE as u64)?;
    Ok(Turn::Run(party, count as u32))
}

fn jobs_in(row: &ByteRecord) -> Result<Turn, Reason>
    ensures { result ≡ jobs_in (fields_of row.now) }
{
    let party = read_party(row, 1)?;
    let count = read_number(row, 2, 1, MOST_OF_A_LINE as u64)?;
    Ok(Turn::Jobs(party, count as u32))
}

fn line_by(alloc: Global, kind: Kind, row: &ByteRecord) -> Result<Line, Refusal>
    ensures { Reads result (line_by kind (fields_of row.now)) }
{
    match kind {
        Kind::Header => Ok(header_in(row)?),
        Kind::Drift => Ok(drift_line_in(row)?),
        Kind::Tries => Ok(tries_line_in(row)?),
        Kind::Layout => Ok(layout_line_in(row)?),
        Kind::Image => image_line_in(alloc, row),
        Kind::Page => page_line_in(alloc, row),
        Kind::Clock => Ok(Line::Clock(clock_row_in(row)?)),
        Kind::Mark => Ok(mark_line_in(row)?),
        Kind::Disrupt => Ok(Line::Disrupt),
        Kind::Poll => Ok(Line::Poll(poll_row_in(alloc, row)?)),
        Kind::Call => Ok(call_line_in(row)?),
        Kind::Run => Ok(Line::Turns(run_in(row)?)),
        Kind::Jobs => Ok(Line::Turns(jobs_in(row)?)),
    }
}

/// The line that a record is.
#[tactic(auto, unfolding(crate::specs::Line::line_of))]
pub fn line_of(alloc: Global, row: &ByteRecord) -> Result<Line, Refusal>
    ensures { Reads result (line_of (fields_of row.now)) }
{
    let kind = kind_in(row)?;
    if !allows(kind, row.len()) {
        return Err(Refusal::By(Reason::Fields));
    }
    line_by(alloc, kind, row)
}
