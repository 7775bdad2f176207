//! A record by itself: what it says, or the first reason to refuse it that needs no record before it.
ghost use Rattle.std.specs.Prelude.{◌≡◌, ◌≤◌, IfOk, Ok, Err};
ghost use Rattle.csv.specs.Records.{fields_of};
ghost use Rattle.bound_agree.specs.declared.board.TheConstants.{MOST_SERVERS};
ghost use Rattle.agree_text.specs.Line.{IsLine, server_part, span_part, set_in, drop_in, ask_in, line_by, line_of};

use crate::kind::{KINDS, Kind, allows};
use crate::signed::{read_signed, read_truth};
use bound_agree::{MOST_SERVERS, Span};
use csv::ByteRecord;
use csv_records::{Reason, read_kind, read_number};

/// What a record says.
#[derive(Clone, Copy, Debug, PartialEq, Eq)]
pub enum Line {
    /// The text is of this form.
    Header,
    /// A server has this span from now on.
    Set(u32, Span),
    /// A server has no span from now on.
    Drop(u32),
    /// Which points do all but so many spans hold? And how many don't hold the truth, where it is told?
    Ask(u32, Option<i64>),
}

fn read_server(row: &ByteRecord) -> Result<u32, Reason>
    ensures value { result ≡ server_part (fields_of row.now) }
    ensures within { IfOk result (λ server. (1 ≤ server) × (server ≤ MOST_SERVERS)) }
{
    let server = read_number(row, 1, 1, u64::from(MOST_SERVERS))?;
    Ok(server as u32)
}

fn read_span(row: &ByteRecord) -> Result<Span, Reason>
    ensures { result ≡ span_part (fields_of row.now) }
{
    let earliest = read_signed(row, 2)?;
    let latest = read_signed(row, 3)?;
    Span::new(earliest, latest).ok_or(Reason::Number)
}

fn set_in(row: &ByteRecord) -> Result<Line, Reason>
    ensures value { result ≡ set_in (fields_of row.now) }
    ensures line { IfOk result IsLine }
{
    let server = read_server(row)?;
    let span = read_span(row)?;
    Ok(Line::Set(server, span))
}

fn drop_in(row: &ByteRecord) -> Result<Line, Reason>
    ensures value { result ≡ drop_in (fields_of row.now) }
    ensures line { IfOk result IsLine }
{
    let server = read_server(row)?;
    Ok(Line::Drop(server))
}

fn ask_in(row: &ByteRecord) -> Result<Line, Reason>
    ensures value { result ≡ ask_in (fields_of row.now) }
    ensures line { IfOk result IsLine }
{
    let most_false = read_number(row, 1, 0, u64::from(MOST_SERVERS))?;
    let truth = read_truth(row)?;
    Ok(Line::Ask(most_false as u32, truth))
}

fn line_by(kind: Kind, row: &ByteRecord) -> Result<Line, Reason>
    ensures value { result ≡ line_by kind (fields_of row.now) }
    ensures line { IfOk result IsLine }
{
    match kind {
        Kind::Header => {
            read_number(row, 1, 1, 1)?;
            Ok(Line::Header)
        }
        Kind::Set => set_in(row),
        Kind::Drop => drop_in(row),
        Kind::Ask => ask_in(row),
    }
}

/// What a record says by itself.
#[tactic(auto, unfolding(crate::specs::Line::line_of))]
pub fn line_of(row: &ByteRecord) -> Result<Line, Reason>
    ensures value { result ≡ line_of (fields_of row.now) }
    ensures line { IfOk result IsLine }
{
    let kind = read_kind(row, &KINDS)?;
    if !allows(kind, row.len()) {
        return Err(Reason::Fields);
    }
    line_by(kind, row)
}
