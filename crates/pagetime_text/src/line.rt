//! A record by itself: what it says, or the first of the tests that need no record before it.
ghost use Rattle.std.specs.Prelude.{◌≡◌};
ghost use Rattle.csv.specs.Records.{fields_of};
ghost use Rattle.csv_records.specs.Refusal.{Reads};
ghost use Rattle.pagetime_text.specs.Line.{line_by, line_of, page_found, page_line, read_line};

use crate::kind::{KINDS, Kind, allows};
use clock_gate::{LAST_MOMENT, MOST_PAGE_BYTES};
use csv::ByteRecord;
use csv_records::{Reason, Refusal, read_bytes, read_kind, read_number, read_optional};
use std::alloc::Global;
use vmclock_page::{Page, read_page};

/// What a record says.
#[derive(Clone, Copy, Debug)]
pub enum Line {
    /// `pagetime-trace,1`.
    Header,
    /// `page,HEX` or `page,HEX,TRUE`: the page, where its bytes are one, and true time at its counter value.
    Page(Option<Page>, Option<u64>),
    /// `read,COUNTER` or `read,COUNTER,TRUTH`.
    Read(u64, Option<u64>),
}

// The page that these bytes are.
fn page_found(bytes: &[u8]) -> Option<Page>
    ensures { result ≡ page_found bytes.now }
{
    read_page(bytes).ok()
}

fn page_line(alloc: Global, row: &ByteRecord) -> Result<Line, Refusal>
    ensures { Reads result (page_line (fields_of row.now)) }
{
    let bytes = read_bytes(alloc, row, 1, 2 * MOST_PAGE_BYTES)?;
    let truth = read_optional(row, 2, 0, LAST_MOMENT)?;
    Ok(Line::Page(page_found(bytes.as_slice()), truth))
}

fn read_line(row: &ByteRecord) -> Result<Line, Reason>
    ensures { result ≡ read_line (fields_of row.now) }
{
    let counter = read_number(row, 1, 0, u64::MAX)?;
    let truth = read_optional(row, 2, 0, LAST_MOMENT)?;
    Ok(Line::Read(counter, truth))
}

fn line_by(alloc: Global, kind: Kind, row: &ByteRecord) -> Result<Line, Refusal>
    ensures { Reads result (line_by kind (fields_of row.now)) }
{
    match kind {
        Kind::Header => {
            read_number(row, 1, 1, 1)?;
            Ok(Line::Header)
        }
        Kind::Page => page_line(alloc, row),
        Kind::Read => Ok(read_line(row)?),
    }
}

/// What a record says by itself.
#[tactic(auto, unfolding(crate::specs::Line::line_of))]
pub fn line_of(alloc: Global, row: &ByteRecord) -> Result<Line, Refusal>
    ensures { Reads result (line_of (fields_of row.now)) }
{
    let kind = read_kind(row, &KINDS)?;
    if !allows(kind, row.len()) {
        return Err(Refusal::By(Reason::Fields));
    }
    line_by(alloc, kind, row)
}
