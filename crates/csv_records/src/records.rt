//! The records of a text, read one by one.
ghost use Rattle.std.specs.Prelude.{◌≡◌, ◌≤◌, ◌∷◌, [], true, false, not, length, OnErr, IfOk, IfSome, IsTrue};
ghost use Rattle.csv.specs.Machine.{line_feed};
ghost use Rattle.csv.specs.Reading.{default_config, error_kind, records, strip_bom};
ghost use Rattle.csv.specs.Records.{fields_of};
ghost use Rattle.csv_records.specs.Plain.{IsPlain, rows_of};
ghost use Rattle.csv_records.specs.Records.{IsOutside, records_of};

use csv::{ByteRecord, Error, ErrorKind, Reader, ReaderBuilder};
use std::alloc::{AllocError, Global};
use std::marker::Model;

// The room of a row at the start, in bytes and in fields.
const ROW_BYTES: usize = 8192;

const ROW_FIELDS: usize = 8;

// What follows a line feed.
fn after_feed(text: &[u8]) -> Option<&[u8]>
    ensures { IfSome result (λ later. text.now ≡ line_feed ∷ later.now) }
{
    match text {
        [byte, later @ ..] if *byte == b'\n' => Some(later),
        _ => None,
    }
}

// What follows the line feeds that a text begins with.
#[tactic(auto, using(crate::proofs::Feeds::one_feed))]
fn after_feeds(text: &[u8]) -> &[u8]
    ensures { records default_config result.now ≡ records default_config text.now }
{
    let mut rest = text;
    'feeds: while let Some(later) = after_feed(rest) {
        rest = later;
    }
    rest
}

fn may_be_marked(text: &[u8]) -> bool
    ensures { IsTrue (not result) → strip_bom text.now ≡ text.now }
{
    match text {
        [] => false,
        [first, ..] => *first == 0xEF,
    }
}

// A text with the same records, without the line feeds that it begins with. They stay where a byte order mark may follow
// them, since that is one at the very start alone.
#[tactic(auto, unfolding(crate::specs::Records::records_of))]
fn without_feeds(text: &[u8]) -> &[u8]
    ensures { records_of result.now ≡ records_of text.now }
{
    if may_be_marked(text) {
        return text;
    }
    let rest = after_feeds(text);
    if may_be_marked(rest) {
        return text;
    }
    rest
}

/// The records of a text that are still ahead, each of them the list of its fields.
///
/// Fields are parted by commas, and a field may be quoted. A record ends with a line feed, with a carriage return, or
/// with a carriage return and a line feed, and the last one may lack its end. Empty lines are skipped, and so is one
/// byte order mark at the very start. Records may differ in their number of fields, none of them is a header, and
/// nothing is trimmed.
#[derive(Drop)]
pub struct Records<'a> {
    reader: Reader<&'a [u8]>,
    is_over: bool,
}

impl<'a> Model for Records<'a> {
    ghost use Rattle.std.specs.Prelude.{◌≡◌, ℕ, List, [], false, if◌then◌else◌};

    ghost Value = { List (List (List ℕ)) };

    ghost use Rattle.csv_records.specs.Records.{GoesOn, records_ahead};

    ghost view = { λ r. if r.is_over then [] else records_ahead r.reader };

    ghost invariant = { λ r. r.is_over ≡ false → GoesOn r.reader };
}

impl<'a> Records<'a> {
    /// All records of a text, no more than it has bytes.
    pub fn new(alloc: Global, bytes: &'a [u8]) -> Records<'a>
        ensures all { result ≡ records_of bytes.now }
        ensures most { length result ≤ length bytes.now }

        // Where nothing is quoted these are the lines that aren't empty, each parted at its commas.
        ensures plain { IsPlain (strip_bom bytes.now) → result ≡ rows_of (strip_bom bytes.now) }
    {
        let reader = ReaderBuilder::new()
            .has_headers(false)
            .flexible(true)
            .from_reader(alloc, without_feeds(bytes));
        Records {
            reader,
            is_over: false,
        }
    }

    /// Takes the next record into `row`, and says whether there was one. Without one `row` is of no meaning.
    /// The only error is want of memory, after which no record is left.
    pub fn read(&mut self, row: &mut ByteRecord) -> Result<bool, AllocError>
        ensures next { IfOk result (λ found. found ≡ true → self.old ≡ fields_of row.new ∷ self.new) }
        ensures end { IfOk result (λ found. found ≡ false → (self.old ≡ []) × (self.new ≡ [])) }
        ensures err { OnErr result (self.new ≡ []) }
    {
        if self.is_over {
            return Ok(false);
        }
        match self.reader.read_byte_record(row) {
            Ok(true) => Ok(true),
            Ok(false) => {
                self.is_over = true;
                Ok(false)
            }
            Err(e) => {
                self.is_over = true;
                Err(memory_error(e))
            }
        }
    }
}

/// A row of no fields, to read records into. It has room from the start: a reader scans no further in one go than its row
/// has room for.
pub fn roomy_row(alloc: Global) -> Result<ByteRecord, AllocError>
    ensures { IfOk result (λ row. fields_of row ≡ []) }
{
    ByteRecord::with_capacity(alloc, ROW_BYTES, ROW_FIELDS)
}

// A slice is read without failing, and records may have any number of fields, so that memory is left.
fn memory_error(e: Error) -> AllocError
    requires { IsOutside (error_kind e) }
{
    match e.into_kind() {
        ErrorKind::OutOfMemory => AllocError,
        ErrorKind::Io(_) => AllocError,
        ErrorKind::Utf8 { .. } => unreachable!(),
        ErrorKind::UnequalLengths { .. } => unreachable!(),
        ErrorKind::Serialize(_) => unreachable!(),
        ErrorKind::Deserialize { .. } => unreachable!(),
    }
}
