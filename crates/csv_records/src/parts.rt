//! The parts of a record by their places, counted from 0.
ghost use Rattle.std.specs.Prelude.{◌≡◌, ◌≤◌, IfOk, IfSome};
ghost use Rattle.csv.specs.Records.{fields_of};
ghost use Rattle.csv_records.specs.Parts.{bytes_part, number_part, optional_part};
ghost use Rattle.csv_records.specs.Refusal.{Reads};

use crate::fields::{bytes_of, number};
use crate::reason::Reason;
use crate::refusal::Refusal;
use clock_gate::List;
use csv::ByteRecord;
use std::alloc::Global;

/// The number from `low` to `high` that the field at a place writes. `Number` exactly where the record ends before that
/// place, or the field is no such number.
pub fn read_number(row: &ByteRecord, place: usize, low: u64, high: u64) -> Result<u64, Reason>
    ensures value { result ≡ number_part low high place (fields_of row.now) }
    ensures within { IfOk result (λ n. (low ≤ n) × (n ≤ high)) }
{
    match row.get(place) {
        None => Err(Reason::Number),
        Some(field) => number(field, low, high).ok_or(Reason::Number),
    }
}

/// The same where the record may end before that place: then there is none, and no refusal.
pub fn read_optional(
    row: &ByteRecord,
    place: usize,
    low: u64,
    high: u64,
) -> Result<Option<u64>, Reason>
    ensures value { result ≡ optional_part low high place (fields_of row.now) }
    ensures within { IfOk result (λ found. IfSome found (λ n. (low ≤ n) × (n ≤ high))) }
{
    match row.get(place) {
        None => Ok(None),
        Some(field) => match number(field, low, high) {
            None => Err(Reason::Number),
            Some(n) => Ok(Some(n)),
        },
    }
}

/// The bytes that at most `most_digits` hexadecimal digits at a place stand for. By `Hex` exactly where the record ends
/// before that place, or its field stands for no bytes.
pub fn read_bytes(
    alloc: Global,
    row: &ByteRecord,
    place: usize,
    most_digits: usize,
) -> Result<List<u8>, Refusal>
    ensures { Reads result (bytes_part most_digits place (fields_of row.now)) }
{
    match row.get(place) {
        None => Err(Refusal::By(Reason::Hex)),
        Some(field) => match bytes_of(alloc, field, most_digits)? {
            None => Err(Refusal::By(Reason::Hex)),
            Some(bytes) => Ok(List::from_vec(bytes)),
        },
    }
}
