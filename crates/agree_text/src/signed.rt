//! Numbers that may be negative.
ghost use Rattle.std.specs.Prelude.{◌≡◌, ◌≤◌, ◌^◌, pos, neg_ℤ};
ghost use Rattle.csv.specs.Records.{fields_of};
ghost use Rattle.agree_text.specs.Signed.{signed_in, signed_part, truth_part};

use bound_agree::FARTHEST_END;
use csv::ByteRecord;
use csv_records::{Reason, number};

fn above_zero(n: u64) -> i64
    requires { n ≤ 2 ^ 62 }
    ensures { result ≡ pos n }
{
    n as i64
}

fn below_zero(n: u64) -> i64
    requires { n ≤ 2 ^ 62 }
    ensures { result ≡ neg_ℤ (pos n) }
{
    -(n as i64)
}

// A number that may have a minus before its digits.
#[tactic(auto, unfolding(crate::specs::Signed::signed_in))]
fn signed_in(field: &[u8]) -> Option<i64>
    ensures { result ≡ signed_in field.now }
{
    match field {
        [] => None,
        [first, digits @ ..] => {
            if *first == b'-' {
                return number(digits, 0, FARTHEST_END as u64).map(below_zero);
            }
            number(field, 0, FARTHEST_END as u64).map(above_zero)
        }
    }
}

/// The number at a place.
pub fn read_signed(row: &ByteRecord, place: usize) -> Result<i64, Reason>
    ensures { result ≡ signed_part place (fields_of row.now) }
{
    match row.get(place) {
        None => Err(Reason::Number),
        Some(field) => signed_in(field).ok_or(Reason::Number),
    }
}

/// The truth of a question, which its record may lack.
pub fn read_truth(row: &ByteRecord) -> Result<Option<i64>, Reason>
    ensures { result ≡ truth_part (fields_of row.now) }
{
    match row.get(2) {
        None => Ok(None),
        Some(field) => match signed_in(field) {
            None => Err(Reason::Number),
            Some(truth) => Ok(Some(truth)),
        },
    }
}
