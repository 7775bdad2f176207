//! What one field says.
ghost use Rattle.std.specs.Prelude.{◌≡◌, ◌==◌, ◌≤◌, ◌^◌, ◌↔◌, length, IfOk, IfSome, IfNone, IsSome, IsTrue, get_or, option_map, vec_items};
ghost use Rattle.std.specs.Str.{bytes_eq};
ghost use Rattle.std.specs.Str.Parse.{digits_value};
ghost use Rattle.csv_records.specs.Fields.{IsHexOf, bytes_in, is_digits, number_in};

use hex::FromHexError;
use std::alloc::{AllocError, Global};

/// Whether a field is this word, byte for byte.
pub fn is_word(field: &[u8], word: &[u8]) -> bool
    ensures test { result ≡ bytes_eq field.now word.now }
    ensures same { IsTrue result ↔ (field.now ≡ word.now) }
{
    field == word
}

/// The number that 1 to 20 decimal digits write, where it lies from `low` to `high`. Leading zeros are allowed, a sign
/// isn't.
#[tactic(auto, unfolding(crate::specs::Fields::number_in))]
pub fn number(field: &[u8], low: u64, high: u64) -> Option<u64>
    ensures value { result ≡ number_in low high field.now }
    ensures within { IfSome result (λ n. (low ≤ n) × (n ≤ high)) }
{
    if field.len() > 20 {
        return None;
    }
    let value = written_value(field)?;
    if value < low {
        return None;
    }
    if high < value {
        return None;
    }
    Some(value)
}

/// The bytes that at most `most_digits` hexadecimal digits stand for, two digits a byte, in either case. `None` exactly
/// where there are more digits, an odd number of them, or another byte.
#[tactic(auto, unfolding(crate::specs::Fields::bytes_in))]
pub fn bytes_of(
    alloc: Global,
    field: &[u8],
    most_digits: usize,
) -> Result<Option<Vec<u8>>, AllocError>
    ensures value { IfOk result (λ bytes. option_map vec_items bytes ≡ bytes_in most_digits field.now) }
    ensures found { IfOk result (λ bytes. IsSome bytes ↔ IsHexOf most_digits field.now) }
{
    if field.len() > most_digits {
        return Ok(None);
    }
    match hex::decode(alloc, field) {
        Ok(bytes) => Ok(Some(bytes)),
        Err(FromHexError::OutOfMemory) => Err(AllocError),
        Err(_) => Ok(None),
    }
}

fn has_plus(field: &[u8]) -> bool
    ensures { result ≡ (get_or field.now 0 0 == 43) }
{
    match field {
        [] => false,
        [first, ..] => *first == b'+',
    }
}

// The value of one digit or more, that any number of up to 19 digits has in 64 bits.
#[tactic(auto, unfolding(crate::specs::Fields::is_digits))]
fn short_value(field: &[u8]) -> Option<u64>
    requires { length field.now ≤ 19 }
    ensures digits { IfSome result (λ n. IsTrue (is_digits field.now) × (n ≡ digits_value 10 field.now)) }
    ensures other { IfNone result (¬ IsTrue (is_digits field.now)) }
{
    if field.is_empty() {
        return None;
    }
    let mut value = 0;
    'digits: for byte in field {
        if !byte.is_ascii_digit() {
            return None;
        }
        value = value * 10 + u64::from(*byte - b'0');
    }
    Some(value)
}

// The value of one digit or more. `parse` alone would accept a plus.
fn parsed_value(field: &[u8]) -> Option<u64>
    ensures digits { IfSome result (λ n. IsTrue (is_digits field.now) × (n ≡ digits_value 10 field.now)) }
    ensures large { IfNone result (IsTrue (is_digits field.now) → 2 ^ 64 ≤ digits_value 10 field.now) }
{
    if has_plus(field) {
        return None;
    }
    match std::str::from_utf8(field) {
        Ok(text) => text.parse::<u64>().ok(),
        Err(_) => None,
    }
}

// The value of one digit or more, where 64 bits hold it.
fn written_value(field: &[u8]) -> Option<u64>
    ensures digits { IfSome result (λ n. IsTrue (is_digits field.now) × (n ≡ digits_value 10 field.now)) }
    ensures large { IfNone result (IsTrue (is_digits field.now) → 2 ^ 64 ≤ digits_value 10 field.now) }
{
    if field.len() < 20 {
        return short_value(field);
    }
    parsed_value(field)
}
