//! The numbers of a report's line, wherever they stand.
ghost use Rattle.std.specs.Prelude.{◌≡◌, ◌≤◌, ◌<◌, ◌+◌, ◌^◌, slice_index, IfSome, IfNone};
ghost use Rattle.report_audit.specs.Numbers.{from_digit, next_number, numbers_in};

use crate::leading::leading_number;

fn from_digit(text: &[u8]) -> &[u8]
    ensures { result.now ≡ from_digit text.now }
{
    let mut rest = text;
    'letters: loop {
        match rest {
            [byte, later @ ..] if !byte.is_ascii_digit() => rest = later,
            _ => return rest,
        }
    }
}

fn next_number(text: &[u8]) -> (u64, &[u8])
    ensures { (result.0, result.1.now) ≡ next_number text.now }
{
    leading_number(from_digit(text))
}

/// The first six numbers of a text, wherever they stand; those of the line that it begins with are among them.
pub fn six_numbers(text: &[u8]) -> [u64; 6]
    ensures { result ≡ numbers_in 6 text.now }
{
    let (a, text) = next_number(text);
    let (b, text) = next_number(text);
    let (c, text) = next_number(text);
    let (d, text) = next_number(text);
    let (e, text) = next_number(text);
    let (f, _) = next_number(text);
    [a, b, c, d, e, f]
}

/// The first five numbers of a text, wherever they stand.
pub fn five_numbers(text: &[u8]) -> [u64; 5]
    ensures { result ≡ numbers_in 5 text.now }
{
    let (a, text) = next_number(text);
    let (b, text) = next_number(text);
    let (c, text) = next_number(text);
    let (d, text) = next_number(text);
    let (e, _) = next_number(text);
    [a, b, c, d, e]
}

/// Three numbers, where each has 32 bits.
pub fn three_of(first: u64, second: u64, third: u64) -> Option<(u32, u32, u32)>
    ensures found { IfSome result (λ r. (r.0 ≡ first) × (r.1 ≡ second) × (r.2 ≡ third)) }
    ensures large { IfNone result (first < 2 ^ 32 → second < 2 ^ 32 → third < 2 ^ 32 → ⊥) }
{
    let Ok(first) = u32::try_from(first) else {
        return None;
    };
    let Ok(second) = u32::try_from(second) else {
        return None;
    };
    let Ok(third) = u32::try_from(third) else {
        return None;
    };
    Some((first, second, third))
}

/// Three numbers of a text in a row, from the one at this place on; `None` exactly where one of them has more than 32 bits.
pub fn three_at(text: &[u8], at: usize) -> Option<(u32, u32, u32)>
    requires { at ≤ 3 }
    ensures found { IfSome result (λ r. (r.0 ≡ slice_index (numbers_in 6 text.now) at) × (r.1 ≡ slice_index (numbers_in 6 text.now) (at + 1)) × (r.2 ≡ slice_index (numbers_in 6 text.now) (at + 2))) }
    ensures large { IfNone result (slice_index (numbers_in 6 text.now) at < 2 ^ 32 → slice_index (numbers_in 6 text.now) (at + 1) < 2 ^ 32 → slice_index (numbers_in 6 text.now) (at + 2) < 2 ^ 32 → ⊥) }
{
    let numbers = six_numbers(text);
    three_of(numbers[at], numbers[at + 1], numbers[at + 2])
}
