//! The cut of a text at its first line `report`.
ghost use Rattle.std.specs.Prelude.{◌≡◌, option_map};
ghost use Rattle.audit_text.specs.Cut.{cut_of};

use memchr::memmem;

/// What stands before the first line `report` of a text, and what follows that line. `None` where no line is `report`.
pub fn cut<'a>(bytes: &'a [u8]) -> Option<(&'a [u8], &'a [u8])>
    ensures { option_map (λ parts. (parts.0.now, parts.1.now)) result ≡ cut_of bytes.now }
{
    if bytes.starts_with(b"report\n".as_slice()) {
        let (before, rest) = bytes.split_at(0);
        return Some((before, rest.split_at(7).1));
    }
    match memmem::find(bytes, b"\nreport\n".as_slice()) {
        None => None,
        Some(place) => {
            let (before, rest) = bytes.split_at(place + 1);
            Some((before, rest.split_at(7).1))
        }
    }
}
