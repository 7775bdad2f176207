//! The date and time at an instant, and its text.
ghost use Rattle.std.specs.Prelude.{◌≡◌, ◌++◌, ◌↔◌, vec_items, IsTrue, OnOk};
ghost use Rattle.civil_time.specs.Civil.{IsInstant, IsDateTimeOf, civil_text, shown_text, utc_text};

use crate::limits::{FIRST_INSTANT, LAST_INSTANT};
use jiff::Timestamp;
use jiff::civil::DateTime;
use jiff::fmt::temporal::DateTimePrinter;
use jiff::tz::Offset;
use std::alloc::AllocError;

/// Whether an instant, in nanoseconds since 1970-01-01T00:00:00Z, is of a year of four digits: from `FIRST_INSTANT` to
/// `LAST_INSTANT`.
pub fn is_instant(nanoseconds: i128) -> bool
    ensures { IsTrue result ↔ IsInstant nanoseconds }
{
    if nanoseconds < FIRST_INSTANT {
        return false;
    }
    nanoseconds <= LAST_INSTANT
}

/// The date and time of UTC at an instant, given in nanoseconds since 1970-01-01T00:00:00Z: the day that the instant divided by
/// the nanoseconds of a day, rounded down, numbers from 1970-01-01, and the rest since its midnight.
pub fn utc_at(nanoseconds: i128) -> DateTime
    requires { IsInstant nanoseconds }
    ensures { IsDateTimeOf nanoseconds result }
{
    match Timestamp::from_nanosecond(nanoseconds) {
        Ok(instant) => Offset::UTC.to_datetime(instant),
        Err(_) => unreachable!(),
    }
}

fn put_utc(text: &mut Vec<u8>, shown: DateTime) -> Result<(), AllocError>
    ensures { OnOk result (vec_items text.new ≡ vec_items text.old ++ utc_text shown) }
{
    let printer = DateTimePrinter::new().precision(Some(9));
    let shown = printer.datetime_text(shown.to_plain());
    text.extend_from_slice(shown.as_str().as_bytes())?;
    text.extend_from_slice(b"Z".as_slice())
}

fn put_shown(text: &mut Vec<u8>, nanoseconds: i128) -> Result<(), AllocError>
    requires { IsInstant nanoseconds }
    ensures { OnOk result (vec_items text.new ≡ vec_items text.old ++ shown_text nanoseconds) }
{
    put_utc(text, utc_at(nanoseconds))
}

/// Appends the date and time of UTC at an instant, as `2023-11-14T22:13:22.499630858Z`, or nothing where its year hasn't four
/// digits (`is_instant`). The instant is in nanoseconds since 1970-01-01T00:00:00Z. After want of memory the text may end with a
/// part of it.
pub fn put_civil(text: &mut Vec<u8>, nanoseconds: i128) -> Result<(), AllocError>
    ensures { OnOk result (vec_items text.new ≡ vec_items text.old ++ civil_text nanoseconds) }
{
    if is_instant(nanoseconds) {
        put_shown(text, nanoseconds)
    } else {
        Ok(())
    }
}
