//! Instants as dates and times of UTC.
//!
//! `put_civil` appends the text `YYYY-MM-DDThh:mm:ss.nnnnnnnnnZ` of an instant in nanoseconds since 1970-01-01T00:00:00Z. The
//! day is the instant divided by the nanoseconds of a day, rounded down also before 1970, and the rest is the time of the day
//! (`specs/Civil.antt`). Stands on `jiff`, whose calendar says which date has which day number.
#![tactic(auto)]

mod instant;
mod laws;
mod limits;

pub use instant::{is_instant, put_civil, utc_at};
pub use laws::civil_laws;
pub use limits::{FIRST_INSTANT, LAST_INSTANT};

#[cfg(test)]
mod tests;
