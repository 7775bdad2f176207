//! The instants of years of four digits.

/// 0000-01-01T00:00:00Z, in nanoseconds since 1970-01-01T00:00:00Z.
pub const FIRST_INSTANT: i128 = -62_167_219_200_000_000_000;

/// 9999-12-30T22:00:00.999999999Z: the last instant that `jiff` has.
pub const LAST_INSTANT: i128 = 253_402_207_200_999_999_999;
