//! The limits of a page's time. They are this project's own.

/// The greatest shift of a period: the period counts in 2^-(64 + shift) s.
pub const MOST_SHIFT: u8 = 40;

/// The last second that a page may tell, since 1970: in October 2096.
pub const LAST_SECOND: u64 = 4_000_000_000;

/// The most rows of one report.
pub const MOST_PAGE_ROWS: usize = 300_000;
