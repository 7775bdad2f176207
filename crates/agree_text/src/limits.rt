/// The most records of a text after its header.
pub const MOST_RECORDS: u32 = 300_000;

/// The most questions of a text.
pub const MOST_ASKS: u32 = 1_000;
