/// The fewest polls of a day: its disruption and its stop then lie after the first second.
pub const FEWEST_DAY_POLLS: u32 = 6;

/// The most polls of a day.
pub const MOST_DAY_POLLS: u32 = 20_000;
