/// No run has more lines: two of each poll and one more of the daemon, and one of each call of each client.
pub const MOST_LINES: usize = 20_000_000;
