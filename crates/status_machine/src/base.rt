use clock_gate::Stamp;

/// The good poll that a record's bound comes from.
#[derive(Clone, Copy, Debug, PartialEq, Eq)]
pub struct Base {
    /// The monotonic time from which on the bound holds.
    pub as_of: Stamp,
    /// How far the clock may be off at as-of, in nanoseconds from 0 to 2^62.
    pub bound: i64,
    /// The number of the poll, or 0 for the record that the segment held at first.
    pub poll: u32,
}
