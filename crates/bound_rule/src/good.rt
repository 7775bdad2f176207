use clock_gate::Stamp;

/// What a good poll gives: a bound, and the monotonic times between which it may be used.
#[derive(Clone, Copy, Debug, PartialEq, Eq)]
pub struct Good {
    /// When chrony was asked.
    pub as_of: Stamp,
    /// 1,000 s later (this project's choice).
    pub void_after: Stamp,
    /// How far the clock may be off at as-of, in nanoseconds from 0 to 2^62.
    pub bound: i64,
}
