/// How a report tells the ends of an interval.
#[derive(Clone, Copy, Debug, PartialEq, Eq)]
pub enum Times {
    /// In nanoseconds since 1970-01-01T00:00:00Z.
    Nanoseconds,
    /// So, and then as dates and times of UTC.
    Civil,
}
