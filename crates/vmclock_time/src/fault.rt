/// Why a page tells no time of a reading: the first fault, in this order.
#[derive(Clone, Copy, Debug, PartialEq, Eq, Hash)]
pub enum PageTimeFault {
    /// The time isn't of type 0, UTC.
    TimeType(u8),
    /// The status of the clock is neither 2, synchronized, nor 3, free running.
    Status(u8),
    /// The shift of the period is above `MOST_SHIFT`.
    Shift(u8),
    /// The whole seconds of the page's time are above `LAST_SECOND`.
    Range(u64),
    /// The reading is below the page's own counter value.
    Back,
    /// The ticks since the counter value, times the greater of the period and its greatest error, come to more than 2^20
    /// s.
    TooFar,
}
