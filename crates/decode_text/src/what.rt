/// What a hexadecimal text is taken for.
#[derive(Clone, Copy, Debug, PartialEq, Eq, Hash)]
pub enum What {
    /// chrony's reply to a request for tracking.
    Reply,
    /// A VMClock page.
    Page,
    /// The 80 bytes of a segment.
    Image,
}
