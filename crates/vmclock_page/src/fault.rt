/// Why bytes or words are no page: the first fault, in this order.
#[derive(Clone, Copy, Debug, PartialEq, Eq)]
pub enum PageFault {
    /// There are fewer than 104 bytes.
    Short,
    /// The first four bytes are not `VCLK`.
    Magic,
    /// The size that the page states, in bytes, is below 104.
    Size(u32),
    /// The version is not 1.
    Version(u16),
    /// The sequence count is odd: an update is in progress.
    Odd(u32),
}
