use segment_layout::Record;

/// A record that was published, with what its line tells of it. A record that stood before the first poll, of the image or moved
/// from it, has row 1, page 0 and base 0.
#[derive(Clone, Copy, Debug, PartialEq, Eq)]
pub struct Entry {
    pub rec: Record,
    /// The clock row when the reply was taken, from 1.
    pub replied: u32,
    /// The number of the page that the poll saw, or 0 without a page.
    pub page: u32,
    /// The number of the poll that gave as-of and bound, or 0.
    pub base: u32,
}
