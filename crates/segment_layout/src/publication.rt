use crate::record::Record;

/// One publication: the record, and which poll and which clock rows it came from.
#[derive(Clone, Copy, Debug, PartialEq, Eq)]
pub struct Publication {
    /// The number of the poll that published it, from 1.
    pub poll: u32,
    /// The generation that the segment holds with it.
    pub generation: u32,
    /// The clock row of this poll's as-of reading.
    pub asked: u32,
    /// The page's sequence count that the poll saw, or 0 without a page.
    pub sequence: u32,
    /// The clock row when the reply was taken.
    pub replied: u32,
    /// The number of the poll that gave as-of and bound, or 0.
    pub base: u32,
    /// What was published.
    pub rec: Record,
}
