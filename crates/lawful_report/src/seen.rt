/// What a client has seen: none of the three falls from one of its calls to the next.
#[derive(Clone, Copy, Debug, PartialEq, Eq)]
pub struct Seen {
    /// The point of the segment: twice the position, and one more while an update is open.
    pub point: u64,
    /// The clock row, from 1.
    pub row: u32,
    /// The number of the page, the start page being 0.
    pub page: u32,
}
