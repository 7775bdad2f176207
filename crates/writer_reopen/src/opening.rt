use segment_layout::Start;

/// What an opening found, and what it did to an older segment.
#[derive(Clone, Copy, Debug, PartialEq, Eq)]
pub struct Opening {
    /// What the segment held.
    pub start: Start,
    /// The even number of the move, exactly where a kept segment of version 2 was moved to layout 3; the next poll
    /// begins from it.
    pub moved: Option<u32>,
}
