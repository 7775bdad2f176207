//! What a client sees of the segment.
use segment_layout::Record;

/// What a read of the segment has come to.
#[derive(Clone, Copy, Debug, PartialEq, Eq)]
pub enum Seen {
    /// A try found the same word 1 before and after words 2 to 9, with an even generation other than 0.
    Whole {
        /// That generation.
        generation: u32,
        /// The record that words 2 to 9 stand for.
        rec: Record,
    },
    /// Every try failed, each by an odd generation or by another word 1 after the words.
    Busy {
        /// How many tries there were.
        tries: u16,
        /// The generation that the last try loaded first.
        first: u32,
        /// The generation that it loaded last; an odd first one stands in both places.
        last: u32,
    },
    /// A try loaded generation 0: nothing was ever published.
    NotInitialized,
}
