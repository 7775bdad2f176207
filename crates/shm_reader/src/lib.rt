//! A client's read of the segment, as a step machine.
//!
//! `SegmentReader` wants one load at a time: word 1 with the generation, words 2 to 9, and word 1 again, in so many tries.
//! What it comes to, a whole record, tries that all failed, or that nothing was ever published, is what its tries come to by
//! all the values that it was given, and is told by its steps try by try (`segment_read_laws`). Word 1 is compared whole, so
//! a segment that was moved to another layout between the two loads fails the try. Stands on seqlock, which has the laws
//! of such tries, and on the words of segment_layout.
#![tactic(auto)]

mod laws;
mod reader;
mod seen;

pub use laws::segment_read_laws;
pub use reader::SegmentReader;
pub use seen::Seen;

#[cfg(test)]
mod tests;
