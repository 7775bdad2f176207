//! Where a client call stands.
use crate::answers::Answer;
use clock_gate::Reading;
use segment_layout::Record;
use shm_reader::SegmentReader;
use vmclock_page::PageReader;

/// Where a client call stands: in the tries to read the segment, before the clock, in the tries to read the page, or at its
/// end.
#[derive(Debug, Drop)]
pub enum Stage {
    Segment(SegmentReader),
    Clock {
        generation: u32,
        rec: Record,
    },
    Page {
        generation: u32,
        rec: Record,
        reading: Reading,
        reader: PageReader,
    },
    Done(Answer),
}
