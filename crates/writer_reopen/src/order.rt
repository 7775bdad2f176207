use generation_word::Layout;
use status_machine::{Daemon, Heard};

/// What a poll is begun with.
#[derive(Clone, Copy, Debug)]
pub struct Order {
    /// The daemon before the poll.
    pub daemon: Daemon,
    /// The layout of the segment.
    pub layout: Layout,
    /// The generation that stands in word 1.
    pub generation: u32,
    /// The number of the poll, from 1.
    pub number: u32,
    /// What came back from chronyd.
    pub heard: Heard,
    /// After how many stores the daemon stops, from 0 to 10; without it, not at all.
    pub stop: Option<u8>,
    /// The tries of the page, from 1 to 1,000.
    pub tries: u16,
}
