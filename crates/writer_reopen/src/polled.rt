use segment_layout::Publication;
use status_machine::Daemon;

/// What a poll came to.
#[derive(Clone, Copy, Debug, PartialEq, Eq)]
pub enum Polled {
    /// The even number was stored. The stop was 10, and then the caller gives the daemon up, or there was none.
    Published {
        /// The daemon after the poll.
        daemon: Daemon,
        /// What was published.
        publication: Publication,
    },
    /// Each try of the page met an odd sequence count first, or another one last. Nothing was stored, the daemon goes on
    /// as it was, and a stop isn't carried out.
    Skipped {
        /// The first sequence count of the last try.
        first: u32,
        /// The last one of that try, or the odd first one.
        last: u32,
    },
    /// The daemon stopped after so many stores, from 0 to 9, as it was told.
    Stopped {
        /// The stores that were made.
        stores: u8,
    },
}
