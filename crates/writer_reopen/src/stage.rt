use clock_gate::Reading;
use segment_layout::Publication;
use shm_writer::Publisher;
use status_machine::Daemon;
use vmclock_page::PageReader;

/// The shared word that holds the number of the last clock row.
pub const CLOCK_WORD: u8 = 23;

/// What a try of the page met.
#[derive(Clone, Copy, Debug)]
pub struct Sight {
    /// The page's disruption marker.
    pub marker: u64,
    /// Its sequence count, which is even.
    pub sequence: u32,
}

/// What a poll makes of its reply.
#[derive(Clone, Copy, Debug)]
pub struct Taken {
    /// The daemon after the poll.
    pub daemon: Daemon,
    /// What is published.
    pub publication: Publication,
}

/// Where a poll stands, with what it was given so far.
#[derive(Clone, Copy, Debug)]
pub enum Stage {
    /// It asks for the clock before the reply.
    Asking,
    /// It has the first reading, and looks for the page's marker.
    Looking(Reading, PageReader),
    /// It asks for the clock when the reply is taken. With support there is a sight of the page.
    Taking(Reading, Option<Sight>),
    /// It publishes what it took.
    Storing(Taken, Publisher),
}
