//! A trace: what the host, the daemon and the clients do in one run, and in which order.
use crate::clock_row::ClockRow;
use crate::list::List;
use generation_word::Layout;

/// Who takes a step: the host, which moves the clock and the page; the daemon; or one of the clients.
#[derive(Clone, Copy, Debug, PartialEq, Eq, Hash)]
pub enum Party {
    Host,
    Daemon,
    /// A client by its number, from 1 to `MOST_CLIENTS`.
    Client(u32),
}

/// One thing that the host does.
#[derive(Clone, Copy, Debug, PartialEq, Eq, Hash)]
pub enum HostRow {
    /// The clock goes on to the row with this number, from 1.
    Clock(u32),
    /// The page takes these words. Its own sequence count is never stored: the host counts by itself.
    Page([u64; 13]),
    /// The counter behind the clock is disrupted. No word tells it.
    Disrupt,
}

/// One poll of the daemon.
#[derive(Debug, Drop)]
pub struct PollRow {
    /// The bytes of chrony's reply, at most `MOST_REPLY_BYTES`. No bytes mean that no reply came.
    pub reply: List<u8>,
    /// After how many of the ten stores of this poll the daemon stops, from 0 to `MOST_STORES`; `None` where it goes
    /// on.
    pub stop: Option<u8>,
}

/// One call of a client.
#[derive(Clone, Copy, Debug, PartialEq, Eq, Hash)]
pub struct CallRow {
    /// The client's number, from 1 to `MOST_CLIENTS`.
    pub client: u32,
    /// How often the client tries to read the segment, and the page, from 1 to `MOST_TRIES`.
    pub tries: u16,
}

/// One line of the schedule.
#[derive(Clone, Copy, Debug, PartialEq, Eq, Hash)]
pub enum Turn {
    /// So many turns of this party.
    Run(Party, u32),
    /// Turns of this party until so many more of its jobs have ended.
    Jobs(Party, u32),
}

/// What one run is given.
#[derive(Debug, Drop)]
pub struct Trace {
    /// The greatest drift of the clock, in parts per billion.
    pub drift: u32,
    /// How often the daemon tries to read the page, from 1 to `MOST_TRIES`.
    pub tries: u16,
    /// The greatest number of a client, 1 where there is no call.
    pub clients: u32,
    /// The layout of the segment's header.
    pub layout: Layout,
    /// The segment's words at the start.
    pub image: [u64; 10],
    /// The page's words at the start, where there is a page.
    pub page: Option<[u64; 13]>,
    /// The rows of the clock.
    pub clock: List<ClockRow>,
    /// What the host does. The first clock row is the first of them, and in place at the start.
    pub host: List<HostRow>,
    /// The polls of the daemon.
    pub polls: List<PollRow>,
    /// The calls of all clients.
    pub calls: List<CallRow>,
    /// The schedule.
    pub turns: List<Turn>,
    /// Whose jobs the trace names, job by job: the order in which is done what the schedule leaves.
    pub order: List<Party>,
}
