use interval_now::Answer;
use segment_layout::Start;
use writer_reopen::Polled;

/// What one call of a running daemon or client came to.
#[derive(Clone, Copy, Debug, PartialEq, Eq)]
pub enum Line {
    /// The daemon opened the segment before this poll. `moved` is the even number of the move, where a record of version 2 was
    /// moved to layout 3.
    Opened {
        poll: u32,
        start: Start,
        moved: Option<u32>,
    },
    /// The daemon did this poll, counted from 1.
    Polled {
        poll: u32,
        polled: Polled,
    },
    /// A client's call has its answer. Clients are counted from 1, and the calls of each client from 1. `Lines` keeps the answer alone:
    /// its place tells the rest.
    Answered {
        client: u32,
        call: u32,
        answer: Answer,
    },
}
