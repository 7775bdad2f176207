use lawful_report::Seen;

/// The kind of line that stands next.
#[derive(Clone, Copy, Debug, PartialEq, Eq)]
pub enum Due {
    /// The first line.
    Heading,
    Opening,
    /// The move of an opening.
    Moving,
    Polling,
    /// The stop after all stores of a poll.
    Stopping,
    /// The answer to the call at this place, by what the client of the call before has seen; past the last call the counts.
    Answering { seen: Seen, place: usize },
    /// None.
    Finished,
}
