/// What is judged of an answer that tells a time, with what the run tells of it. Clock rows, polls and host positions are
/// counted from 1; a host position is the number of host rows that are finished.
#[derive(Clone, Copy, Debug, PartialEq, Eq, Hash)]
pub struct Claim {
    /// How many publications were finished inside the read of the segment.
    pub inside: u64,
    /// The base poll that the publication names: the poll that its as-of and its bound come from; 0 where there is none.
    pub base: u32,
    /// The bound of the record, in nanoseconds, at most 2^62.
    pub bound: u64,
    /// The clock row that the base poll loaded second, after its reply.
    pub second: u32,
    /// The host position at which the base poll loaded the page's marker.
    pub marked_at: u32,
    /// The clock row that the client loaded.
    pub row: u32,
    /// The host position at which the client loaded the page's marker.
    pub mark_at: u32,
}
