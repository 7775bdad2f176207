use crate::times::Times;
use decode_text::What;

/// What a command line asks for.
#[derive(Clone, Copy, Debug, PartialEq, Eq)]
pub enum Command {
    /// `replay` and `replay --civil`: the report of a trace.
    Replay(Times),
    /// `decode reply`, `decode page`, `decode image`: what hexadecimal text tells.
    Decode(What),
    /// `pagetime`: the time that pages and readings of their counters tell.
    Pagetime,
    /// `agree`: the points on which all but so many clocks agree.
    Agree,
    /// `audit`: the verdict on a report of threads against its trace.
    Audit,
    /// `order LENGTH`: stamps and leases by the answers of a trace, each lease so many nanoseconds long.
    Order { length: u64 },
    /// `drill SEED POLLS`: what the report of a generated day counts, and whether its promises were kept.
    Drill { seed: u64, polls: u32 },
    /// `drill SEED POLLS --trace`: the trace of that day.
    DrillTrace { seed: u64, polls: u32 },
}
