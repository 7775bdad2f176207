use csv_records::Reason;

/// How a command ended. Its exit status stands beside each.
#[derive(Clone, Copy, Debug, PartialEq, Eq, Hash)]
pub enum Status {
    /// The source was read to its end, and the whole output was written. 0.
    Ok,
    /// This word of the command line, from 1, is the first that isn't allowed; a missing word counts as the one after the
    /// last. 2.
    Usage(u32),
    /// This record of the input, from 1, is the first that is refused, and this is its first reason. 3.
    Trace { line: u32, reason: Reason },
    /// The source failed. 4.
    Read,
    /// The sink failed; what was written is a front of the output. 5.
    Write,
    /// The source gave more than 16,777,216 bytes. 6.
    TooLong,
    /// No memory was found. 7.
    Memory,
}
