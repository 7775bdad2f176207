/// What a step machine wants to do next with the shared words. Each act is one step that nothing divides.
///
/// The words are numbered: 0 to 9 are the segment, 10 to 22 the VMClock page, 23 is the number of clock rows done.
#[derive(Clone, Copy, Debug, PartialEq, Eq, Hash)]
pub enum Act {
    /// To load the word with this number.
    Load(u8),
    /// To store a value in the word with this number.
    Store(u8, u64),
    /// Nothing: the machine has ended.
    End,
}
