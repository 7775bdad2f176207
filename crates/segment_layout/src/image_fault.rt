/// Why ten words are no segment: the first fault in this order. `Nanoseconds` and `Range` have the number of the word
/// at fault, the others what stands there.
#[derive(Clone, Copy, Debug, PartialEq, Eq, Hash)]
pub enum ImageFault {
    /// Word 0 is not the magic, and words 0 and 1 are not both 0.
    Magic,
    /// The header's size is not 80.
    Size(u32),
    /// The header's version is not one that the layout reads.
    Version(u16),
    /// Word 3 or else word 5 is not below a second.
    Nanoseconds(u8),
    /// The bound, word 6, is not from 0 to 2^62 ns.
    Bound(i64),
    /// The drift, the low half of word 8, is above 1,000,000,000 parts per billion.
    Drift(u32),
    /// The status, the high half of word 8, is not a code from 0 to 3.
    Status(i32),
    /// The support flag, word 9, is neither 0 nor 1.
    Flag(u64),
    /// The whole seconds of as-of, word 2, or else those of void-after, word 4, leave their range.
    Range(u8),
}
