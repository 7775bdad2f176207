ghost use Rattle.std.specs.Prelude.{◌≡◌};
ghost use Rattle.segment_layout.specs.Image.{generation_of_start};

use crate::record::Record;

/// What a segment holds when it is opened.
#[derive(Clone, Copy, Debug, PartialEq, Eq)]
pub enum Start {
    /// Nothing was published yet.
    Fresh,
    /// A record that was published whole, with its generation, which is even and not 0.
    Kept(u32, Record),
    /// An update was abandoned, with its generation, which is odd; the data words may belong to two records.
    Torn(u32),
}

impl Start {
    /// The generation that the segment holds, 0 for a fresh one.
    pub fn generation(&self) -> u32
        ensures { result ≡ generation_of_start self.now }
    {
        match self {
            Start::Fresh => 0,
            Start::Kept(generation, _) => *generation,
            Start::Torn(generation) => *generation,
        }
    }
}
