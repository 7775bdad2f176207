ghost use Rattle.std.specs.Prelude.{◌≡◌, ◌<◌, ◌≤◌};
ghost use Rattle.generation_word.specs.Layout.{version_of, period_of};

/// The layout of a segment's header word. Source: ClockBound's PROTOCOL for layout 2; layout 3 is this project's own.
#[derive(Clone, Copy, Debug, PartialEq, Eq, Hash)]
pub enum Layout {
    /// Version 2, with a generation of 16 bits.
    Two,
    /// Version 3, with a generation of 32 bits.
    Three,
}

impl Layout {
    /// The version that the header names: 2 or 3.
    pub fn version(self) -> u16
        ensures { result ≡ version_of self }
    {
        match self {
            Layout::Two => 2,
            Layout::Three => 3,
        }
    }

    /// How many publications in a row have even numbers of their own: 32,767 or 2,147,483,647.
    pub fn period(self) -> u64
        ensures value { result ≡ period_of self }
        ensures least { 0 < result }
        ensures most { result ≤ 2147483647 }
    {
        match self {
            Layout::Two => 32_767,
            Layout::Three => 2_147_483_647,
        }
    }
}
