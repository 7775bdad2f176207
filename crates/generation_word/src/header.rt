ghost use Rattle.std.specs.Prelude.{◌≡◌, ◌≢◌, ℕ, ◌+◌, ◌*◌, ◌/◌, ◌%◌, ◌^◌, ◌<◌, ◌≤◌};
ghost use Rattle.generation_word.specs.Layout.{version_of, period_of};
ghost use Rattle.generation_word.specs.Header.{word1_of, header_of};
ghost use Rattle.generation_word.specs.declared.header.TheConstants.{LOW_HALF_THREE};
ghost use Rattle.generation_word.specs.declared.layout.Layout.{Layout};
ghost use Rattle.generation_word.specs.declared.layout.Layout.TheVariants.{Two, Three};

use crate::layout::Layout;

/// The low half of a header in layout 3: size 80 and version 3, 16 bits each.
pub const LOW_HALF_THREE: u64 = 80 + (3 << 16);

/// Word 1 of a segment: its size in bytes, 80, the version and the generation. In layout 2 they have 32, 16 and 16
/// bits from the lowest on, in layout 3 16, 16 and 32. Source: ClockBound's PROTOCOL; layout 3 is this project's own.
pub fn word1(layout: Layout, generation: u32) -> u64
    requires { generation ≤ 2 * period_of layout + 1 }
    ensures { result ≡ word1_of layout generation }
{
    match layout {
        Layout::Two => 80 + (2 << 32) + (u64::from(generation) << 48),
        Layout::Three => LOW_HALF_THREE + (u64::from(generation) << 32),
    }
}

/// The size, the version and the generation of a header word, read in layout 3 exactly where its low half is that of
/// layout 3, and else in layout 2.
pub fn split_word1(word: u64) -> (u32, u16, u32)
    ensures { result ≡ header_of word }
{
    if word % (1 << 32) == LOW_HALF_THREE {
        return (80, 3, (word >> 32) as u32);
    }
    let size = (word % (1 << 32)) as u32;
    let version = ((word >> 32) % (1 << 16)) as u16;
    (size, version, (word >> 48) as u32)
}

/// What header words promise.
pub fn header_laws()
    // A header that was made tells what it was made of.
    ensures told { (layout : Layout) (g : ℕ) → g ≤ 2 * period_of layout + 1 → header_of (word1_of layout g) ≡ (80, version_of layout, g) }

    // What tells size 80 and version 2, or has the low half of layout 3, was made so.
    ensures made_two { (word g : ℕ) → word < 2 ^ 64 → header_of word ≡ (80, 2, g) → (g < 2 ^ 16) × (word ≡ word1_of Two g) }
    ensures made_three { (word : ℕ) → word % 2 ^ 32 ≡ LOW_HALF_THREE → word ≡ word1_of Three (word / 2 ^ 32) }

    // Other numbers make other words, and so do other layouts.
    ensures one_number { (layout : Layout) (g h : ℕ) → word1_of layout g ≡ word1_of layout h → g ≡ h }
    ensures apart { (g h : ℕ) → word1_of Two g ≢ word1_of Three h }
{}
