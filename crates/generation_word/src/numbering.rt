ghost use Rattle.std.specs.Prelude.{◌≡◌, ◌≢◌, ℕ, ◌+◌, ◌*◌, ◌/◌, ◌%◌, ◌<◌, ◌≤◌};
ghost use Rattle.generation_word.specs.Layout.{period_of};
ghost use Rattle.generation_word.specs.Numbering.{generation_at, odd_after, after_odd, even_after, IsLeastPosition};

use crate::layout::Layout;

/// The even number at a position, that is after so many publications: 0 at position 0, then 2, 4 and so on, and 2
/// again after the last number of the period. Source: ClockBound's PROTOCOL; the periods are this project's own.
pub fn generation(layout: Layout, position: u64) -> u32
    ensures value { result ≡ generation_at (period_of layout) position }
    ensures most { result ≤ 2 * period_of layout }
{
    if position == 0 {
        return 0;
    }
    let place = (position - 1) % layout.period();
    (2 * place + 2) as u32
}

/// The odd number while the publication after this position is written: one more than the even one.
pub fn odd_of(layout: Layout, position: u64) -> u32
    ensures value { result ≡ generation_at (period_of layout) position + 1 }
    ensures most { result ≤ 2 * period_of layout + 1 }
{
    generation(layout, position) + 1
}

/// The least position with this number; for an odd number the least that the update may have begun from.
pub fn position_of(generation: u32) -> u64
    ensures value { result ≡ generation / 2 }
    ensures at_rest { (period p : ℕ) → 0 < period → generation ≡ generation_at period p → IsLeastPosition period generation result }
    ensures in_update { (period p : ℕ) → 0 < period → generation ≡ generation_at period p + 1 → IsLeastPosition period (generation_at period p) result }
{
    u64::from(generation / 2)
}

/// The odd and the even number that the next publication stores, from the number that stands there: an odd one was
/// left by an update that was abandoned, and is kept.
pub fn next_pair(layout: Layout, generation: u32) -> (u32, u32)
    requires { generation ≤ 2 * period_of layout + 1 }
    ensures odd { result.0 ≡ odd_after generation }
    ensures even { result.1 ≡ even_after (period_of layout) generation }

    // From the number of a position, and from the odd number of an update that began there.
    ensures at_rest { (p : ℕ) → generation ≡ generation_at (period_of layout) p → (result.0 ≡ generation + 1) × (result.1 ≡ generation_at (period_of layout) (p + 1)) }
    ensures in_update { (p : ℕ) → generation ≡ generation_at (period_of layout) p + 1 → (result.0 ≡ generation) × (result.1 ≡ generation_at (period_of layout) (p + 1)) }

    ensures most_odd { result.0 ≤ 2 * period_of layout + 1 }
    ensures most_even { result.1 ≤ 2 * period_of layout }
{
    let odd = odd_after(generation);
    (odd, after_odd(layout, odd))
}

// The number itself where it is odd, else the one after it.
fn odd_after(generation: u32) -> u32
    ensures { result ≡ odd_after generation }
{
    if generation % 2 == 1 {
        return generation;
    }
    generation + 1
}

// The even number that ends the update of this odd one.
fn after_odd(layout: Layout, odd: u32) -> u32
    requires { odd ≤ 2 * period_of layout + 1 }
    ensures { result ≡ after_odd (period_of layout) odd }
{
    if u64::from(odd) == 2 * layout.period() + 1 {
        return 2;
    }
    odd + 1
}

/// What the numbering promises, for every period.
pub fn numbering_laws()
    ensures even { (period p : ℕ) → generation_at period p % 2 ≡ 0 }
    ensures most { (period p : ℕ) → 0 < period → generation_at period p ≤ 2 * period }
    ensures positive { (period p : ℕ) → 0 < p → 0 < generation_at period p }

    // The two numbers of the next publication, from the number of a position and from its odd one.
    ensures at_rest { (period p : ℕ) → 0 < period → (odd_after (generation_at period p) ≡ generation_at period p + 1) × (even_after period (generation_at period p) ≡ generation_at period (p + 1)) }
    ensures in_update { (period p : ℕ) → 0 < period → (odd_after (generation_at period p + 1) ≡ generation_at period p + 1) × (even_after period (generation_at period p + 1) ≡ generation_at period (p + 1)) }

    // Fewer publications than a period apart, equal numbers mean equal positions.
    ensures one_position { (period p q : ℕ) → 0 < p → p ≤ q → q < p + period → generation_at period p ≡ generation_at period q → p ≡ q }
{}
