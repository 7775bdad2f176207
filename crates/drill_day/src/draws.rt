//! The numbers that a day draws.
ghost use Rattle.std.specs.Prelude.{◌≡◌, ◌<◌, ◌^◌};
ghost use Rattle.drill_day.specs.Draws.{after_rounds, after_two, draw_of, next_number, second_draw_of};

/// The number after this one.
#[tactic(auto, unfolding(crate::specs::Draws::next_number))]
pub fn next_number(x: u64) -> u64
    ensures { result ≡ next_number x }
{
    x.wrapping_mul(6_364_136_223_846_793_005)
        .wrapping_add(1_442_695_040_888_963_407)
}

/// The draw after this number, of 31 bits.
#[tactic(auto, unfolding(crate::specs::Draws::draw_of))]
pub fn draw_of(x: u64) -> u32
    ensures { result ≡ draw_of x }
{
    (next_number(x) >> 33) as u32
}

/// The draw after that one.
pub fn second_draw_of(x: u64) -> u32
    ensures { result ≡ second_draw_of x }
{
    draw_of(next_number(x))
}

/// The number after two draws.
pub fn after_two(x: u64) -> u64
    ensures { result ≡ after_two x }
{
    next_number(next_number(x))
}

/// The number after so many rounds of two draws.
pub fn after_rounds(x: u64, count: u32) -> u64
    ensures { result ≡ after_rounds x count }
{
    let mut last = x;
    'rounds: for _round in 0..count {
        last = after_two(last);
    }
    last
}
