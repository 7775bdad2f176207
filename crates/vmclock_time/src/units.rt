//! Sums in units of 2^-104 s, in which every number of a page is whole.
ghost use Rattle.std.specs.Prelude.{◌≡◌, ◌+◌, ◌-◌, ◌*◌, ◌/◌, ◌^◌, ◌<◌, ◌≤◌, pos, neg_ℤ, ◌*ℤ◌, ◌≤ℤ◌};
ghost use Rattle.vmclock_time.specs.Units.{floor_of, finer};

// The whole nanoseconds of less than a second, rounded down. 10^9 is 2^9 * 1,953,125.
fn nanos_below_a_second(units: u128) -> u32
    requires { units < 2 ^ 104 }
    ensures value { result ≡ 1_000_000_000 * units / 2 ^ 104 }
    ensures small { result < 1_000_000_000 }
{
    (units * 1_953_125 / (1 << 95)) as u32
}

/// The whole nanoseconds of so many units, rounded down.
#[tactic(auto, using(crate::proofs::Floors::seconds_apart))]
pub fn whole_nanos(units: i128) -> i128
    requires low { neg_ℤ (pos (2 ^ 126)) ≤ℤ units }
    requires high { units ≤ℤ pos (2 ^ 126) }
    ensures value { result ≡ floor_of (units *ℤ pos 1_000_000_000) }
    ensures low { neg_ℤ (pos (2 ^ 54)) ≤ℤ result }
    ensures high { result ≤ℤ pos (2 ^ 54) }
{
    let seconds = units.div_euclid(1 << 104);
    let rest = units.rem_euclid(1 << 104);
    1_000_000_000 * seconds + i128::from(nanos_below_a_second(rest as u128))
}

fn units_of(shift: u8) -> u128
    requires { shift ≤ 40 }
    ensures { result ≡ 2 ^ (40 - shift) }
{
    1 << (40 - shift)
}

/// A word of 2^-(64 + shift) s for each tick.
#[tactic(auto, using(crate::proofs::Floors::finer_small))]
pub fn spent(shift: u8, word: u64, ticks: u64) -> u128
    requires shift { shift ≤ 40 }
    requires near { ticks * word ≤ 2 ^ (84 + shift) }
    ensures value { result ≡ finer shift (ticks * word) }
    ensures small { result ≤ 2 ^ 124 }
{
    let product = u128::from(ticks) * u128::from(word);
    product * units_of(shift)
}
