ghost use Rattle.std.specs.Prelude.{◌≡◌, ◌≤◌, ◌*◌, ◌^◌, ◌≤ℤ◌, ◌+ℤ◌, pos, neg_ℤ, unsigned_abs, IfSome, IfNone};
ghost use Rattle.chrony_fraction.specs.Packed.{units_above_zero, units_of_size};
ghost use Rattle.chrony_fraction.specs.ClockError.{error_units, ceil_nanos, Covers, IsClockErrorBound, clock_error_bound};
ghost use Rattle.chrony_fraction.specs.declared.clock_error.TheConstants.{LARGEST_BOUND};

use crate::packed::Packed;

/// The largest clock error bound that this project works with, in nanoseconds: 2^62, about 146 years.
pub const LARGEST_BOUND: u64 = 1 << 62;

const NANOS_PER_SEC: u128 = 1_000_000_000;

/// The clock error bound in whole nanoseconds: half the root delay, the root dispersion and the absolute correction,
/// all in seconds, added exactly and rounded up once. A negative delay or dispersion counts as 0 (this project's rule).
/// `None` exactly where the bound exceeds `LARGEST_BOUND`. Source: chrony's documentation, "tracking".
#[tactic(auto, unfolding(crate::specs::ClockError::clock_error_bound))]
pub fn ceil_bound(delay: Packed, dispersion: Packed, correction: Packed) -> Option<u64>
    ensures least { IfSome result
        (IsClockErrorBound (error_units delay.0 dispersion.0 correction.0)) }
    ensures within { IfSome result (λ bound. bound ≤ LARGEST_BOUND) }
    ensures exact { result ≡ clock_error_bound (error_units delay.0 dispersion.0 correction.0) }
    ensures over { IfNone result
        (¬ Covers LARGEST_BOUND (error_units delay.0 dispersion.0 correction.0)) }
{
    let bound = ceil_nanos(error_units(delay, dispersion, correction)?);
    if bound <= u128::from(LARGEST_BOUND) {
        Some(bound as u64)
    } else {
        None
    }
}

// Units of 2^-90 s in whole nanoseconds, rounded up. The whole seconds are taken first, since all of the units times
// 10^9 would pass 128 bits.
fn ceil_nanos(units: u128) -> u128
    ensures least { IsClockErrorBound units result }
    ensures exact { result ≡ ceil_nanos units }
{
    let seconds = units >> 90;
    let part = units % (1 << 90);
    NANOS_PER_SEC * seconds + (NANOS_PER_SEC * part).div_ceil(1 << 90)
}

// Half the delay, the dispersion and the absolute correction, in units of 2^-90. None where they pass 128 bits.
fn error_units(delay: Packed, dispersion: Packed, correction: Packed) -> Option<u128>
    ensures value { IfSome result (λ n. n ≡ error_units delay.0 dispersion.0 correction.0) }
    ensures over { IfNone result (2 ^ 128 ≤ error_units delay.0 dispersion.0 correction.0) }
{
    let whole = units_above_zero(dispersion)?.checked_add(units_of_size(correction)?)?;
    units_above_zero(delay)?.checked_add(whole.checked_mul(2)?)
}

// The value of a number above 0, in units of 2^-89, and 0 of another.
fn units_above_zero(number: Packed) -> Option<u128>
    ensures value { IfSome result (λ n. n ≡ units_above_zero number.0) }
    ensures over { IfNone result (2 ^ 128 ≤ units_above_zero number.0) }
{
    let (coefficient, power) = number.parts();
    scaled(coefficient.max(0) as u32, power)
}

// The absolute value of a number, in units of 2^-89.
fn units_of_size(number: Packed) -> Option<u128>
    ensures value { IfSome result (λ n. n ≡ units_of_size number.0) }
    ensures over { IfNone result (2 ^ 128 ≤ units_of_size number.0) }
{
    let (coefficient, power) = number.parts();
    scaled(coefficient.unsigned_abs(), power)
}

// A size times a power of two, in units of 2^-89.
fn scaled(size: u32, power: i32) -> Option<u128>
    requires low { neg_ℤ (pos 89) ≤ℤ power }
    requires high { power ≤ℤ pos 38 }
    ensures value { IfSome result (λ n. n ≡ size * 2 ^ unsigned_abs (power +ℤ pos 89)) }
    ensures over { IfNone result (2 ^ 128 ≤ size * 2 ^ unsigned_abs (power +ℤ pos 89)) }
{
    let shift = (power + 89) as u32;
    u128::from(size).checked_mul(1 << shift)
}
