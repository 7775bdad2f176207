//! chrony's packed numbers, and the clock error bound that three of them give.
//!
//! A `Packed` is the 32-bit fraction of chrony's messages. `Packed::parts` takes it apart into a coefficient and a
//! power of two, `Packed::from_parts` puts it together (`specs/Packed.antt`).
//! `ceil_bound` is the least whole number of nanoseconds that is at least half the root delay, the root dispersion and
//! the absolute correction together, as exact fractions (`specs/ClockError.antt`). Any numbers of 32 bits are taken, no
//! rounding stands in between, and the answer is `None` exactly where the bound exceeds `LARGEST_BOUND`.
#![tactic(auto)]

mod clock_error;
mod packed;

pub use clock_error::{LARGEST_BOUND, ceil_bound};
pub use packed::Packed;

#[cfg(test)]
mod tests;
