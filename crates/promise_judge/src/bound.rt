//! The test `Bound`.
ghost use Rattle.std.specs.Prelude.{◌≡◌};
ghost use Rattle.promise_judge.specs.Promises.{bound_of};

use crate::claim::Claim;
use crate::offsets::{offset_size, row};
use clock_gate::ClockRow;

pub(crate) fn bound_fault(clock: &[ClockRow], claim: Claim) -> Option<u64>
    ensures { result ≡ bound_of clock.now claim }
{
    let second = row(clock, u64::from(claim.second));
    if u128::from(claim.bound) < offset_size(second) {
        Some(u64::from(claim.second))
    } else {
        None
    }
}
