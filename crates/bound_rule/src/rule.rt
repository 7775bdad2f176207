ghost use Rattle.std.specs.Prelude.{◌≡◌, ◌≤◌, pos, IfOk};
ghost use Rattle.clock_gate.specs.declared.limits.TheConstants.{LAST_MOMENT};
ghost use Rattle.bound_rule.specs.GoodPoll.{assess_of, IsGoodAt};

use crate::good::Good;
use crate::unfit::Unfit;
use candm_codec::{Leap, Tracking};
use chrony_fraction::ceil_bound;
use clock_gate::{Reading, Stamp};

const VALID_NANOS: u64 = 1_000_000_000_000;

fn stamp_of(nanos: u64) -> Stamp
    ensures { result ≡ pos nanos }
{
    Stamp::from_nanos(i128::from(nanos)).unwrap()
}

/// What a reply bounds that was asked for at this reading. `NotSynchronised` comes exactly where its leap is
/// `Unsynchronised`, `BoundTooLarge` exactly where another reply's clock error bound exceeds 2^62 ns.
/// Source: chrony's documentation, "tracking".
pub fn assess(t: &Tracking, asked: Reading) -> Result<Good, Unfit>
    requires { asked.mono ≤ LAST_MOMENT }
    ensures value { result ≡ assess_of t.now asked.mono }
    ensures good { IfOk result (IsGoodAt asked.mono) }
{
    if t.leap == Leap::Unsynchronised {
        return Err(Unfit::NotSynchronised);
    }
    let Some(bound) = ceil_bound(t.root_delay, t.root_dispersion, t.current_correction) else {
        return Err(Unfit::BoundTooLarge);
    };
    Ok(Good {
        as_of: stamp_of(asked.mono),
        void_after: stamp_of(asked.mono + VALID_NANOS),
        bound: bound as i64,
    })
}
