//! The tests of the counts: `Wrap` and `Image`.
ghost use Rattle.std.specs.Prelude.{◌≡◌};
ghost use Rattle.generation_word.specs.Layout.{period_of};
ghost use Rattle.promise_judge.specs.Promises.{on_image_of, wrap_of};

use crate::claim::Claim;
use generation_word::Layout;

pub(crate) fn wrap_fault(layout: Layout, claim: Claim) -> Option<u64>
    ensures { result ≡ wrap_of (period_of layout) claim }
{
    if layout.period() <= claim.inside {
        Some(claim.inside)
    } else {
        None
    }
}

pub(crate) fn image_fault(claim: Claim) -> Option<u64>
    ensures { result ≡ on_image_of claim }
{
    if claim.base == 0 { Some(0) } else { None }
}
