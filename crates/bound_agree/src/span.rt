ghost use Rattle.std.specs.Prelude.{◌≡◌, ◌↔◌, IsSome};
ghost use Rattle.bound_agree.specs.Span.{KeepsLimits, span_of};

use std::marker::Model;

/// How far an end of a span may lie from 0, on either side: 2^62.
pub const FARTHEST_END: i64 = 4_611_686_018_427_387_904;

/// The whole numbers from one end to the other, both ends belonging to it.
#[derive(Clone, Copy, Debug, PartialEq, Eq, Hash)]
pub struct Span {
    pub(crate) earliest: i64,
    pub(crate) latest: i64,
}

impl Model for Span {
    ghost use Rattle.bound_agree.specs.Span.{SpanEnds, KeepsLimits};

    ghost Value = { SpanEnds };

    ghost view = { λ s. record { earliest = s.earliest; latest = s.latest } };

    ghost invariant = { λ s. KeepsLimits s.earliest s.latest };

    ghost inverse = { λ e. record { earliest = e.earliest; latest = e.latest } };
}

impl Span {
    /// The span with these ends. `None` exactly where `earliest` exceeds `latest`, or an end lies outside -2^62 to 2^62.
    #[tactic(auto, unfolding(crate::specs::Span::span_of))]
    pub fn new(earliest: i64, latest: i64) -> Option<Span>
        ensures value { result ≡ span_of earliest latest }
        ensures found { IsSome result ↔ KeepsLimits earliest latest }
    {
        if latest < earliest {
            return None;
        }
        if earliest < -FARTHEST_END {
            return None;
        }
        if latest > FARTHEST_END {
            return None;
        }
        Some(Span { earliest, latest })
    }

    /// The least number of the span, from -2^62 on.
    pub fn earliest(&self) -> i64
        ensures value { result ≡ self.now.earliest }
        ensures limits { KeepsLimits self.now.earliest self.now.latest }
    {
        self.earliest
    }

    /// The greatest number of the span, at most 2^62.
    pub fn latest(&self) -> i64
        ensures value { result ≡ self.now.latest }
        ensures limits { KeepsLimits self.now.earliest self.now.latest }
    {
        self.latest
    }
}
