ghost use Rattle.std.specs.Prelude.{◌≡◌, ◌≤◌, IfSome};
ghost use Rattle.clock_gate.specs.declared.limits.TheConstants.{LAST_MOMENT};
ghost use Rattle.status_machine.specs.Poll.{base_of_poll, BaseFits};

use crate::base::Base;
use crate::heard::Heard;
use bound_rule::assess;
use clock_gate::Reading;

/// One poll: when chronyd was asked, the page's disruption marker then, and what came back.
#[derive(Clone, Copy, Debug, PartialEq, Eq)]
pub struct Poll {
    /// The number of the poll, from 1.
    pub number: u32,
    /// The clock when chronyd was asked.
    pub reading: Reading,
    /// The marker of the page, where there is one.
    pub marker: Option<u64>,
    /// What came back.
    pub heard: Heard,
}

impl Poll {
    // The base that a good poll gives: its reply is readable, it is synchronised, and its clock error bound is at most
    // 2^62 ns. `None` exactly where the poll isn't good.
    #[tactic(auto, unfolding(crate::specs::Poll::base_of_poll))]
    pub(crate) fn good_base(&self) -> Option<Base>
        requires { self.now.reading.mono ≤ LAST_MOMENT }
        ensures value { result ≡ base_of_poll self.now }
        ensures fits { IfSome result BaseFits }
    {
        match &self.heard {
            Heard::Reply(tracking) => match assess(tracking, self.reading) {
                Ok(good) => Some(Base {
                    as_of: good.as_of,
                    bound: good.bound,
                    poll: self.number,
                }),
                Err(_) => None,
            },
            Heard::Missing | Heard::Refused(_) => None,
        }
    }
}
