ghost use Rattle.std.specs.Prelude.{◌≡◌};
ghost use Rattle.status_machine.specs.Poll.{has_other_time};
ghost use Rattle.status_machine.specs.Step.{mode_is_disrupted, mode_next};

use candm_codec::RefTime;

/// How the daemon stands to the disruptions that it has seen.
#[derive(Clone, Copy, Debug, PartialEq, Eq)]
pub enum Mode {
    /// Each disruption is absorbed.
    Clear,
    /// Nothing is known of the marker before the first poll, so the next poll marks. There is a page.
    MustMark,
    /// A disruption isn't absorbed yet.
    Disrupted {
        /// The reference time of the first readable reply since it: a good reply with another one absorbs it.
        guard: Option<RefTime>,
    },
}

impl Mode {
    // Whether a disruption isn't absorbed yet.
    pub(crate) fn is_disrupted(&self) -> bool
        ensures { result ≡ mode_is_disrupted self.now }
    {
        matches!(self, Mode::Disrupted { .. })
    }

    // The mode after a poll: whether it marks, whether it is good, and the reference time of its reply.
    pub(crate) fn after(self, marks: bool, is_good: bool, reference: Option<RefTime>) -> Mode
        ensures { result ≡ mode_next marks self is_good reference }
    {
        if marks {
            return Mode::Disrupted { guard: reference };
        }
        match self {
            Mode::Clear | Mode::MustMark => Mode::Clear,
            Mode::Disrupted { guard: None } => Mode::Disrupted { guard: reference },
            Mode::Disrupted { guard: Some(guard) } => {
                if is_good && is_other_time(guard, reference) {
                    Mode::Clear
                } else {
                    self
                }
            }
        }
    }
}

fn is_other_time(guard: RefTime, reference: Option<RefTime>) -> bool
    ensures { result ≡ has_other_time guard reference }
{
    match reference {
        Some(time) => time != guard,
        None => false,
    }
}
