ghost use Rattle.std.specs.Prelude.{◌≡◌};
ghost use Rattle.clock_gate.specs.ClockStatus.{code_of, status_of_code};

use std::fmt;

/// How far a time can be trusted. Source: ClockBound's README and PROTOCOL; the codes are those of its segment.
#[derive(Clone, Copy, Debug, PartialEq, Eq, Hash)]
pub enum ClockStatus {
    /// Nothing is known of the clock's error. Code 0.
    Unknown,
    /// The clock follows its source, and the bound holds. Code 1.
    Synchronized,
    /// The source is lost; the bound still grows with the drift. Code 2.
    FreeRunning,
    /// The clock was disrupted, as by a migration of its machine, and no reply has been trusted since. Code 3.
    Disrupted,
}

impl ClockStatus {
    /// The status as a segment's word holds it, from 0 to 3.
    pub fn code(self) -> i32
        ensures { result ≡ code_of self }
    {
        match self {
            ClockStatus::Unknown => 0,
            ClockStatus::Synchronized => 1,
            ClockStatus::FreeRunning => 2,
            ClockStatus::Disrupted => 3,
        }
    }

    /// The status with this code. `None` exactly where the code is outside 0 to 3.
    pub fn from_code(code: i32) -> Option<ClockStatus>
        ensures { result ≡ status_of_code code }
    {
        match code {
            0 => Some(ClockStatus::Unknown),
            1 => Some(ClockStatus::Synchronized),
            2 => Some(ClockStatus::FreeRunning),
            3 => Some(ClockStatus::Disrupted),
            _ => None,
        }
    }
}

impl fmt::Display for ClockStatus {
    ghost use Rattle.std.specs.Prelude.{Some};
    ghost use Rattle.clock_gate.specs.ClockStatus.{name_of};

    ghost output = { λ status. Some (name_of status) };

    #[tactic(auto, unfolding(crate::specs::ClockStatus::name_of))]
    fn fmt<W: fmt::Write>(&self, f: &mut fmt::Formatter<W>) -> fmt::Result {
        f.write_str(match self {
            ClockStatus::Unknown => "unknown",
            ClockStatus::Synchronized => "synchronized",
            ClockStatus::FreeRunning => "freerunning",
            ClockStatus::Disrupted => "disrupted",
        })
    }
}
