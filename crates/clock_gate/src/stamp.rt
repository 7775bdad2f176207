ghost use Rattle.std.specs.Prelude.{◌≡◌, ◌<◌, ◌↔◌, ◌+ℤ◌, ◌*ℤ◌, pos, IsSome, IfSome};
ghost use Rattle.clock_gate.specs.Stamp.{FitsStamp};
ghost use Rattle.clock_gate.specs.declared.stamp.TheConstants.{NANOS_PER_SECOND};

use std::marker::Model;

/// The nanoseconds of a second.
pub const NANOS_PER_SECOND: u32 = 1_000_000_000;

/// A moment in whole seconds and nanoseconds. Contracts see its number of nanoseconds, which may be negative.
#[derive(Clone, Copy, Debug, PartialEq, Eq, Hash)]
pub struct Stamp {
    sec: i64,
    nsec: u32,
}

impl Model for Stamp {
    ghost use Rattle.std.specs.Prelude.{◌<◌, ◌+ℤ◌, ◌*ℤ◌, pos, ℤ};
    ghost use Rattle.clock_gate.specs.Stamp.{whole_seconds, rest_nanos};
    ghost use Rattle.clock_gate.specs.StampFields.{rebuilt};

    ghost Value = { ℤ };

    ghost view = { λ s. s.sec *ℤ pos 1000000000 +ℤ pos s.nsec };

    ghost invariant = { λ s. s.nsec < 1000000000 };

    ghost inverse = { λ z. record { sec = whole_seconds z; nsec = rest_nanos z } };

    ghost inverse_ok = { λ a h. rebuilt a h };
}

impl Stamp {
    /// `None` exactly where `nsec` is a second or more.
    pub fn new(sec: i64, nsec: u32) -> Option<Stamp>
        ensures found { IsSome result ↔ (nsec < NANOS_PER_SECOND) }
        ensures value { IfSome result (λ s. s ≡ sec *ℤ pos NANOS_PER_SECOND +ℤ pos nsec) }
    {
        if nsec < NANOS_PER_SECOND {
            Some(Stamp { sec, nsec })
        } else {
            None
        }
    }

    /// The nanoseconds from the second 0 to this moment.
    pub fn nanos(self) -> i128
        ensures { result ≡ self }
    {
        i128::from(self.sec) * i128::from(NANOS_PER_SECOND) + i128::from(self.nsec)
    }

    /// The stamp with these nanoseconds. `None` exactly where its seconds leave `i64`.
    pub fn from_nanos(n: i128) -> Option<Stamp>
        ensures found { IsSome result ↔ FitsStamp n }
        ensures value { IfSome result (λ s. s ≡ n) }
    {
        let sec = n.div_euclid(1_000_000_000);
        let nsec = n.rem_euclid(1_000_000_000);
        let sec = i64::try_from(sec).ok()?;
        Some(Stamp {
            sec,
            nsec: nsec as u32,
        })
    }
}
