ghost use Rattle.std.specs.Prelude.{◌≡◌, ◌↔◌, ◌≤◌, ◌^◌, ◌≤ℤ◌, pos, IsSome, IfSome};
ghost use Rattle.segment_layout.specs.Record.{KeepsBounds};

use crate::limits::{LAST_AS_OF, LAST_VOID_AFTER, MOST_BOUND, MOST_DRIFT};
use clock_gate::{ClockStatus, Stamp};
use std::marker::Model;

/// What the daemon tells its clients at one moment. Source: ClockBound's PROTOCOL.
#[derive(Clone, Copy, Debug, PartialEq, Eq)]
pub struct Record {
    as_of: Stamp,
    void_after: Stamp,
    bound: i64,
    marker: u64,
    drift: u32,
    status: ClockStatus,
    support: bool,
}

impl Model for Record {
    ghost use Rattle.segment_layout.specs.Record.{RecordFields, KeepsBounds};

    ghost Value = { RecordFields };

    ghost view = { λ r. record { as_of = r.as_of; void_after = r.void_after; bound = r.bound; marker = r.marker; drift = r.drift; status = r.status; support = r.support } };

    ghost invariant = { λ r. KeepsBounds r.as_of r.void_after r.bound r.drift };

    ghost inverse = { λ f. record { as_of = f.as_of; void_after = f.void_after; bound = f.bound; marker = f.marker; drift = f.drift; status = f.status; support = f.support } };
}

impl Record {
    /// A record of these fields. `None` exactly where one of them leaves its range: as-of from 0 to 4,000,000,000 whole
    /// seconds, void-after from 0 to 4,000,001,000, the bound from 0 to 2^62 ns, the drift to 1,000,000,000 ppb.
    pub fn new(
        as_of: Stamp,
        void_after: Stamp,
        bound: i64,
        marker: u64,
        drift: u32,
        status: ClockStatus,
        support: bool,
    ) -> Option<Record>
        ensures found { IsSome result ↔ KeepsBounds as_of void_after bound drift }
        ensures value { IfSome result (λ r. r ≡ record { as_of = as_of; void_after = void_after; bound = bound; marker = marker; drift = drift; status = status; support = support }) }
    {
        if as_of.nanos() < 0 || as_of.nanos() > LAST_AS_OF {
            return None;
        }
        if void_after.nanos() < 0 || void_after.nanos() > LAST_VOID_AFTER {
            return None;
        }
        if bound < 0 || bound > MOST_BOUND as i64 || drift > MOST_DRIFT {
            return None;
        }
        Some(Record {
            as_of,
            void_after,
            bound,
            marker,
            drift,
            status,
            support,
        })
    }

    /// The monotonic time from which on the bound holds.
    pub fn as_of(&self) -> Stamp
        ensures value { result ≡ self.now.as_of }
        ensures low { pos 0 ≤ℤ result }
        ensures high { result ≤ℤ pos 4000000000999999999 }
    {
        self.as_of
    }

    /// The monotonic time from which on the record says nothing.
    pub fn void_after(&self) -> Stamp
        ensures value { result ≡ self.now.void_after }
        ensures low { pos 0 ≤ℤ result }
        ensures high { result ≤ℤ pos 4000001000999999999 }
    {
        self.void_after
    }

    /// How far the clock may be off at as-of, in nanoseconds from 0 to 2^62.
    pub fn bound(&self) -> i64
        ensures value { result ≡ self.now.bound }
        ensures low { pos 0 ≤ℤ result }
        ensures high { result ≤ℤ pos (2 ^ 62) }
    {
        self.bound
    }

    /// How fast the bound grows, in parts per billion from 0 to 1,000,000,000.
    pub fn drift(&self) -> u32
        ensures value { result ≡ self.now.drift }
        ensures high { result ≤ 1000000000 }
    {
        self.drift
    }

    /// The page's disruption marker that the daemon has seen, or 0 without a page.
    pub fn marker(&self) -> u64
        ensures { result ≡ self.now.marker }
    {
        self.marker
    }

    /// How far the bound could be trusted when it was published.
    pub fn status(&self) -> ClockStatus
        ensures { result ≡ self.now.status }
    {
        self.status
    }

    /// Whether the daemon looks at a page for disruptions.
    pub fn support(&self) -> bool
        ensures { result ≡ self.now.support }
    {
        self.support
    }
}
