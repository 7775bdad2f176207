ghost use Rattle.std.specs.Prelude.{◌≡◌};
ghost use Rattle.bound_order.specs.Ordering.{trusted_of};

use clock_gate::ClockStatus;
use interval_now::Interval;

/// An answer of a client's call.
#[derive(Clone, Copy, Debug, PartialEq, Eq)]
pub struct Told {
    /// The client's number, from 1 to 64.
    pub client: u32,
    /// The number of the call among those of this client, from 1.
    pub call: u32,
    /// There exactly where the call got an interval.
    pub interval: Option<Interval>,
    /// The true time of the clock row that the call read, where it is told, in nanoseconds since 1970-01-01T00:00:00Z.
    pub truth: Option<u64>,
}

// The interval of a trusted answer: one that is Synchronized or Free Running.
pub(crate) fn trusted(answer: &Told) -> Option<Interval>
    ensures { result ≡ trusted_of answer.now }
{
    match answer.interval {
        None => None,
        Some(interval) => match interval.status {
            ClockStatus::Synchronized | ClockStatus::FreeRunning => Some(interval),
            ClockStatus::Unknown | ClockStatus::Disrupted => None,
        },
    }
}
