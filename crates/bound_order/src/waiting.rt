ghost use Rattle.std.specs.Prelude.{◌≡◌};
ghost use Rattle.bound_order.specs.Ordering.{wait_of, waiting_after};

use interval_now::Interval;

/// What commit wait makes of an answer. A stamp is in nanoseconds since 1970-01-01T00:00:00Z.
#[derive(Clone, Copy, Debug, PartialEq, Eq)]
pub enum Waiting {
    /// The answer isn't trusted.
    Pass,
    /// The client had no stamp that waits: this one is drawn, the answer's latest, and waits from now on.
    Stamp(i128),
    /// The wait of this stamp has ended: the answer's earliest exceeds it.
    Done(i128),
    /// The client's stamp goes on waiting.
    Hold,
}

// What a trusted answer makes of the stamp of its client.
pub(crate) fn wait(waiting: Option<i128>, interval: &Interval) -> Waiting
    ensures { result ≡ wait_of waiting interval.now }
{
    match waiting {
        None => Waiting::Stamp(interval.latest),
        Some(stamp) => {
            if stamp < interval.earliest {
                Waiting::Done(stamp)
            } else {
                Waiting::Hold
            }
        }
    }
}

// The stamp that waits then.
pub(crate) fn next_waiting(waiting: Option<i128>, interval: &Interval) -> Option<i128>
    ensures { result ≡ waiting_after waiting interval.now }
{
    match waiting {
        None => Some(interval.latest),
        Some(stamp) => {
            if stamp < interval.earliest {
                None
            } else {
                Some(stamp)
            }
        }
    }
}
