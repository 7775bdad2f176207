ghost use Rattle.std.specs.Prelude.{◌≡◌, ◌≤◌, int_lt};
ghost use Rattle.bound_order.specs.Ordering.{IsNear, expiry_of, lease_after, lease_by_interval};
ghost use Rattle.bound_order.specs.declared.lease.TheConstants.{LONGEST_LEASE};

use interval_now::Interval;

/// The longest lease, in nanoseconds: some 31 years.
pub const LONGEST_LEASE: u64 = 1_000_000_000_000_000_000;

/// What an answer does to the one lease.
#[derive(Clone, Copy, Debug, PartialEq, Eq)]
pub enum Lease {
    /// The answer isn't trusted.
    Untrusted,
    /// The client holds the lease from now on, until this expiry, in nanoseconds since 1970-01-01T00:00:00Z.
    Grant(i128),
    /// The client holds the lease, and acts under it.
    Act,
    /// Another client may still hold the lease, or this one's own may have ended.
    Deny,
}

// The client that holds the lease, and until when.
#[derive(Clone, Copy, Debug, PartialEq, Eq)]
pub(crate) struct Holder {
    pub client: u32,
    pub expiry: i128,
}

fn expiry(interval: &Interval, length: u64) -> i128
    requires near { IsNear interval.now }
    requires length { length ≤ LONGEST_LEASE }
    ensures { result ≡ expiry_of length interval.now }
{
    interval.latest + i128::from(length)
}

// A lease has ended where an answer's earliest exceeds its expiry.
fn has_ended(holder: &Holder, interval: &Interval) -> bool
    ensures { result ≡ int_lt holder.now.expiry interval.now.earliest }
{
    holder.expiry < interval.earliest
}

// What a trusted answer does to the lease.
pub(crate) fn lease_turn(
    held: &Option<Holder>,
    client: u32,
    interval: &Interval,
    length: u64,
) -> Lease
    requires near { IsNear interval.now }
    requires length { length ≤ LONGEST_LEASE }
    ensures { result ≡ lease_by_interval length held.now client interval.now }
{
    match held {
        None => Lease::Grant(expiry(interval, length)),
        Some(holder) => {
            if has_ended(holder, interval) {
                return Lease::Grant(expiry(interval, length));
            }
            if holder.client == client && interval.latest < holder.expiry {
                return Lease::Act;
            }
            Lease::Deny
        }
    }
}

// Who holds the lease then.
pub(crate) fn next_holder(
    held: &Option<Holder>,
    client: u32,
    interval: &Interval,
    length: u64,
) -> Option<Holder>
    requires near { IsNear interval.now }
    requires length { length ≤ LONGEST_LEASE }
    ensures { result ≡ lease_after length held.now client interval.now }
{
    match held {
        None => Some(Holder {
            client,
            expiry: expiry(interval, length),
        }),
        Some(holder) => {
            if has_ended(holder, interval) {
                return Some(Holder {
                    client,
                    expiry: expiry(interval, length),
                });
            }
            Some(*holder)
        }
    }
}
