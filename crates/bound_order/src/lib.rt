//! What intervals are for: stamps that agree with true time, and a lease that two clients never hold at once.
//!
//! `order` takes the answers of clients in the order in which they came, and says of each what commit wait and the one lease make
//! of it; `Ordering` takes them one by one. A trusted answer draws a stamp, its latest, and a later one of the same client ends the wait once its earliest exceeds
//! the stamp. A client is granted the lease once every earlier grant has ended, and acts while its latest is below the expiry. Each
//! step is what a look back over the answers before it gives (`specs/Ordering.antt`), and where truth lies in the intervals,
//! stamps follow true time and leases don't overlap (`specs/Promises.antt`; `order_laws` has it of any answers). Stands on
//! `clock_gate` and `interval_now`.
#![tactic(auto)]

mod kept;
mod lease;
mod ordering;
mod step;
mod told;
mod waiting;

pub use kept::order_laws;
pub use lease::{LONGEST_LEASE, Lease};
pub use ordering::{Ordering, order};
pub use step::Step;
pub use told::Told;
pub use waiting::Waiting;

#[cfg(test)]
mod tests;
