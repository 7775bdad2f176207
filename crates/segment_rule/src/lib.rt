//! The 24 shared words under the rule of `segment_views`, and the seats that step on them.
//!
//! `HostTable::new` makes the table and the seats of the host, the daemon and a client. Each call runs the step machine that also
//! `replay` runs, one step of the table for each of its acts, in whatever order threads take them; no call takes memory or waits.
//! A client's whole call makes its first tries without the machine, which is given their loads where one fails.
//! What a call leaves is told of the view of its own seat: the host's rows and pages, the daemon's history and point, and of daemon
//! and clients all calls with their loads and stores.
#![tactic(auto)]

mod client;
mod daemon;
mod host;
mod laws;
mod loads;
mod plays;
mod settle;
mod table;
mod whole_call;

pub use client::ClientSeat;
pub use daemon::DaemonSeat;
pub use host::HostSeat;
pub use laws::answer_laws;
pub use plays::{Announced, AnnouncedPage, WordsRule};
pub use table::HostTable;

#[cfg(test)]
mod client_page_tests;
#[cfg(test)]
mod client_tests;
#[cfg(test)]
mod further_tests;
#[cfg(test)]
mod stop_tests;
#[cfg(test)]
mod tests;
