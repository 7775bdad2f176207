//! The VMClock page: from bytes or words to a `Page` and back, how the host stores it, and how its marker is read.
//!
//! A page has 104 bytes, or 13 words of 64 bits, all little-endian. The layout is this project's own, written after
//! vmclock-abi.h, and claims nothing of the bytes of a real device. `read_page` and `from_words` accept exactly the
//! pages of `specs/Page.antt` and answer the first fault of all else; `write_page` and `to_words` write what these
//! read back. `page_number` counts pages by their sequence counts. `has_constants_of` compares what never changes.
//!
//! `HostMachine` does the rows of the clock and of the page store by store, with an odd sequence count while a page is
//! written; `host_laws` says what its stores come to. `PageReader` reads the marker load by load, and takes it only under an
//! even sequence count that has not changed; `page_read_laws` says what a read comes to by all that it loaded. Stands on
//! `clock_gate`, for the acts of machines, `seqlock`, for reads under a number, and `byteorder`.
#![tactic(auto)]

mod constants;
mod counting;
mod fault;
mod host;
mod layout;
mod machine_laws;
mod numbers;
mod page;
mod page_reader;
mod page_seen;
mod reading;
mod words;
mod writing;

pub use constants::has_constants_of;
pub use counting::page_number;
pub use fault::PageFault;
pub use host::HostMachine;
pub use machine_laws::{host_laws, page_read_laws};
pub use page::Page;
pub use page_reader::PageReader;
pub use page_seen::PageSeen;
pub use reading::read_page;
pub use words::{from_words, to_words};
pub use writing::write_page;

#[cfg(test)]
mod machine_tests;
#[cfg(test)]
mod tests;
