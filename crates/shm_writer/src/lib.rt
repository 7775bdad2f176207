//! The daemon's side of a segment: the ten stores by which one record is published.
//!
//! A `Publisher` is a step machine. It stores the odd number in word 1, the record's words 2 to 9, and the even number in
//! word 1, so that a reader that meets the same even number before and after its loads has one whole record. The act that
//! it wants next is that of the list of its stores (`specs/Publisher.antt`), at the number of those made; after ten it has
//! ended. Stands on `clock_gate`, `generation_word` for the two numbers and `segment_layout` for the words.
#![tactic(auto)]

mod law;
mod publisher;

pub use law::publisher_laws;
pub use publisher::Publisher;

#[cfg(test)]
mod tests;
