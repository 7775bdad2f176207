//! The generation of a segment: the number that word 1 holds, even at rest and odd while a record is written.
//!
//! A `Layout` says how many bits the number has. `generation` gives the even number at a position, that is after so
//! many publications, and `next_pair` the two numbers that the next publication stores; `word1` puts a number into a
//! segment's header word, and `split_word1` takes the word apart. Fewer publications than a period apart, equal
//! numbers mean equal positions: that is what a reader rests on (`numbering_laws`). Stands on std alone.
#![tactic(auto)]

mod header;
mod layout;
mod numbering;

pub use header::{LOW_HALF_THREE, header_laws, split_word1, word1};
pub use layout::Layout;
pub use numbering::{generation, next_pair, numbering_laws, odd_of, position_of};

#[cfg(test)]
mod tests;
