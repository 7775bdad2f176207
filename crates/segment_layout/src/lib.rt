//! The segment that the daemon writes and its clients read: a record, and the ten words that stand for it.
//!
//! `to_words` spells a `Record` under a header of `generation_word`, `data_word` one word of it alone, and `from_words`
//! reads it back from words that each pass `word_ok`. `admit` says what ten words hold at a start: nothing yet, a whole
//! record, or a record that was left torn; else it names their first fault. `specs/History.antt` has what the crates
//! above say of a segment over time. Stands on `clock_gate`, `generation_word` and `byteorder`.
#![tactic(auto)]

mod history;
mod image;
mod image_fault;
mod limits;
mod publication;
mod record;
mod start;
mod words;

pub use history::segment_laws;
pub use image::{admit, image_words};
pub use image_fault::ImageFault;
pub use limits::{MOST_AS_OF_SECONDS, MOST_BOUND, MOST_DRIFT, MOST_VOID_AFTER_SECONDS};
pub use publication::Publication;
pub use record::Record;
pub use start::Start;
pub use words::{MAGIC, data_word, from_words, to_words, word_ok};

#[cfg(test)]
mod tests;
