//! A line of text that is made from its end to its front.
//!
//! A number is written before what stands there, its last digit first, so that no place of it has to be known before. What is
//! made is appended to a text once. Stands on the kit's `itoa` for the digits.
#![tactic(auto)]

mod line;

pub use line::{BackwardLine, LINE_ROOM};

#[cfg(test)]
mod tests;
