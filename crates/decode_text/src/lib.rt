//! Hexadecimal text told in words: chrony's tracking reply, a VMClock page, and the image of a segment.
//!
//! `decode` takes the digits for bytes, reads these as `candm_codec`, `vmclock_page` and `segment_layout` read them, and
//! gives the lines that tell of the reply, the page or the image, or of its first fault. Its answer is `decode_text` of
//! `specs/DecodeText.antt`, byte for byte. Stands on these three, on `chrony_fraction` for the bound of a reply, and on
//! `hex`.
#![tactic(auto)]

mod decode_error;
mod decoding;
mod digits;
mod image_lines;
mod page_lines;
mod reply_lines;
mod what;

pub use decode_error::DecodeError;
pub use decoding::decode;
pub use what::What;

#[cfg(test)]
mod tests;
