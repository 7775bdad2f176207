//! The line that tells of a segment's image, or of its first fault. Each function appends its part of it.
ghost use Rattle.std.specs.Prelude.{◌≡◌, ◌++◌, OnOk};
ghost use Rattle.std.specs.String.{string_bytes};
ghost use Rattle.segment_layout.specs.Words.{flag_of};
ghost use Rattle.decode_text.specs.ImageLines.{moments_part, numbers_part, trust_part, kept_line, image_line, fault_name, fault_number, number_end, refused_image, layout_named, image_text};

use generation_word::{LOW_HALF_THREE, Layout};
use segment_layout::{ImageFault, Record, Start, admit, image_words};
use std::alloc::AllocError;

#[tactic(auto, unfolding(crate::specs::ImageLines::moments_part))]
fn put_moments(text: &mut String, generation: u32, rec: &Record) -> Result<(), AllocError>
    ensures { OnOk result (string_bytes text.new ≡ string_bytes text.old ++ moments_part generation rec.now) }
{
    let (as_of, void_after) = (rec.as_of().nanos(), rec.void_after().nanos());
    write!(text, "image,kept,{generation},{as_of},{void_after},")
}

#[tactic(auto, unfolding(crate::specs::ImageLines::numbers_part))]
fn put_numbers(text: &mut String, rec: &Record) -> Result<(), AllocError>
    ensures { OnOk result (string_bytes text.new ≡ string_bytes text.old ++ numbers_part rec.now) }
{
    let (bound, marker, drift) = (rec.bound(), rec.marker(), rec.drift());
    write!(text, "{bound},{marker},{drift},")
}

fn flag(support: bool) -> u8
    ensures { result ≡ flag_of support }
{
    u8::from(support)
}

#[tactic(auto, unfolding(crate::specs::ImageLines::trust_part))]
fn put_trust(text: &mut String, rec: &Record) -> Result<(), AllocError>
    ensures { OnOk result (string_bytes text.new ≡ string_bytes text.old ++ trust_part rec.now) }
{
    let (status, support) = (rec.status(), flag(rec.support()));
    write!(text, "{status},{support}\n")
}

#[tactic(auto, unfolding(crate::specs::ImageLines::kept_line))]
fn put_kept(text: &mut String, generation: u32, rec: &Record) -> Result<(), AllocError>
    ensures { OnOk result (string_bytes text.new ≡ string_bytes text.old ++ kept_line generation rec.now) }
{
    put_moments(text, generation, rec)?;
    put_numbers(text, rec)?;
    put_trust(text, rec)
}

#[tactic(auto, unfolding(crate::specs::ImageLines::image_line))]
fn put_start(text: &mut String, start: &Start) -> Result<(), AllocError>
    ensures { OnOk result (string_bytes text.new ≡ string_bytes text.old ++ image_line start.now) }
{
    match start {
        Start::Fresh => text.push_str("image,fresh\n"),
        Start::Torn(generation) => write!(text, "image,torn,{generation}\n"),
        Start::Kept(generation, rec) => put_kept(text, *generation, rec),
    }
}

#[tactic(auto, unfolding(crate::specs::ImageLines::fault_name))]
fn fault_name(fault: ImageFault) -> &'static str
    ensures { result.now ≡ fault_name fault }
{
    match fault {
        ImageFault::Magic => "magic",
        ImageFault::Size(_) => "size",
        ImageFault::Version(_) => "version",
        ImageFault::Nanoseconds(_) => "nanoseconds",
        ImageFault::Bound(_) => "bound",
        ImageFault::Drift(_) => "drift",
        ImageFault::Status(_) => "status",
        ImageFault::Flag(_) => "flag",
        ImageFault::Range(_) => "range",
    }
}

#[tactic(auto, unfolding(crate::specs::ImageLines::fault_number))]
fn fault_number(fault: ImageFault) -> Option<i128>
    ensures { result ≡ fault_number fault }
{
    match fault {
        ImageFault::Magic => None,
        ImageFault::Size(size) => Some(i128::from(size)),
        ImageFault::Version(version) => Some(i128::from(version)),
        ImageFault::Nanoseconds(word) => Some(i128::from(word)),
        ImageFault::Bound(bound) => Some(i128::from(bound)),
        ImageFault::Drift(drift) => Some(i128::from(drift)),
        ImageFault::Status(status) => Some(i128::from(status)),
        ImageFault::Flag(flag) => Some(i128::from(flag)),
        ImageFault::Range(word) => Some(i128::from(word)),
    }
}

#[tactic(auto, unfolding(crate::specs::ImageLines::number_end))]
fn put_end(text: &mut String, number: Option<i128>) -> Result<(), AllocError>
    ensures { OnOk result (string_bytes text.new ≡ string_bytes text.old ++ number_end number) }
{
    match number {
        Some(number) => write!(text, ",{number}\n"),
        None => text.push_str("\n"),
    }
}

#[tactic(auto, unfolding(crate::specs::ImageLines::refused_image))]
fn put_refused(text: &mut String, fault: ImageFault) -> Result<(), AllocError>
    ensures { OnOk result (string_bytes text.new ≡ string_bytes text.old ++ refused_image fault) }
{
    let name = fault_name(fault);
    write!(text, "refused,{name}")?;
    put_end(text, fault_number(fault))
}

// The layout that a header word names.
fn layout_named(word: u64) -> Layout
    ensures { result ≡ layout_named word }
{
    if word % (1 << 32) == LOW_HALF_THREE {
        Layout::Three
    } else {
        Layout::Two
    }
}

/// What 80 bytes tell as an image, appended to a text.
#[tactic(auto, unfolding(crate::specs::ImageLines::image_text))]
pub fn put_image_text(text: &mut String, image: &[u8; 80]) -> Result<(), AllocError>
    ensures { OnOk result (string_bytes text.new ≡ string_bytes text.old ++ image_text image.now) }
{
    let words = image_words(image);
    match admit(&words, layout_named(words[1])) {
        Ok(start) => put_start(text, &start),
        Err(fault) => put_refused(text, fault),
    }
}
