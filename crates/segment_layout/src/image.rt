ghost use Rattle.std.specs.Prelude.{◌≡◌, ℕ, ◌%◌, ◌^◌, ◌<◌, slice_index, IfOk, Ok};
ghost use Rattle.clock_gate.specs.FirstFault.{first_fault, unless};
ghost use Rattle.generation_word.specs.Header.{header_of};
ghost use Rattle.generation_word.specs.declared.layout.Layout.TheVariants.{Two};
ghost use Rattle.segment_layout.specs.Image.{IsHeaderFor, IsImageOf, has_magic, reads_version, header_tests, data_tests, start_at, image_of};
ghost use Rattle.segment_layout.specs.Words.{words_of_image};
ghost use Rattle.segment_layout.specs.declared.start.Start.{Start};

use crate::image_fault::ImageFault;
use crate::limits::{MOST_AS_OF_SECONDS, MOST_BOUND, MOST_DRIFT, MOST_VOID_AFTER_SECONDS};
use crate::start::Start;
use crate::words::{MAGIC, from_words};
use byteorder::{ByteOrder, LittleEndian};
use clock_gate::NANOS_PER_SECOND;
use generation_word::{LOW_HALF_THREE, Layout, split_word1};

/// The ten words of a segment's 80 bytes, each with its lowest byte first.
pub fn image_words(image: &[u8; 80]) -> [u64; 10]
    ensures { result ≡ words_of_image image.now }
{
    let mut words = [0; 10];
    LittleEndian::read_u64_into(image, &mut words);
    words
}

/// What ten words hold when a segment is opened, or their first fault in the order of `ImageFault`. Layout 3 reads
/// both layouts, layout 2 its own. The data words are looked at only where the generation is even and not 0. Source:
/// ClockBound's PROTOCOL; layout 3 and the order of the tests are this project's own.
#[tactic(auto, unfolding(crate::specs::Image::image_of))]
pub fn admit(words: &[u64; 10], layout: Layout) -> Result<Start, ImageFault>
    // What is admitted is what the words hold.
    ensures found { IfOk result (IsImageOf layout words.now) }
    // What they hold is admitted.
    ensures only { (start : Start) → IsImageOf layout words.now start → result ≡ Ok start }
    // Else it is the first fault.
    ensures exact { result ≡ image_of layout words.now }
    // An image of version 2 is read in one way.
    ensures version_two { (header_of (slice_index words.now 1)).1 ≡ 2 → result ≡ image_of Two words.now }
{
    if !has_magic(words) {
        return Err(ImageFault::Magic);
    }
    if words[1] == 0 {
        return Ok(Start::Fresh);
    }
    let generation = generation_for(layout, words[1])?;
    if generation == 0 {
        return Ok(Start::Fresh);
    }
    if generation % 2 == 1 {
        return Ok(Start::Torn(generation));
    }
    if let Some(fault) = data_fault(words) {
        return Err(fault);
    }
    Ok(Start::Kept(generation, from_words(words)))
}

// The magic, or no segment yet.
fn has_magic(words: &[u64; 10]) -> bool
    ensures { result ≡ has_magic words.now }
{
    words[0] == MAGIC || (words[0] == 0 && words[1] == 0)
}

// The generation of a header that the layout reads.
fn generation_for(layout: Layout, word: u64) -> Result<u32, ImageFault>
    ensures exact { result ≡ unless (first_fault (header_tests layout word)) (Ok (header_of word).2) }
    ensures found { IfOk result (IsHeaderFor layout word) }
{
    let (size, version, generation) = split_word1(word);
    if size != 80 {
        return Err(ImageFault::Size(size));
    }
    if !reads_version(layout, word, version) {
        return Err(ImageFault::Version(version));
    }
    Ok(generation)
}

fn reads_version(layout: Layout, word: u64, version: u16) -> bool
    requires { version ≡ (header_of word).1 }
    ensures { result ≡ reads_version layout word }
{
    match layout {
        Layout::Two => version == 2,
        Layout::Three => version == 2 || word % (1 << 32) == LOW_HALF_THREE,
    }
}

// The first fault of the data words.
fn data_fault(words: &[u64; 10]) -> Option<ImageFault>
    ensures { result ≡ first_fault (data_tests words.now) }
{
    if words[3] >= u64::from(NANOS_PER_SECOND) {
        return Some(ImageFault::Nanoseconds(3));
    }
    if words[5] >= u64::from(NANOS_PER_SECOND) {
        return Some(ImageFault::Nanoseconds(5));
    }
    if words[6] > MOST_BOUND {
        return Some(ImageFault::Bound(words[6].cast_signed()));
    }
    let drift = (words[8] % (1 << 32)) as u32;
    if drift > MOST_DRIFT {
        return Some(ImageFault::Drift(drift));
    }
    let status = (words[8] >> 32) as u32;
    if status > 3 {
        return Some(ImageFault::Status(status.cast_signed()));
    }
    if words[9] > 1 {
        return Some(ImageFault::Flag(words[9]));
    }
    if words[2] > MOST_AS_OF_SECONDS {
        return Some(ImageFault::Range(2));
    }
    if words[4] > MOST_VOID_AFTER_SECONDS {
        return Some(ImageFault::Range(4));
    }
    None
}
