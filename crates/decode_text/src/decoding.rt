ghost use Rattle.std.specs.Prelude.{◌≡◌, ◌↔◌, length, IfOk, IfErr, IsOk, OnOk, IsErrOf};
ghost use Rattle.decode_text.specs.DecodeText.{decode_text, Answers, IsTextOf};
ghost use Rattle.decode_text.specs.declared.decode_error.DecodeError.TheVariants.{Hex};

use crate::decode_error::DecodeError;
use crate::digits::bytes_told;
use crate::image_lines::put_image_text;
use crate::page_lines::put_page_text;
use crate::reply_lines::put_reply_text;
use crate::what::What;
use clock_gate::List;
use std::alloc::Global;

// Room for every answer. The longest, of a reply whose numbers have all their digits, has 444 bytes.
const ANSWER_ROOM: usize = 512;

// The bytes of an image, of which there are exactly 80.
fn image_in(bytes: &[u8]) -> Result<[u8; 80], DecodeError>
    ensures whole { IfOk result (λ image. image ≡ bytes.now) }
    ensures found { IsOk result ↔ (length bytes.now ≡ 80) }
    ensures hex { IfErr result (λ e. e ≡ Hex) }
{
    if bytes.len() != 80 {
        return Err(DecodeError::Hex);
    }
    let mut image = [0; 80];
    image.copy_from_slice(bytes);
    Ok(image)
}

/// The text that tells of a reply, a page or an image, each line ended by a line feed.
///
/// The input is hexadecimal digits in either case, two a byte. Spaces, tabs, carriage returns and line feeds are
/// skipped wherever they stand. `Hex` is the answer exactly where there is another byte, an odd number of digits, or for
/// an image another number of bytes than 80, if memory is found. Bytes that are no reply, no page or no segment are
/// refused by one line of the text, and so with Ok. The format is this project's own.
#[tactic(auto, unfolding(crate::specs::DecodeText::decode_text))]
pub fn decode(alloc: Global, what: What, bytes: &[u8]) -> Result<List<u8>, DecodeError>
    ensures answer { Answers result (decode_text what bytes.now) }
    // What `Hex` and Ok say of the input.
    ensures hex { IsErrOf result DecodeError.Hex → ¬ IsTextOf what bytes.now }
    ensures ok { OnOk result (IsTextOf what bytes.now) }
{
    let told = bytes_told(alloc, bytes)?;
    let mut text = String::with_capacity(alloc, ANSWER_ROOM)?;
    match what {
        What::Reply => put_reply_text(alloc, &mut text, told.as_slice())?,
        What::Page => put_page_text(&mut text, told.as_slice())?,
        What::Image => put_image_text(&mut text, &image_in(told.as_slice())?)?,
    }
    Ok(List::from_vec(text.into_bytes()))
}
