//! A page as 13 words, each little-endian in 8 of its bytes.
ghost use Rattle.std.specs.Prelude.{◌≡◌, ◌≢◌, ◌%◌, slice_index, IfOk, IfErr, OnOk};
ghost use Rattle.vmclock_page.specs.ClockPage.{ClockPage};
ghost use Rattle.clock_gate.specs.FirstFault.{first_fault};
ghost use Rattle.vmclock_page.specs.Page.{IsClockPage, tests, page_of, page_text};
ghost use Rattle.vmclock_page.specs.Words.{words_of, bytes_of_words, page_words, pads_of, count_in_word, ReadAsBytes};

use crate::fault::PageFault;
use crate::page::Page;
use crate::reading::read_page;
use crate::writing::write_page;
use byteorder::{ByteOrder, LittleEndian};

// The words that the bytes of a page hold.
fn words_in(bytes: &[u8; 104]) -> [u64; 13]
    ensures text { result ≡ words_of bytes.now }
    ensures same { page_of (bytes_of_words result) ≡ page_of bytes.now }
{
    let mut words = [0; 13];
    LittleEndian::read_u64_into(bytes, &mut words);
    words
}

/// The words of a page, with 0 in the two pad bytes. `from_words` gives the page back.
pub fn to_words(page: &Page) -> [u64; 13]
    ensures words { result ≡ page_words 0 page.now }
    ensures count { count_in_word (slice_index result 1) ≡ page.now.seq_count }
    // They are those of its bytes.
    ensures text { result ≡ words_of (page_text page.now) }
    ensures back { page_of (bytes_of_words result) ≡ Ok page.now }
{
    words_in(&write_page(page))
}

/// What the words of a page tell: what `read_page` gives for their bytes, of which there are always enough. So the
/// answer is never `Short`.
pub fn from_words(words: &[u64; 13]) -> Result<Page, PageFault>
    // What is read stands in the bytes of the words.
    ensures found { IfOk result (IsClockPage (bytes_of_words words.now)) }
    // What stands there is read.
    ensures only { (p : ClockPage) → IsClockPage (bytes_of_words words.now) p → result ≡ Ok p }
    // Else it is the first fault.
    ensures fault { IfErr result (λ f. first_fault (tests (bytes_of_words words.now)) ≡ Some f) }
    ensures never_short { result ≢ Err PageFault.Short }
    ensures exact { result ≡ page_of (bytes_of_words words.now) }

    // Each word is that of its fields, and the sequence count is the upper half of word 1.
    ensures words { IfOk result (λ p. words.now ≡ page_words (pads_of words.now) p) }
    ensures count { IfOk result (λ p. p.seq_count ≡ count_in_word (slice_index words.now 1)) }
    ensures even { OnOk result (count_in_word (slice_index words.now 1) % 2 ≡ 0) }

    // The words of a page's bytes are read as the bytes are.
    ensures same { ReadAsBytes words.now result }
{
    let mut bytes = [0; 104];
    LittleEndian::write_u64_into(words, &mut bytes);
    read_page(&bytes)
}
