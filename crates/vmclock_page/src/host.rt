ghost use Rattle.std.specs.Prelude.{◌≡◌, ◌≢◌, ◌%◌, ◌<◌, slice_index_or};
ghost use Rattle.clock_gate.specs.Acts.{IsWithin};
ghost use Rattle.vmclock_page.specs.Rows.{IsStartPage, IsRowOf};
ghost use Rattle.vmclock_page.specs.Words.{word_with_count};
ghost use Rattle.vmclock_page.specs.Host.{IsHost, new_host, row_begun, act_of, given, IsActFor, stores_left, count_of, constants_of, count_after, page_stores, row_stores};

use crate::layout::{CLOCK_WORD, COUNT_WORD};
use crate::words::from_words;
use clock_gate::{Act, HostRow};
use std::marker::Model;

// The stores of a page row.
const PAGE_STORES: u8 = 13;

/// The host as a step machine: it does the rows of the clock and of the page, one store after another.
///
/// `begin` takes a row in hand; then `next` names a store and `give` says that it is made, until `next` is `End`.
/// Contracts see a `HostMachine` as where it stands: the words of the start page, the last even sequence count, the row in
/// hand and how many of its stores are made (`specs/Host.antt`).
#[derive(Clone, Copy, Debug, PartialEq, Eq)]
pub struct HostMachine {
    start: Option<[u64; 13]>,
    count: u32,
    row: Option<HostRow>,
    made: u8,
}

impl Model for HostMachine {
    ghost use Rattle.vmclock_page.specs.Host.{Host, IsHost};

    ghost Value = { Host };

    ghost view = { λ h. record { start = h.start; count = h.count; row = h.row; made = h.made } };

    ghost invariant = { λ h. IsHost (record { start = h.start; count = h.count; row = h.row; made = h.made }) };

    ghost inverse = { λ h. record { start = h.start; count = h.count; row = h.row; made = h.made } };
}

impl HostMachine {
    /// The host before its first row. `page` are the words of the start page, where there is one: words that
    /// `from_words` accepts.
    pub fn new(page: Option<[u64; 13]>) -> HostMachine
        requires accepted { IsStartPage page }
        ensures value { result ≡ new_host page }
        ensures kept { IsHost result }
    {
        HostMachine {
            start: page,
            count: start_count(&page),
            row: None,
            made: 0,
        }
    }

    /// Takes a row in hand, once the row before it is done. A page row is one that `from_words` accepts, with the
    /// constant fields of the start page, and comes only where there is a start page. Its own sequence count is not
    /// stored.
    pub fn begin(&mut self, row: &HostRow)
        requires ended { act_of self.old ≡ Act.End }
        requires row { IsRowOf self.old.start row.now }
        ensures value { self.new ≡ row_begun self.old row.now }
        ensures kept { IsHost self.new }
    {
        self.row = Some(*row);
        self.made = 0;
    }

    /// The store that comes next, or `End` where the row is done or none was taken.
    ///
    /// A clock row has one store, of its number in word 23. A page row has 13: word 11 with an odd sequence count, which
    /// is the last even one plus 1; words 12 to 22; and word 11 with the last even count plus 2, modulo 2^32. A
    /// disruption has none.
    pub fn next(&self) -> Act
        ensures act { result ≡ act_of self.now }
        ensures words { IsActFor self.now.row result }
        ensures within { IsWithin 24 result }
    {
        match self.row {
            None => Act::End,
            Some(row) => row_store(&row, constants(&self.start), self.count, self.made),
        }
    }

    /// Says that the store is made. The value is ignored.
    pub fn give(&mut self, value: u64)
        requires asked { act_of self.old ≢ Act.End }
        ensures value { self.new ≡ given self.old value }
        ensures kept { IsHost self.new }
        ensures falls { stores_left self.new < stores_left self.old }
    {
        let _ = value;
        self.made += 1;
        self.count = count_after(&self.row, self.made, self.count);
    }
}

// The sequence count of the start page.
fn start_count(page: &Option<[u64; 13]>) -> u32
    requires accepted { IsStartPage page.now }
    ensures count { result ≡ count_of page.now }
    ensures even { result % 2 ≡ 0 }
{
    match page {
        None => 0,
        Some(words) => match from_words(words) {
            Ok(page) => page.seq_count,
            Err(_) => unreachable!(),
        },
    }
}

// What never changes in word 1 of the page.
fn constants(page: &Option<[u64; 13]>) -> u32
    ensures { result ≡ constants_of page.now }
{
    match page {
        None => 0,
        Some(words) => (words[1] % 0x1_0000_0000) as u32,
    }
}

// Word 1 of the page with this sequence count.
fn count_word(constants: u32, count: u32) -> u64
    ensures { result ≡ word_with_count constants count }
{
    u64::from(constants) + u64::from(count) * 0x1_0000_0000
}

// A store of a row by how many were made before it.
fn row_store(row: &HostRow, constants: u32, count: u32, made: u8) -> Act
    ensures { result ≡ slice_index_or (row_stores constants count row.now) made Act.End }
{
    match row {
        HostRow::Clock(number) if made == 0 => Act::Store(CLOCK_WORD, u64::from(*number)),
        HostRow::Page(words) => page_store(words, constants, count, made),
        HostRow::Clock(_) | HostRow::Disrupt => Act::End,
    }
}

// A store of a page row by how many were made before it.
fn page_store(words: &[u64; 13], constants: u32, count: u32, made: u8) -> Act
    ensures { result ≡ slice_index_or (page_stores constants count words.now) made Act.End }
{
    match made {
        0 => Act::Store(COUNT_WORD, count_word(constants, count.wrapping_add(1))),
        12 => Act::Store(COUNT_WORD, count_word(constants, count.wrapping_add(2))),
        made if made < PAGE_STORES => Act::Store(COUNT_WORD + made, words[made as usize + 1]),
        _ => Act::End,
    }
}

// The last even sequence count after so many stores of a row.
fn count_after(row: &Option<HostRow>, made: u8, count: u32) -> u32
    requires even { count % 2 ≡ 0 }
    ensures count { result ≡ count_after row.now made count }
    ensures even { result % 2 ≡ 0 }
{
    match row {
        Some(HostRow::Page(_)) if made == PAGE_STORES => count.wrapping_add(2),
        _ => count,
    }
}
