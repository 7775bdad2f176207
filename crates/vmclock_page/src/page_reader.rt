ghost use Rattle.std.specs.Prelude.{◌≡◌, ◌≢◌, ◌≤◌, ◌<◌, ◌%◌, ◌↔◌, [], ◌∷◌, None};
ghost use Rattle.clock_gate.specs.declared.limits.TheConstants.{MOST_TRIES};
ghost use Rattle.clock_gate.specs.Acts.{IsWithin};
ghost use Rattle.seqlock.specs.Tries.{started, failed_try, IsStage, steps_left};
ghost use Rattle.vmclock_page.specs.Words.{count_in_word};
ghost use Rattle.vmclock_page.specs.PageRead.{page_lock, act_of, given, end_of, IsPageLoad};

use crate::layout::{COUNT_WORD, MARKER_WORD};
use crate::page_seen::PageSeen;
use clock_gate::Act;
use std::marker::Model;

// The words that the try in hand has loaded.
#[derive(Clone, Copy, Debug, PartialEq, Eq)]
enum Loaded {
    Nothing,
    // The word with the count, which is even.
    Count(u64),
    // That word, and the marker.
    Marker(u64, u64),
    // The word with the count again, with the same count.
    Whole(u64, u64, u64),
}

/// A read of the page's marker as a step machine, in so many tries.
///
/// One try loads word 11, which holds the sequence count, then word 12, the marker, and then word 11 again. An odd count
/// fails the try at once, since the page is being updated; another count in the end fails it too, since the marker may be of
/// another page. The first try that does not fail ends the read. Contracts see a `PageReader` as where the read stands: the
/// tries, those that have not failed, the two counts of the last that failed, and the words that the try in hand has loaded
/// (`SeqlockRead` of clock_gate).
#[derive(Clone, Copy, Debug, PartialEq, Eq)]
pub struct PageReader {
    tries: u16,
    left: u16,
    first: u32,
    last: u32,
    loaded: Loaded,
}

impl Model for PageReader {
    ghost use Rattle.std.specs.Prelude.{◌≡◌, ◌≤◌, ◌%◌};
    ghost use Rattle.seqlock.specs.Tries.{SeqlockRead};
    ghost use Rattle.vmclock_page.specs.PageRead.{page_lock};
    ghost use Rattle.vmclock_page.specs.Loaded.{loaded_values, values_loaded, IsLoaded};

    ghost Value = { SeqlockRead };

    ghost view = { λ r. record { tries = r.tries; left = r.left; first = r.first; last = r.last; values = loaded_values r.loaded } };

    ghost invariant = { λ r. IsLoaded r.left r.loaded };

    ghost inverse = { λ r. record { tries = r.tries; left = r.left; first = r.first; last = r.last; loaded = values_loaded r.values } };
}

impl PageReader {
    /// A read with this many tries, from 1 to `MOST_TRIES`.
    pub fn new(tries: u16) -> PageReader
        requires some { 0 < tries }
        requires most { tries ≤ MOST_TRIES }
        ensures value { result ≡ started tries }
        ensures stage { IsStage page_lock result }
    {
        PageReader {
            tries,
            left: tries,
            first: 0,
            last: 0,
            loaded: Loaded::Nothing,
        }
    }

    /// The load that comes next, of word 11 or 12, or `End` where the read has ended.
    pub fn next(&self) -> Act
        ensures act { result ≡ act_of self.now }
        ensures page { IsPageLoad result }
        ensures within { IsWithin 24 result }
    {
        if self.left == 0 {
            return Act::End;
        }
        match self.loaded {
            Loaded::Nothing => Act::Load(COUNT_WORD),
            Loaded::Count(_) => Act::Load(MARKER_WORD),
            Loaded::Marker(_, _) => Act::Load(COUNT_WORD),
            Loaded::Whole(_, _, _) => Act::End,
        }
    }

    /// Takes the word that was loaded.
    pub fn give(&mut self, value: u64)
        requires asked { act_of self.old ≢ Act.End }
        ensures value { self.new ≡ given self.old value }
        ensures stage { IsStage page_lock self.new }
        ensures falls { steps_left page_lock self.new < steps_left page_lock self.old }
    {
        let loaded = self.loaded;
        match loaded {
            Loaded::Nothing => self.begin(value),
            Loaded::Count(first) => self.loaded = Loaded::Marker(first, value),
            Loaded::Marker(first, marker) => self.finish(first, marker, value),
            Loaded::Whole(_, _, _) => {}
        }
    }

    /// What the read came to; `None` exactly while `next` is not `End`.
    ///
    /// `Marker` comes exactly where a try met an even count twice, with that marker between; `Busy` exactly where each of the
    /// tries met an odd count first or another count last, with the counts of the last try. The law `page_read_laws`
    /// says so of all the words that were given.
    pub fn end(&self) -> Option<PageSeen>
        ensures value { result ≡ end_of self.now }
        ensures none { (result ≡ None) ↔ (act_of self.now ≢ Act.End) }
    {
        if self.left == 0 {
            return Some(PageSeen::Busy {
                first: self.first,
                last: self.last,
            });
        }
        match self.loaded {
            Loaded::Whole(first, marker, _) => Some(PageSeen::Marker {
                marker,
                sequence: count_in(first),
            }),
            Loaded::Nothing | Loaded::Count(_) | Loaded::Marker(_, _) => None,
        }
    }

    // The first load of a try.
    fn begin(&mut self, value: u64)
        requires tries { 0 < self.old.left }
        requires none { self.old.values ≡ [] }
        ensures { self.new ≡ given self.old value }
    {
        if count_in(value) % 2 == 1 {
            self.fail(count_in(value), count_in(value));
        } else {
            self.loaded = Loaded::Count(value);
        }
    }

    // The last load of a try.
    fn finish(&mut self, first: u64, marker: u64, last: u64)
        requires tries { 0 < self.old.left }
        requires two { self.old.values ≡ first ∷ marker ∷ [] }
        requires even { count_in_word first % 2 ≡ 0 }
        ensures { self.new ≡ given self.old last }
    {
        if count_in(first) == count_in(last) {
            self.loaded = Loaded::Whole(first, marker, last);
        } else {
            self.fail(count_in(first), count_in(last));
        }
    }

    // The try has failed by these sequence counts.
    fn fail(&mut self, first: u32, last: u32)
        requires { 0 < self.old.left }
        ensures { self.new ≡ failed_try self.old first last }
    {
        self.left -= 1;
        self.first = first;
        self.last = last;
        self.loaded = Loaded::Nothing;
    }
}

// The sequence count in word 11.
fn count_in(word: u64) -> u32
    ensures { result ≡ count_in_word word }
{
    (word / 0x1_0000_0000) as u32
}
