//! The step machine that reads the segment.
ghost use Rattle.std.specs.Prelude.{◌≡◌, ◌≢◌, ◌≤◌, ◌<◌, [], ◌∷◌, length, take, drop, replicate, IsNone, IsTrue, ◌↔◌};
ghost use Rattle.clock_gate.specs.declared.limits.TheConstants.{MOST_TRIES};
ghost use Rattle.clock_gate.specs.Acts.{IsLoadWithin, after};
ghost use Rattle.segment_layout.specs.Words.{AreGoodWords};
ghost use Rattle.seqlock.specs.Tries.{started, failed_try, with_value, IsStage};
ghost use Rattle.shm_reader.specs.SegmentTries.{segment_lock, record_in, act_of, given, end_of, steps_left, IsGoodLoad, AreGoodLoads, FailsOdd};
ghost use Rattle.generation_word.specs.Header.{generation_in};

use crate::seen::Seen;
use clock_gate::Act;
use generation_word::split_word1;
use segment_layout::{Record, from_words};
use std::marker::Model;

/// One read of the segment, in at most so many tries: a step machine, which wants one load at a time.
///
/// A try loads word 1, words 2 to 9 in order, and word 1 again. Contracts see the tries and the values of the try in hand.
#[derive(Debug, Drop)]
pub struct SegmentReader {
    tries: u16,
    left: u16,
    first: u32,
    last: u32,
    loaded: u8,
    loads: [u64; 10],
}

impl Model for SegmentReader {
    ghost use Rattle.std.specs.Prelude.{◌≤◌, ◌∷◌, take};
    ghost use Rattle.segment_layout.specs.Words.{AreGoodWords};
    ghost use Rattle.seqlock.specs.Tries.{SeqlockRead, IsStage};
    ghost use Rattle.shm_reader.specs.SegmentTries.{segment_lock, stands};

    ghost Value = { SeqlockRead };

    ghost view = { λ r. stands r.tries r.left r.first r.last r.loaded r.loads };

    ghost invariant = { λ r. (r.loaded ≤ 10) × AreGoodWords (0 ∷ take 9 r.loads) × IsStage segment_lock (stands r.tries r.left r.first r.last r.loaded r.loads) };
}

fn generation_in(word: u64) -> u32
    ensures { result ≡ generation_in word }
{
    split_word1(word).2
}

impl SegmentReader {
    /// A read with so many tries, from 1 to 1,000.
    pub fn new(tries: u16) -> SegmentReader
        requires some { 1 ≤ tries }
        requires most { tries ≤ MOST_TRIES }
        ensures value { result ≡ started tries }
        ensures stage { IsStage segment_lock result }
    {
        SegmentReader {
            tries,
            left: tries,
            first: 0,
            last: 0,
            loaded: 0,
            loads: [0; 10],
        }
    }

    /// The load that comes next, of a word from 1 to 9, or `End`.
    pub fn next(&self) -> Act
        ensures act { result ≡ act_of self.now }
        ensures loads { act_of self.now ≢ Act.End → IsLoadWithin 10 result }
    {
        if self.left == 0 {
            return Act::End;
        }
        if self.loaded == 0 {
            return Act::Load(1);
        }
        if generation_in(self.loads[0]) == 0 {
            return Act::End;
        }
        match self.loaded {
            9 => Act::Load(1),
            10 => Act::End,
            loaded => Act::Load(1 + loaded),
        }
    }

    /// Takes the value that the load found.
    pub fn give(&mut self, value: u64)
        requires open { act_of self.old ≢ Act.End }
        requires good { IsGoodLoad (act_of self.old) value }
        ensures value { self.new ≡ given self.old value }
        ensures stage { IsStage segment_lock self.new }
        ensures nearer { steps_left self.new < steps_left self.old }
    {
        match self.loaded {
            0 => self.give_first(value),
            9 => self.give_last(value),
            _ => self.keep(value),
        }
    }

    /// Whether words 2 to 9 come next, all eight.
    pub fn wants_words(&self) -> bool
        ensures { IsTrue result ↔ (act_of self.now ≡ Act.Load 2) }
    {
        if self.loaded != 1 {
            return false;
        }
        generation_in(self.loads[0]) != 0
    }

    /// Takes the values that the loads of words 2 to 9 found.
    pub fn give_words(&mut self, words: &[u64; 8])
        requires wanted { act_of self.old ≡ Act.Load 2 }
        requires good { AreGoodLoads words.now }
        ensures value { self.new ≡ after act_of given self.old words.now }
        ensures stage { IsStage segment_lock self.new }
        ensures next { act_of self.new ≡ Act.Load 1 }
        ensures nearer { steps_left self.new < steps_left self.old }
    {
        let header = self.loads[0];
        let [w2, w3, w4, w5, w6, w7, w8, w9] = *words;
        self.loads = [header, w2, w3, w4, w5, w6, w7, w8, w9, 0];
        self.loaded = 9;
    }

    /// Takes a word 1 with an odd generation as long as a try is left after it, at most so many times: how many, each of which fails a try.
    /// None where the generation is even, or a try has begun.
    pub fn fail_odd(&mut self, header: u64, most: u64) -> u64
        requires open { act_of self.old ≢ Act.End }
        ensures value { self.new ≡ after act_of given self.old (replicate result header) }
        ensures stage { IsStage segment_lock self.new }
        ensures open { act_of self.new ≢ Act.End }
        ensures fails { 0 < result → FailsOdd self.old header result }
        ensures most { result ≤ most }
    {
        if self.loaded != 0 {
            return 0;
        }
        let generation = generation_in(header);
        if generation % 2 != 1 {
            return 0;
        }
        let fails = u64::from(self.left - 1).min(most);
        if fails == 0 {
            return 0;
        }
        self.left -= fails as u16;
        self.first = generation;
        self.last = generation;
        fails
    }

    // The first value of a try: an odd generation fails it.
    fn give_first(&mut self, value: u64)
        requires open { act_of self.old ≢ Act.End }
        requires good { IsGoodLoad (act_of self.old) value }
        requires first { self.old.values ≡ [] }
        ensures { self.new ≡ given self.old value }
    {
        let generation = generation_in(value);
        if generation % 2 == 1 {
            self.fail(generation, generation);
        } else {
            self.keep(value);
        }
    }

    // The last value of a try: another word 1 fails it.
    fn give_last(&mut self, value: u64)
        requires open { act_of self.old ≢ Act.End }
        requires good { IsGoodLoad (act_of self.old) value }
        requires last { length self.old.values ≡ 9 }
        ensures { self.new ≡ given self.old value }
    {
        let header = self.loads[0];
        if header == value {
            self.keep(value);
        } else {
            self.fail(generation_in(header), generation_in(value));
        }
    }

    // The try in hand has one value more.
    fn keep(&mut self, value: u64)
        requires open { act_of self.old ≢ Act.End }
        requires good { IsGoodLoad (act_of self.old) value }
        requires kept { given self.old value ≡ with_value self.old value }
        ensures { self.new ≡ given self.old value }
    {
        self.loads[usize::from(self.loaded)] = value;
        self.loaded += 1;
    }

    // The try in hand has failed.
    fn fail(&mut self, first: u32, last: u32)
        requires { 0 < self.old.left }
        ensures { self.new ≡ failed_try self.old first last }
    {
        self.left -= 1;
        self.first = first;
        self.last = last;
        self.loaded = 0;
    }

    /// What the read has come to: `None` exactly while a load comes next.
    pub fn end(&self) -> Option<Seen>
        ensures value { result ≡ end_of self.now }
        ensures ended { IsNone result ↔ (act_of self.now ≢ Act.End) }
    {
        if self.left == 0 {
            return Some(Seen::Busy {
                tries: self.tries,
                first: self.first,
                last: self.last,
            });
        }
        if self.loaded == 0 {
            return None;
        }
        let generation = generation_in(self.loads[0]);
        if generation == 0 {
            return Some(Seen::NotInitialized);
        }
        if self.loaded < 10 {
            return None;
        }
        Some(Seen::Whole {
            generation,
            rec: rec_in(&self.loads),
        })
    }
}

// The record of a try that loaded everything.
fn rec_in(loads: &[u64; 10]) -> Record
    requires { AreGoodWords (0 ∷ take 9 loads.now) }
    ensures { result ≡ record_in (take 8 (drop 1 loads.now)) }
{
    let [header, w2, w3, w4, w5, w6, w7, w8, w9, _] = *loads;
    from_words(&[0, header, w2, w3, w4, w5, w6, w7, w8, w9])
}
