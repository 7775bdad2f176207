//! A first try of the segment, read whole, and the machine that goes on from there.
ghost use Rattle.std.specs.Prelude.{◌≡◌, ◌≤◌, length, IsTrue, ◌↔◌};
ghost use Rattle.clock_gate.specs.declared.limits.TheConstants.{MOST_TRIES, MOST_HOST_ROWS};
ghost use Rattle.clock_gate.specs.declared.act.Act.TheVariants.{Load};
ghost use Rattle.clock_gate.specs.Acts.{after};
ghost use Rattle.clock_gate.specs.ClockRow.{IsClock};
ghost use Rattle.generation_word.specs.Header.{generation_in};
ghost use Rattle.seqlock.specs.Tries.{IsCalm};
ghost use Rattle.shm_reader.specs.SegmentTries.{segment_lock, record_in, AreGoodLoads};
ghost use Rattle.interval_now.specs.Call.{started_call, act_of, given};

use crate::now::NowMachine;
use clock_gate::ClockRow;
use generation_word::split_word1;
use segment_layout::{Record, from_words};

fn generation_in(word: u64) -> u32
    ensures { result ≡ generation_in word }
{
    split_word1(word).2
}

/// Whether a try loads words 2 to 9 after this word 1: its generation is even, and not 0.
pub fn is_calm(header: u64) -> bool
    ensures { IsTrue result ↔ IsCalm segment_lock header }
{
    let generation = generation_in(header);
    if generation == 0 {
        return false;
    }
    generation % 2 == 0
}

// The record that words 2 to 9 stand for.
fn record_in(words: &[u64; 8]) -> Record
    requires { AreGoodLoads words.now }
    ensures { result ≡ record_in words.now }
{
    let [w2, w3, w4, w5, w6, w7, w8, w9] = *words;
    from_words(&[0, 0, w2, w3, w4, w5, w6, w7, w8, w9])
}

/// The generation and the record of a try that found the same word 1 before and after these words 2 to 9.
pub fn record_read(header: u64, words: &[u64; 8]) -> (u32, Record)
    requires { AreGoodLoads words.now }
    ensures generation { result.0 ≡ generation_in header }
    ensures rec { result.1 ≡ record_in words.now }
{
    (generation_in(header), record_in(words))
}

impl NowMachine {
    /// A call of so many tries that was given this word 1 first.
    pub fn after_header(tries: u16, support: bool, header: u64, clock: &[ClockRow]) -> NowMachine
        requires some { 1 ≤ tries }
        requires most { tries ≤ MOST_TRIES }
        requires rows { length clock.now ≤ MOST_HOST_ROWS }
        requires moments { IsClock clock.now }
        ensures { result ≡ given clock.now (started_call tries support) header }
    {
        let mut machine = NowMachine::new(tries, support);
        machine.give(header, clock);
        machine
    }

    /// The same, with words 2 to 9 after it.
    pub fn after_words(
        tries: u16,
        support: bool,
        header: u64,
        words: &[u64; 8],
        clock: &[ClockRow],
    ) -> NowMachine
        requires some { 1 ≤ tries }
        requires most { tries ≤ MOST_TRIES }
        requires calm { IsCalm segment_lock header }
        requires good { AreGoodLoads words.now }
        requires rows { length clock.now ≤ MOST_HOST_ROWS }
        requires moments { IsClock clock.now }
        ensures value { result ≡ after act_of (given clock.now) (given clock.now (started_call tries support) header) words.now }
        ensures next { act_of result ≡ Load 1 }
    {
        let mut machine = NowMachine::after_header(tries, support, header, clock);
        machine.give_words(words);
        machine
    }
}
