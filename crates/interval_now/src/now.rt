//! A client call, as a step machine.
ghost use Rattle.std.specs.Prelude.{◌≡◌, ◌≢◌, [], ◌≤◌, ◌<◌, ◌+◌, ◌*◌, ℕ, List, length, replicate, IfOk, IfSome, IsNone, IsTrue, IsFalse, Some, None, ◌↔◌};
ghost use Rattle.clock_gate.specs.declared.limits.TheConstants.{LAST_MOMENT, MOST_TRIES, MOST_HOST_ROWS};
ghost use Rattle.clock_gate.specs.Acts.{IsLoadWithin, after};
ghost use Rattle.clock_gate.specs.ClockRow.{IsClock};
ghost use Rattle.clock_gate.specs.declared.clock_row.ClockRow.{ClockRow};
ghost use Rattle.seqlock.specs.Tries.{SeqlockRead};
ghost use Rattle.shm_reader.specs.SegmentTries.{IsGoodLoad, AreGoodLoads};
ghost use Rattle.shm_reader.specs.SegmentTries as segment;
ghost use Rattle.vmclock_page.specs.PageRead as page;
ghost use Rattle.interval_now.specs.Interval.{KeepsEnds};
ghost use Rattle.interval_now.specs.Call.{started_call, paged, timed, answer_of, act_of, act_at, end_of, given, after_segment, after_clock, after_page, stage_given, tried, words_given, followed, steps_at, steps_left, IsStage, IsEarly, IsRowNumber, IsRowAt, TriesOn, HasEnded, StageFailsOdd, AnswerKeepsEnds, StageKeepsEnds};

use crate::answers::{Answer, Causality, Interval, Timed};
use crate::rule::interval;
use crate::stage::Stage;
use clock_gate::{Act, ClockRow, Reading, reading};
use segment_layout::Record;
use shm_reader::{Seen, SegmentReader};
use std::marker::Model;
use vmclock_page::{PageReader, PageSeen};

/// The shared word that counts the clock rows done.
const CLOCK_WORD: u8 = 23;

/// One client call: a step machine, which wants one load at a time.
///
/// It reads the segment in at most so many tries, loads the clock, reads the page in at most so many tries where there is
/// one, and then gives the interval. Contracts see the stage that it has come to, with what the read in hand was given.
#[derive(Debug, Drop)]
pub struct NowMachine {
    tries: u16,
    support: bool,
    stage: Stage,
}

impl Model for NowMachine {
    ghost use Rattle.interval_now.specs.Call.{Call, IsCall, StageKeepsEnds};

    ghost Value = { Call };

    ghost view = { λ m. record { tries = m.tries; support = m.support; stage = m.stage } };

    ghost invariant = { λ m. IsCall (record { tries = m.tries; support = m.support; stage = m.stage }) × StageKeepsEnds m.stage };
}

// The answer to an interval, or to a reading that lies before the record.
fn timed(generation: u32, row: u32, sequence: u32, found: Result<Interval, Causality>) -> Answer
    requires ends { IfOk found KeepsEnds }
    ensures value { result ≡ timed generation row sequence found }
    ensures ends { AnswerKeepsEnds result }
{
    match found {
        Ok(interval) => Answer::Time(Timed {
            generation,
            row,
            sequence,
            interval,
        }),
        Err(causality) => Answer::Causality(causality),
    }
}

/// The answer by the record read under this generation, a reading of the clock, and the page's marker and sequence count, where there is
/// one; without a page the count is 0.
pub fn answer_of(
    generation: u32,
    rec: &Record,
    reading: Reading,
    marker: Option<u64>,
    sequence: u32,
) -> Answer
    requires mono { reading.mono ≤ LAST_MOMENT }
    requires real { reading.real ≤ LAST_MOMENT }
    ensures value { result ≡ answer_of generation rec.now reading marker sequence }
    ensures ends { AnswerKeepsEnds result }
{
    timed(
        generation,
        reading.row,
        sequence,
        interval(rec, reading, marker),
    )
}

// What follows on what the segment's tries have come to.
fn after_segment(seen: &Seen) -> Stage
    ensures value { (read : SeqlockRead) → result ≡ after_segment read (Some seen.now) }
    ensures ends { StageKeepsEnds result }
{
    match seen {
        Seen::Whole { generation, rec } => Stage::Clock {
            generation: *generation,
            rec: *rec,
        },
        Seen::Busy { tries, first, last } => Stage::Done(Answer::Busy {
            tries: *tries,
            first: *first,
            last: *last,
        }),
        Seen::NotInitialized => Stage::Done(Answer::NotInitialized),
    }
}

// What follows on the clock: the page's tries where there is a page.
fn after_clock(tries: u16, support: bool, generation: u32, rec: &Record, reading: Reading) -> Stage
    requires some { 0 < tries }
    requires most { tries ≤ MOST_TRIES }
    requires mono { reading.mono ≤ LAST_MOMENT }
    requires real { reading.real ≤ LAST_MOMENT }
    ensures value { result ≡ after_clock tries support generation rec.now reading }
    ensures ends { StageKeepsEnds result }
{
    if support {
        Stage::Page {
            generation,
            rec: *rec,
            reading,
            reader: PageReader::new(tries),
        }
    } else {
        Stage::Done(answer_of(generation, rec, reading, None, 0))
    }
}

// What follows on what the page's tries have come to.
fn after_page(generation: u32, rec: &Record, reading: Reading, seen: PageSeen) -> Stage
    requires mono { reading.mono ≤ LAST_MOMENT }
    requires real { reading.real ≤ LAST_MOMENT }
    ensures value { (read : SeqlockRead) → result ≡ after_page generation rec.now reading read (Some seen) }
    ensures ends { StageKeepsEnds result }
{
    match seen {
        PageSeen::Marker { marker, sequence } => Stage::Done(answer_of(
            generation,
            rec,
            reading,
            Some(marker),
            sequence,
        )),
        PageSeen::Busy { first, last } => Stage::Done(Answer::PageBusy { first, last }),
    }
}

// The tries in hand take one value more. Whether they go on.
fn try_on(stage: &mut Stage, value: u64) -> bool
    requires open { act_at stage.old ≢ Act.End }
    requires good { IsGoodLoad (act_at stage.old) value }
    ensures tried { stage.new ≡ tried stage.old value }
    ensures on { IsTrue result → TriesOn stage.new }
    ensures ends { StageKeepsEnds stage.new }
    ensures ended { IsFalse result → HasEnded stage.new }
{
    match stage {
        Stage::Segment(reader) => {
            reader.give(value);
            reader.next() != Act::End
        }
        Stage::Page { reader, .. } => {
            reader.give(value);
            reader.next() != Act::End
        }
        Stage::Clock { .. } | Stage::Done(_) => false,
    }
}

// What follows on the tries that have come to something, and on the clock.
fn follow(stage: &Stage, tries: u16, support: bool, value: u64, clock: &[ClockRow]) -> Stage
    requires ended { HasEnded stage.now }
    requires early { IsEarly stage.now }
    requires some { 0 < tries }
    requires most { tries ≤ MOST_TRIES }
    requires row { IsRowAt clock.now stage.now value }
    requires rows { length clock.now ≤ MOST_HOST_ROWS }
    requires moments { IsClock clock.now }
    requires ends { StageKeepsEnds stage.now }
    ensures value { result ≡ followed clock.now tries support stage.now value }
    ensures ends { StageKeepsEnds result }
{
    match stage {
        Stage::Segment(reader) => follow_segment(reader),
        Stage::Clock { generation, rec } => {
            after_clock(tries, support, *generation, rec, reading(clock, value))
        }
        Stage::Page {
            generation,
            rec,
            reading,
            reader,
        } => follow_page(*generation, rec, *reading, reader),
        Stage::Done(answer) => Stage::Done(*answer),
    }
}

fn follow_segment(reader: &SegmentReader) -> Stage
    requires { segment.act_of reader.now ≡ Act.End }
    ensures value { result ≡ after_segment reader.now (segment.end_of reader.now) }
    ensures ends { StageKeepsEnds result }
{
    match reader.end() {
        None => unreachable!(),
        Some(seen) => after_segment(&seen),
    }
}

fn follow_page(generation: u32, rec: &Record, reading: Reading, reader: &PageReader) -> Stage
    requires ended { page.act_of reader.now ≡ Act.End }
    requires mono { reading.mono ≤ LAST_MOMENT }
    requires real { reading.real ≤ LAST_MOMENT }
    ensures value { result ≡ after_page generation rec.now reading reader.now (page.end_of reader.now) }
    ensures ends { StageKeepsEnds result }
{
    match reader.end() {
        None => unreachable!(),
        Some(seen) => after_page(generation, rec, reading, seen),
    }
}

fn go_on(stage: &mut Stage, tries: u16, support: bool, value: u64, clock: &[ClockRow])
    requires ended { HasEnded stage.old }
    requires early { IsEarly stage.old }
    requires some { 0 < tries }
    requires most { tries ≤ MOST_TRIES }
    requires row { IsRowAt clock.now stage.old value }
    requires rows { length clock.now ≤ MOST_HOST_ROWS }
    requires moments { IsClock clock.now }
    requires ends { StageKeepsEnds stage.old }
    ensures value { stage.new ≡ followed clock.now tries support stage.old value }
    ensures ends { StageKeepsEnds stage.new }
{
    *stage = follow(stage, tries, support, value, clock);
}

// The stage takes one more value. What is large is made only where tries have ended.
fn give_stage(stage: &mut Stage, tries: u16, support: bool, value: u64, clock: &[ClockRow])
    requires early { IsEarly stage.old }
    requires open { act_at stage.old ≢ Act.End }
    requires some { 0 < tries }
    requires most { tries ≤ MOST_TRIES }
    requires good { IsGoodLoad (act_at stage.old) value }
    requires row { IsRowNumber clock.now (act_at stage.old) value }
    requires rows { length clock.now ≤ MOST_HOST_ROWS }
    requires moments { IsClock clock.now }
    ensures value { stage.new ≡ stage_given clock.now tries support stage.old value }
    ensures ends { StageKeepsEnds stage.new }
{
    if !try_on(stage, value) {
        go_on(stage, tries, support, value, clock);
    }
}

// The segment's tries take words 2 to 9.
fn give_segment(stage: &mut Stage, words: &[u64; 8])
    requires stage { IsStage stage.old }
    requires wanted { act_at stage.old ≡ Act.Load 2 }
    requires good { AreGoodLoads words.now }
    ensures value { stage.new ≡ words_given stage.old words.now }
    ensures stage { IsStage stage.new }
    ensures early { IsEarly stage.new }
    ensures ends { StageKeepsEnds stage.new }
    ensures next { act_at stage.new ≡ Act.Load 1 }
    ensures nearer { (most : ℕ) → steps_at most stage.new < steps_at most stage.old }
{
    match stage {
        Stage::Segment(reader) => reader.give_words(words),
        Stage::Clock { .. } | Stage::Page { .. } | Stage::Done(_) => unreachable!(),
    }
}

// The segment's tries fail by an odd generation.
fn fail_segment(stage: &mut Stage, header: u64, most: u64) -> u64
    requires stage { IsStage stage.old }
    requires early { IsEarly stage.old }
    requires ends { StageKeepsEnds stage.old }
    ensures value { stage.new ≡ words_given stage.old (replicate result header) }
    ensures stage { IsStage stage.new }
    ensures early { IsEarly stage.new }
    ensures ends { StageKeepsEnds stage.new }
    ensures fails { 0 < result → StageFailsOdd stage.old header result }
    ensures most { result ≤ most }
{
    match stage {
        Stage::Segment(reader) => reader.fail_odd(header, most),
        Stage::Clock { .. } | Stage::Page { .. } | Stage::Done(_) => 0,
    }
}

impl NowMachine {
    /// A call with so many tries of each read, from 1 to 1,000, and with a page or without one.
    pub fn new(tries: u16, support: bool) -> NowMachine
        requires some { 1 ≤ tries }
        requires most { tries ≤ MOST_TRIES }
        ensures value { result ≡ started_call tries support }
        ensures steps { steps_left result ≤ 13 * tries + 1 }
    {
        NowMachine {
            tries,
            support,
            stage: Stage::Segment(SegmentReader::new(tries)),
        }
    }

    /// A call with a page that has read this record and this reading of the clock.
    pub fn at_page(tries: u16, generation: u32, rec: &Record, reading: Reading) -> NowMachine
        requires some { 1 ≤ tries }
        requires most { tries ≤ MOST_TRIES }
        requires mono { reading.mono ≤ LAST_MOMENT }
        requires real { reading.real ≤ LAST_MOMENT }
        ensures { result ≡ paged tries generation rec.now reading [] }
    {
        let reader = PageReader::new(tries);
        NowMachine {
            tries,
            support: true,
            stage: Stage::Page {
                generation,
                rec: *rec,
                reading,
                reader,
            },
        }
    }

    /// The load that comes next, of a word from 1 to 9, 11, 12 or 23, or `End`.
    pub fn next(&self) -> Act
        ensures act { result ≡ act_of self.now }
        ensures loads { act_of self.now ≢ Act.End → IsLoadWithin 24 result }
    {
        match &self.stage {
            Stage::Segment(reader) => reader.next(),
            Stage::Clock { .. } => Act::Load(CLOCK_WORD),
            Stage::Page { reader, .. } => reader.next(),
            Stage::Done(_) => Act::End,
        }
    }

    /// Takes the value that the load found. `clock` has the rows of the clock, at least as many as word 23 can count.
    pub fn give(&mut self, value: u64, clock: &[ClockRow])
        requires open { act_of self.old ≢ Act.End }
        requires good { IsGoodLoad (act_of self.old) value }
        requires row { IsRowNumber clock.now (act_of self.old) value }
        requires rows { length clock.now ≤ MOST_HOST_ROWS }
        requires moments { IsClock clock.now }
        ensures value { self.new ≡ given clock.now self.old value }
        ensures nearer { steps_left self.new < steps_left self.old }
    {
        give_stage(&mut self.stage, self.tries, self.support, value, clock);
    }

    /// Whether words 2 to 9 come next, all eight.
    pub fn wants_words(&self) -> bool
        ensures { IsTrue result ↔ (act_of self.now ≡ Act.Load 2) }
    {
        match &self.stage {
            Stage::Segment(reader) => reader.wants_words(),
            Stage::Clock { .. } | Stage::Page { .. } | Stage::Done(_) => false,
        }
    }

    /// Takes the values that the loads of words 2 to 9 found.
    pub fn give_words(&mut self, words: &[u64; 8])
        requires wanted { act_of self.old ≡ Act.Load 2 }
        requires good { AreGoodLoads words.now }
        ensures value { (clock : List ClockRow) → self.new ≡ after act_of (given clock) self.old words.now }
        ensures next { act_of self.new ≡ Act.Load 1 }
        ensures nearer { steps_left self.new < steps_left self.old }
    {
        give_segment(&mut self.stage, words);
    }

    /// Takes a word 1 with an odd generation as long as a try of the segment is left after it, at most so many times: how many, each of
    /// which fails a try. None where the generation is even, or a try has begun.
    pub fn fail_odd(&mut self, header: u64, most: u64) -> u64
        ensures value { (clock : List ClockRow) → self.new ≡ after act_of (given clock) self.old (replicate result header) }
        ensures fails { 0 < result → StageFailsOdd self.old.stage header result }
        ensures most { result ≤ most }
    {
        fail_segment(&mut self.stage, header, most)
    }

    /// Whether no load comes next: exactly where `next` is `End`.
    pub fn has_ended(&self) -> bool
        ensures { IsTrue result ↔ (act_of self.now ≡ Act.End) }
    {
        match &self.stage {
            Stage::Done(_) => true,
            Stage::Segment(_) | Stage::Clock { .. } | Stage::Page { .. } => false,
        }
    }

    /// What the call has come to: `None` exactly while a load comes next.
    pub fn end(&self) -> Option<Answer>
        ensures value { result ≡ end_of self.now }
        ensures ended { IsNone result ↔ (act_of self.now ≢ Act.End) }
        ensures ends { IfSome result AnswerKeepsEnds }
    {
        match &self.stage {
            Stage::Done(answer) => Some(*answer),
            Stage::Segment(_) | Stage::Clock { .. } | Stage::Page { .. } => None,
        }
    }
}
