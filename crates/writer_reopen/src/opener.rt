ghost use Rattle.std.specs.Prelude.{◌≡◌, ◌≢◌, ◌+◌, ◌-◌, ◌<◌, ◌≤◌, ◌%◌, [], ◌∷◌, ◌++◌, length, take, slice_index, slice_index_or, IsTrue, IsSome, ◌↔◌, if◌then◌else◌};
ghost use Rattle.clock_gate.specs.Acts.{IsWithin};
ghost use Rattle.clock_gate.specs.declared.act.Act.TheVariants.{End};
ghost use Rattle.generation_word.specs.Layout.{period_of};
ghost use Rattle.generation_word.specs.Numbering.{odd_after, even_after};
ghost use Rattle.generation_word.specs.Header.{header_of};
ghost use Rattle.segment_layout.specs.Words.{AreGoodWords, fields_of_words};
ghost use Rattle.segment_layout.specs.Image.{is_old_header};
ghost use Rattle.writer_reopen.specs.Opening.{fresh_steps, torn_steps, kept_steps, later_steps, opening_steps, moved_to, opening_for, new_opener, opening_act, opening_given, opening_end, opening_left, IsAdmitted};
ghost use Rattle.generation_word.specs.Header.{generation_in};

use crate::opening::Opening;
use clock_gate::Act;
use generation_word::{Layout, next_pair, split_word1, word1};
use segment_layout::{MAGIC, Record, Start, from_words};
use std::marker::Model;

/// The opening of a segment as a step machine: at most ten loads and two stores.
#[derive(Debug, Drop)]
pub struct Opener {
    layout: Layout,
    values: [u64; 12],
    given: u8,
}

impl Model for Opener {
    ghost use Rattle.std.specs.Prelude.{◌≤◌, take};
    ghost use Rattle.writer_reopen.specs.Opening.{OpenerState, IsAdmitted};

    ghost Value = { OpenerState };

    ghost view = { λ o. record { layout = o.layout; values = take o.given o.values } };

    ghost invariant = { λ o. (o.given ≤ 12) × IsAdmitted o.layout (take o.given o.values) };
}

impl Opener {
    /// An opener of a segment in this layout, which has made no step yet.
    pub fn new(layout: Layout) -> Opener
        ensures { result ≡ new_opener layout }
    {
        Opener {
            layout,
            values: [0; 12],
            given: 0,
        }
    }

    /// The step that it wants next.
    pub fn next(&self) -> Act
        ensures act { result ≡ opening_act self.now }
        ensures within { IsWithin 10 result }
    {
        act_at(self.layout, self.values[1], self.given)
    }

    /// Takes the value of the wanted step: that of a word loaded, where the words loaded so far must begin an image that
    /// `admit` accepts with the layout; after a store the value is ignored.
    pub fn give(&mut self, value: u64)
        requires asked { opening_act self.old ≢ End }
        requires admitted { IsAdmitted self.old.layout (self.old.values ++ value ∷ []) }
        ensures given { self.new ≡ opening_given self.old value }
        ensures nearer { opening_left self.new < opening_left self.old }
    {
        self.values[usize::from(self.given)] = value;
        self.given += 1;
    }

    /// Whether it wants no further step: exactly where `next` is `End`. No word is made.
    pub fn has_ended(&self) -> bool
        ensures { IsTrue result ↔ (opening_act self.now ≡ End) }
    {
        steps_in(self.layout, self.values[1]) <= self.given
    }

    /// What it found. `None` exactly while `next` isn't `End`.
    #[tactic(auto, using(crate::proofs::Openings::answer_at_end, crate::proofs::InOrder::end_of_asking))]
    pub fn end(&self) -> Option<Opening>
        ensures end { result ≡ opening_end self.now }
        ensures found { IsSome result ↔ (opening_act self.now ≡ End) }
    {
        if self.next() != Act::End {
            return None;
        }
        Some(self.opening())
    }

    fn opening(&self) -> Opening
        requires { opening_act self.now ≡ End }
        ensures { result ≡ opening_for self.now.layout self.now.values }
    {
        let generation = split_word1(self.values[1]).2;
        if generation == 0 {
            return Opening {
                start: Start::Fresh,
                moved: None,
            };
        }
        if generation % 2 == 1 {
            return Opening {
                start: Start::Torn(generation),
                moved: None,
            };
        }
        Opening {
            start: Start::Kept(generation, self.record()),
            moved: moved_to(is_old_header(self.layout, self.values[1]), generation),
        }
    }

    fn record(&self) -> Record
        requires asked { 10 ≤ length self.now.values }
        requires good { AreGoodWords (take 10 self.now.values) }
        ensures { result ≡ fields_of_words self.now.values }
    {
        let mut words = [0; 10];
        words.copy_from_slice(&self.values[..10]);
        from_words(&words)
    }
}

// The step of an opening that meets this header, by the number of those made.
fn act_at(layout: Layout, header: u64, made: u8) -> Act
    ensures { result ≡ slice_index_or (opening_steps layout header) made End }
{
    if made < 2 {
        Act::Load(made)
    } else {
        later_act(layout, header, made - 2)
    }
}

// The step after the loads of words 0 and 1.
fn later_act(layout: Layout, header: u64, made: u8) -> Act
    ensures { result ≡ slice_index_or (later_steps layout header) made End }
{
    let generation = split_word1(header).2;
    let old = is_old_header(layout, header);
    if generation == 0 {
        return fresh_act(layout, made);
    }
    if generation % 2 == 1 {
        return torn_act(old, generation, made);
    }
    kept_act(old, generation, made)
}

// How many steps an opening takes that meets this header.
#[tactic(auto, using(crate::proofs::OpeningLaws::fresh_length, crate::proofs::OpeningLaws::torn_length, crate::proofs::OpeningLaws::kept_length))]
fn steps_in(layout: Layout, header: u64) -> u8
    ensures { result ≡ length (opening_steps layout header) }
{
    let generation = split_word1(header).2;
    let old = is_old_header(layout, header);
    if generation == 0 {
        return 4;
    }
    if generation % 2 == 1 {
        return torn_count(old);
    }
    kept_count(old)
}

fn torn_count(old: bool) -> u8
    ensures { result ≡ (if old then 3 else 2) }
{
    if old { 3 } else { 2 }
}

fn kept_count(old: bool) -> u8
    ensures { result ≡ (if old then 12 else 10) }
{
    if old { 12 } else { 10 }
}

fn is_old_header(layout: Layout, header: u64) -> bool
    ensures { result ≡ is_old_header layout header }
{
    match layout {
        Layout::Two => false,
        Layout::Three => split_word1(header).1 == 2,
    }
}

fn fresh_act(layout: Layout, made: u8) -> Act
    ensures { result ≡ slice_index_or (fresh_steps layout) made End }
{
    match made {
        0 => Act::Store(0, MAGIC),
        1 => Act::Store(1, word1(layout, 0)),
        _ => Act::End,
    }
}

fn torn_act(old: bool, generation: u32, made: u8) -> Act
    ensures { result ≡ slice_index_or (torn_steps old generation) made End }
{
    match made {
        0 if old => Act::Store(1, word1(Layout::Three, generation)),
        _ => Act::End,
    }
}

fn kept_act(old: bool, generation: u32, made: u8) -> Act
    ensures { result ≡ slice_index_or (kept_steps old generation) made End }
{
    match made {
        0..=7 => Act::Load(made + 2),
        8 if old => Act::Store(
            1,
            word1(Layout::Three, next_pair(Layout::Three, generation).0),
        ),
        9 if old => Act::Store(
            1,
            word1(Layout::Three, next_pair(Layout::Three, generation).1),
        ),
        _ => Act::End,
    }
}

fn moved_to(old: bool, generation: u32) -> Option<u32>
    ensures { result ≡ moved_to old generation }
{
    if old {
        Some(next_pair(Layout::Three, generation).1)
    } else {
        None
    }
}
