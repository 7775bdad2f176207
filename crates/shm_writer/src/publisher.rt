ghost use Rattle.std.specs.Prelude.{◌≡◌, ◌≢◌, ℕ, ◌+◌, ◌*◌, ◌<◌, ◌≤◌, length, slice_index};
ghost use Rattle.clock_gate.specs.Acts.{IsStoreWithin};
ghost use Rattle.clock_gate.specs.declared.act.Act.TheVariants.{End};
ghost use Rattle.clock_gate.specs.declared.limits.TheConstants.{MOST_STORES};
ghost use Rattle.generation_word.specs.Layout.{period_of};
ghost use Rattle.generation_word.specs.Numbering.{odd_after, even_after};
ghost use Rattle.generation_word.specs.Header.{word1_of};
ghost use Rattle.segment_layout.specs.Words.{record_words, IsGoodWord};
ghost use Rattle.shm_writer.specs.Publisher.{new_publishing, publishing_act, publishing_given, stores_left, IsGoodStore};
ghost use Rattle.shm_writer.specs.Leaps.{MakesStores};

use clock_gate::Act;
use generation_word::{Layout, next_pair, word1};
use segment_layout::{Record, data_word, to_words};
use std::marker::Model;

/// The publication of one record as a step machine: ten stores, and then the end.
#[derive(Clone, Copy, Debug)]
pub struct Publisher {
    rec: Record,
    layout: Layout,
    generation: u32,
    made: u8,
}

impl Model for Publisher {
    ghost use Rattle.std.specs.Prelude.{◌+◌, ◌*◌, ◌≤◌};
    ghost use Rattle.generation_word.specs.Layout.{period_of};
    ghost use Rattle.shm_writer.specs.Publisher.{Publishing};

    ghost Value = { Publishing };

    ghost view = { λ p. record { rec = p.rec; layout = p.layout; generation = p.generation; made = p.made } };

    ghost invariant = { λ p. (p.made ≤ 10) × (p.generation ≤ 2 * period_of p.layout + 1) };

    ghost inverse = { λ p. record { rec = p.rec; layout = p.layout; generation = p.generation; made = p.made } };
}

impl Publisher {
    /// A publisher of this record that has made no store yet, in a segment of this layout whose word 1 has this generation.
    pub fn begin(rec: &Record, layout: Layout, generation: u32) -> Publisher
        requires { generation ≤ 2 * period_of layout + 1 }
        ensures { result ≡ new_publishing rec.now layout generation }
    {
        Publisher {
            rec: *rec,
            layout,
            generation,
            made: 0,
        }
    }

    /// The store that it wants next: word 1 with the odd number of `next_pair`, then words 2 to 9 of the record in their
    /// order, then word 1 with the even number. `End` exactly after these ten.
    pub fn next(&self) -> Act
        ensures act { result ≡ publishing_act self.now }
        // Until the tenth is made it is a store in words 1 to 9, of a word that passes `word_ok`.
        ensures stores { self.now.made < MOST_STORES → IsStoreWithin 10 result }
        ensures good { IsGoodStore result }
        ensures ended { self.now.made ≡ MOST_STORES → result ≡ End }
    {
        match self.made {
            0 => Act::Store(1, self.odd_header()),
            9 => Act::Store(1, self.even_header()),
            10 => Act::End,
            made => Act::Store(made + 1, data_word(&self.rec, made + 1)),
        }
    }

    /// Takes it that the wanted store was made; the value is ignored.
    pub fn give(&mut self, value: u64)
        requires { publishing_act self.old ≢ End }
        ensures given { self.new ≡ publishing_given self.old value }
        ensures nearer { stores_left self.new < stores_left self.old }
    {
        let _ = value;
        self.made += 1;
    }

    /// Takes it that all stores but the last were made, of which none was made before: the values that words 1 to 9 were given.
    pub fn give_nine(&mut self) -> [u64; 9]
        requires { self.old.made ≡ 0 }
        // The same as one after another.
        ensures stores { MakesStores publishing_act publishing_given 1 result self.old self.new }
        ensures nine { length result ≡ 9 }
        ensures given { self.new ≡ record self.old { made = 9 } }
    {
        self.made = 9;
        let [_, header, w2, w3, w4, w5, w6, w7, w8, w9] = to_words(
            &self.rec,
            self.layout,
            self.odd(),
        );
        [header, w2, w3, w4, w5, w6, w7, w8, w9]
    }

    /// The number of stores made, from 0 to 10.
    pub fn done(&self) -> u8
        ensures value { result ≡ self.now.made }
        ensures most { result ≤ MOST_STORES }
    {
        self.made
    }

    /// The even number, which the last store puts into word 1.
    pub fn even(&self) -> u32
        ensures value { result ≡ even_after (period_of self.now.layout) self.now.generation }
        ensures most { result ≤ 2 * period_of self.now.layout }
    {
        next_pair(self.layout, self.generation).1
    }

    fn odd(&self) -> u32
        ensures value { result ≡ odd_after self.now.generation }
        ensures most { result ≤ 2 * period_of self.now.layout + 1 }
    {
        next_pair(self.layout, self.generation).0
    }

    fn odd_header(&self) -> u64
        ensures { result ≡ word1_of self.now.layout (odd_after self.now.generation) }
    {
        word1(self.layout, self.odd())
    }

    fn even_header(&self) -> u64
        ensures { result ≡ word1_of self.now.layout (even_after (period_of self.now.layout) self.now.generation) }
    {
        word1(self.layout, self.even())
    }
}
