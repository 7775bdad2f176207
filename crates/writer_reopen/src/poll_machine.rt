ghost use Rattle.std.specs.Prelude.{◌≡◌, ◌≢◌, ◌↔◌, ◌+◌, ◌*◌, ◌<◌, ◌≤◌, List, length, Some, None, is_some, IsTrue, IsSome, IsNone, IfSome};
ghost use Rattle.clock_gate.specs.declared.act.Act.TheVariants.{Load, End};
ghost use Rattle.clock_gate.specs.declared.limits.TheConstants.{MOST_DRIFT, MOST_STORES, MOST_TRIES};
ghost use Rattle.generation_word.specs.Layout.{period_of};
ghost use Rattle.status_machine.specs.Poll.{BaseFits};
ghost use Rattle.clock_gate.specs.declared.clock_row.ClockRow.{ClockRow};
ghost use Rattle.shm_writer.specs.Leaps.{MakesStores};
ghost use Rattle.writer_reopen.specs.declared.stage.TheConstants.{CLOCK_WORD};
ghost use Rattle.writer_reopen.specs.Progress.{end_of};
ghost use Rattle.vmclock_page.specs.PageRead.{act_of as page_act, end_of as page_end};
ghost use Rattle.writer_reopen.specs.Poll.{AreRows};
ghost use Rattle.writer_reopen.specs.PollMachine.{new_polling, polling_act, polling_given, polling_end, looking_by, IsUnseen, stage_steps, IsPollAct, PolledFits};

use crate::order::Order;
use crate::polled::Polled;
use crate::stage::{CLOCK_WORD, Stage};
use crate::steps::{give_stage, nine_stage};
use crate::storing::{storing_act, storing_end, storing_has_ended};
use clock_gate::{Act, ClockRow};
use generation_word::Layout;
use status_machine::{Daemon, Heard};
use std::marker::Model;
use vmclock_page::{PageReader, PageSeen};

/// One poll of the daemon as a step machine: it loads the clock, with support looks at the page, loads the clock again,
/// and makes the stores of the record.
#[derive(Clone, Copy, Debug)]
pub struct PollMachine {
    order: Order,
    stage: Stage,
}

impl Model for PollMachine {
    ghost use Rattle.writer_reopen.specs.PollMachine.{Polling, OrderFits, IsPollStage, StageFits};

    ghost Value = { Polling };

    ghost view = { λ m. record { order = m.order; stage = m.stage } };

    ghost invariant = { λ m. OrderFits m.order × (IsPollStage m.order m.stage × StageFits m.stage) };

    ghost inverse = { λ p. record { order = p.order; stage = p.stage } };
}

impl PollMachine {
    /// A poll that has made no step yet.
    ///
    /// The daemon's drift is at most 1,000,000,000 ppb, and its base keeps the bounds of a record. `generation` is what
    /// stands in word 1, at most twice the period and one. `number` is the number of the poll, `heard` what came back from
    /// chronyd. With a `stop`, from 0 to 10, the daemon stops after so many stores. `tries`, from 1 to 1,000, are those of
    /// the page.
    pub fn begin(
        daemon: Daemon,
        layout: Layout,
        generation: u32,
        number: u32,
        heard: Heard,
        stop: Option<u8>,
        tries: u16,
    ) -> PollMachine
        requires drift { daemon.drift ≤ MOST_DRIFT }
        requires base { IfSome daemon.base BaseFits }
        requires numbered { generation ≤ 2 * period_of layout + 1 }
        requires stops { IfSome stop (λ s. s ≤ MOST_STORES) }
        requires some_tries { 0 < tries }
        requires most_tries { tries ≤ MOST_TRIES }
        ensures { result ≡ new_polling (record { daemon = daemon; layout = layout; generation = generation; number = number; heard = heard; stop = stop; tries = tries }) }
    {
        PollMachine {
            order: Order {
                daemon,
                layout,
                generation,
                number,
                heard,
                stop,
                tries,
            },
            stage: Stage::Asking,
        }
    }

    /// The step that it wants next.
    pub fn next(&self) -> Act
        ensures act { result ≡ polling_act self.now }
        // A load of the clock or the page, or a store in the segment, of a word that passes `word_ok`.
        ensures words { IsPollAct result }
    {
        match &self.stage {
            Stage::Asking => Act::Load(CLOCK_WORD),
            Stage::Looking(_, reader) => reader.next(),
            Stage::Taking(_, _) => Act::Load(CLOCK_WORD),
            Stage::Storing(taken, publisher) => storing_act(&self.order, taken, publisher),
        }
    }

    /// Takes the value of the wanted step. A value loaded from word 23 must be the number of a row of `clock`, and after a
    /// store the value is ignored. `clock` has at most 300,000 rows, with times up to `LAST_MOMENT`. The first load of the
    /// clock gives the poll's reading; at the second the reply is taken.
    pub fn give(&mut self, value: u64, clock: &[ClockRow])
        requires asked { polling_act self.old ≢ End }
        requires rows { AreRows clock.now }
        requires first { polling_act self.old ≡ Load CLOCK_WORD → 1 ≤ value }
        requires last { polling_act self.old ≡ Load CLOCK_WORD → value ≤ length clock.now }
        ensures given { self.new ≡ polling_given clock.now self.old value }
        ensures nearer { stage_steps self.new.order self.new.stage < stage_steps self.old.order self.old.stage }
    {
        let PollMachine { order, stage } = self;
        give_stage(order, stage, value, clock);
    }

    /// Takes it that all stores but the last were made, where they come next and no stop is set: the values that words 1 to 9 were given.
    /// `None`, and nothing is taken, where it wants something else, or a stop is set.
    pub fn give_nine(&mut self) -> Option<[u64; 9]>
        // The same as one after another.
        ensures stores { IfSome result (λ values. (clock : List ClockRow) → MakesStores polling_act (polling_given clock) 1 values self.old self.new) }
        ensures none { IsNone result → self.new ≡ self.old }
    {
        let PollMachine { order, stage } = self;
        nine_stage(order, stage)
    }

    /// Whether it wants no further step: exactly where `next` is `End`. No word of the record is made.
    pub fn has_ended(&self) -> bool
        ensures { IsTrue result ↔ (polling_act self.now ≡ End) }
    {
        match &self.stage {
            Stage::Asking => false,
            Stage::Looking(_, reader) => reader.next() == Act::End,
            Stage::Taking(_, _) => false,
            Stage::Storing(taken, publisher) => storing_has_ended(&self.order, taken, publisher),
        }
    }

    /// What it came to. `None` exactly while `next` isn't `End`.
    pub fn end(&self) -> Option<Polled>
        ensures end { result ≡ polling_end self.now }
        ensures found { IsSome result ↔ (polling_act self.now ≡ End) }
        // A daemon that is handed on can take the next poll.
        ensures fits { IfSome result PolledFits }
    {
        match &self.stage {
            Stage::Asking => None,
            Stage::Looking(_, reader) => skipped(reader),
            Stage::Taking(_, _) => None,
            Stage::Storing(taken, publisher) => storing_end(&self.order, taken, publisher),
        }
    }
}

// The answer where each try of the page failed.
fn skipped(reader: &PageReader) -> Option<Polled>
    requires { IsUnseen (page_end reader.now) }
    ensures value { result ≡ end_of (looking_by (page_act reader.now) (page_end reader.now)) }
    ensures fits { IfSome result PolledFits }
{
    match reader.end() {
        Some(PageSeen::Busy { first, last }) => Some(Polled::Skipped { first, last }),
        Some(PageSeen::Marker { .. }) | None => None,
    }
}
