//! What one more value makes of each stage of a poll.
ghost use Rattle.std.specs.Prelude.{◌≡◌, ◌≢◌, ◌≤◌, ◌<◌, ◌+◌, ◌-◌, ◌*◌, true, List, length, is_some, IfSome, IsNone};
ghost use Rattle.clock_gate.specs.declared.act.Act.TheVariants.{Load, End};
ghost use Rattle.clock_gate.specs.declared.limits.TheConstants.{LAST_MOMENT, MOST_STORES};
ghost use Rattle.seqlock.specs.Tries.{IsStage, steps_left};
ghost use Rattle.vmclock_page.specs.PageRead.{page_lock, act_of, given, end_of};
ghost use Rattle.shm_writer.specs.Publisher.{publishing_given};
ghost use Rattle.shm_writer.specs.Leaps.{MakesStores};
ghost use Rattle.clock_gate.specs.declared.clock_row.ClockRow.{ClockRow};
ghost use Rattle.writer_reopen.specs.declared.stage.TheConstants.{CLOCK_WORD};
ghost use Rattle.writer_reopen.specs.Progress.{act_of as wanted_act};
ghost use Rattle.writer_reopen.specs.Poll.{AreRows, reading_at, marker_seen, sequence_seen, poll_for, taken_for, storing_of};
ghost use Rattle.status_machine.specs.Base.{base_number};
ghost use Rattle.writer_reopen.specs.PollMachine.{polling_act, polling_given, stage_asked, stage_looked, stage_taken, stage_given, stage_progress, IsBeforeStores, IsUpdate, IsPollStage, stage_steps, DaemonFits, OrderFits, StageFits};

use crate::order::Order;
use crate::stage::{Sight, Stage, Taken};
use crate::storing::store_nine;
use clock_gate::{ClockRow, Reading, reading};
use segment_layout::Publication;
use shm_writer::Publisher;
use status_machine::{Base, Poll};
use vmclock_page::{PageReader, PageSeen};

fn reading_at(clock: &[ClockRow], row: u64) -> Reading
    requires rows { AreRows clock.now }
    requires first { 1 ≤ row }
    requires last { row ≤ length clock.now }
    ensures value { result ≡ reading_at clock.now row }
    ensures moment { result.mono ≤ LAST_MOMENT }
{
    reading(clock, row)
}

// The first reading: with support the page is looked at.
fn stage_asked(order: &Order, asked: Reading) -> Stage
    requires fits { OrderFits order.now }
    requires moment { asked.mono ≤ LAST_MOMENT }
    ensures value { result ≡ stage_asked order.now asked }
    ensures stage { IsPollStage order.now result }
    ensures fits { StageFits result }
    ensures nearer { stage_steps order.now result < 3 * order.now.tries + 12 }
{
    if order.daemon.support {
        return Stage::Looking(asked, PageReader::new(order.tries));
    }
    Stage::Taking(asked, None)
}

// One more word of the page.
fn stage_looked(order: &Order, asked: Reading, reader: PageReader, value: u64) -> Stage
    requires support { order.now.daemon.support ≡ true }
    requires moment { asked.mono ≤ LAST_MOMENT }
    requires wants { act_of reader ≢ End }
    ensures value { result ≡ stage_looked asked (given reader value) }
    ensures stage { IsPollStage order.now result }
    ensures fits { StageFits result }
    ensures nearer { stage_steps order.now result < steps_left page_lock reader + 11 }
{
    let mut read = reader;
    read.give(value);
    match read.end() {
        Some(PageSeen::Marker { marker, sequence }) => {
            Stage::Taking(asked, Some(Sight { marker, sequence }))
        }
        Some(PageSeen::Busy { .. }) | None => Stage::Looking(asked, read),
    }
}

// The reply is taken, at this clock row.
fn stage_taken(order: &Order, asked: Reading, seen: Option<Sight>, replied: u32) -> Stage
    requires fits { OrderFits order.now }
    requires moment { asked.mono ≤ LAST_MOMENT }
    requires support { is_some seen ≡ order.now.daemon.support }
    ensures value { result ≡ stage_taken order.now (taken_for order.now asked seen replied) }
    ensures stage { IsPollStage order.now result }
    ensures fits { StageFits result }
    ensures nearer { stage_steps order.now result < 11 }
{
    let mut daemon = order.daemon;
    let rec = daemon.step(&poll_for(order, asked, seen));
    let publisher = Publisher::begin(&rec, order.layout, order.generation);
    let publication = Publication {
        poll: order.number,
        generation: publisher.even(),
        asked: asked.row,
        sequence: sequence_seen(seen),
        replied,
        base: base_number(daemon.base),
        rec,
    };
    Stage::Storing(
        Taken {
            daemon,
            publication,
        },
        publisher,
    )
}

// One more store was made.
fn store(order: &Order, taken: &Taken, publisher: &mut Publisher, value: u64)
    requires update { IsUpdate order.now taken.now publisher.old }
    requires wants { wanted_act (storing_of order.now taken.now publisher.old.made) ≢ End }
    ensures value { publisher.new ≡ publishing_given publisher.old value }
    ensures update { IsUpdate order.now taken.now publisher.new }
    ensures nearer { MOST_STORES - publisher.new.made < MOST_STORES - publisher.old.made }
{
    publisher.give(value);
}

// All stores but the last at once, where they come next and no stop is set.
pub(crate) fn nine_stage(order: &Order, stage: &mut Stage) -> Option<[u64; 9]>
    requires stage { IsPollStage order.now stage.old }
    requires stage_fits { StageFits stage.old }
    ensures stores { IfSome result (λ values. (clock : List ClockRow) → MakesStores polling_act (polling_given clock) 1 values (record { order = order.now; stage = stage.old }) (record { order = order.now; stage = stage.new })) }
    ensures none { IsNone result → stage.new ≡ stage.old }
    ensures stage { IsPollStage order.now stage.new }
    ensures fits { StageFits stage.new }
{
    match stage {
        Stage::Storing(taken, publisher) => store_nine(order, taken, publisher),
        Stage::Asking | Stage::Looking(_, _) | Stage::Taking(_, _) => None,
    }
}

// What one more value makes of a stage before the stores.
fn stage_after(order: &Order, stage: &Stage, value: u64, clock: &[ClockRow]) -> Stage
    requires early { IsBeforeStores stage.now }
    requires order { OrderFits order.now }
    requires stage { IsPollStage order.now stage.now }
    requires stage_fits { StageFits stage.now }
    requires asked { wanted_act (stage_progress order.now stage.now) ≢ End }
    requires rows { AreRows clock.now }
    requires first { wanted_act (stage_progress order.now stage.now) ≡ Load CLOCK_WORD → 1 ≤ value }
    requires last { wanted_act (stage_progress order.now stage.now) ≡ Load CLOCK_WORD → value ≤ length clock.now }
    ensures value { result ≡ stage_given clock.now order.now stage.now value }
    ensures stage { IsPollStage order.now result }
    ensures fits { StageFits result }
    ensures nearer { stage_steps order.now result < stage_steps order.now stage.now }
{
    match stage {
        Stage::Asking => stage_asked(order, reading_at(clock, value)),
        Stage::Looking(asked, reader) => stage_looked(order, *asked, *reader, value),
        Stage::Taking(asked, seen) => stage_taken(order, *asked, *seen, value as u32),
        Stage::Storing(_, _) => unreachable!(),
    }
}

fn go_on(order: &Order, stage: &mut Stage, value: u64, clock: &[ClockRow])
    requires early { IsBeforeStores stage.old }
    requires order { OrderFits order.now }
    requires stage { IsPollStage order.now stage.old }
    requires stage_fits { StageFits stage.old }
    requires asked { wanted_act (stage_progress order.now stage.old) ≢ End }
    requires rows { AreRows clock.now }
    requires first { wanted_act (stage_progress order.now stage.old) ≡ Load CLOCK_WORD → 1 ≤ value }
    requires last { wanted_act (stage_progress order.now stage.old) ≡ Load CLOCK_WORD → value ≤ length clock.now }
    ensures value { stage.new ≡ stage_given clock.now order.now stage.old value }
    ensures stage { IsPollStage order.now stage.new }
    ensures fits { StageFits stage.new }
    ensures nearer { stage_steps order.now stage.new < stage_steps order.now stage.old }
{
    *stage = stage_after(order, stage, value, clock);
}

// The stage takes one more value: a store changes its count alone, and what is large is made only where a stage ends.
pub(crate) fn give_stage(order: &Order, stage: &mut Stage, value: u64, clock: &[ClockRow])
    requires order { OrderFits order.now }
    requires stage { IsPollStage order.now stage.old }
    requires stage_fits { StageFits stage.old }
    requires asked { wanted_act (stage_progress order.now stage.old) ≢ End }
    requires rows { AreRows clock.now }
    requires first { wanted_act (stage_progress order.now stage.old) ≡ Load CLOCK_WORD → 1 ≤ value }
    requires last { wanted_act (stage_progress order.now stage.old) ≡ Load CLOCK_WORD → value ≤ length clock.now }
    ensures value { stage.new ≡ stage_given clock.now order.now stage.old value }
    ensures stage { IsPollStage order.now stage.new }
    ensures fits { StageFits stage.new }
    ensures nearer { stage_steps order.now stage.new < stage_steps order.now stage.old }
{
    match stage {
        Stage::Storing(taken, publisher) => store(order, taken, publisher, value),
        Stage::Asking | Stage::Looking(_, _) | Stage::Taking(_, _) => {
            go_on(order, stage, value, clock);
        }
    }
}

fn poll_for(order: &Order, asked: Reading, seen: Option<Sight>) -> Poll
    ensures { result ≡ poll_for order.now asked seen }
{
    Poll {
        number: order.number,
        reading: asked,
        marker: marker_seen(seen),
        heard: order.heard,
    }
}

fn marker_seen(seen: Option<Sight>) -> Option<u64>
    ensures { result ≡ marker_seen seen }
{
    match seen {
        Some(sight) => Some(sight.marker),
        None => None,
    }
}

fn sequence_seen(seen: Option<Sight>) -> u32
    ensures { result ≡ sequence_seen seen }
{
    match seen {
        Some(sight) => sight.sequence,
        None => 0,
    }
}

fn base_number(base: Option<Base>) -> u32
    ensures { result ≡ base_number base }
{
    match base {
        Some(base) => base.poll,
        None => 0,
    }
}
