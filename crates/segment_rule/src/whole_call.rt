// A call whose first try reads the record, taken in one go: loads without the machine, which takes over where the try fails.
ghost use Rattle.std.specs.Prelude.{◌≡◌, ◌≤◌, ◌%◌, true, [], ◌∷◌, length, is_some};
ghost use Rattle.clock_gate.specs.declared.limits.TheConstants.{LAST_MOMENT, MOST_HOST_ROWS, MOST_TRIES};
ghost use Rattle.clock_gate.specs.ClockRow.{IsClock, reading_at};
ghost use Rattle.vmclock_page.specs.Words.{count_in_word};
ghost use Rattle.seqlock.specs.Tries.{IsCalm};
ghost use Rattle.shm_reader.specs.SegmentTries.{segment_lock};
ghost use Rattle.interval_now.specs.declared.stage.Stage.TheVariants.{Clock};
ghost use Rattle.interval_now.specs.Call.{started_call, paged, given};
ghost use Rattle.segment_rule.specs.Calls.{Going, Stays, Called, ComesTo};

use crate::loads::{load_first, load_later, load_words};
use crate::table::{HostTable, Place};
use clock_gate::{ClockRow, Reading, reading};
use interval_now::{Answer, NowMachine, answer_of, is_calm, record_read};
use segment_layout::Record;

// The sequence count in word 11.
fn count_in(word: u64) -> u32
    ensures { result ≡ count_in_word word }
{
    (word >> 32) as u32
}

// The marker and the count again, after an even count.
fn after_count(
    table: &HostTable,
    seat: &mut Place,
    machine: &mut NowMachine,
    clock: &[ClockRow],
    tries: u16,
    generation: u32,
    rec: &Record,
    reading: Reading,
    first: u64,
) -> Option<Answer>
    requires table { seat.old.table_id ≡ table.now.id }
    requires seated { seat.old.me.0.seated ≡ true }
    requires clock { length clock.now ≡ seat.old.me.0.setup.rows }
    requires rows { seat.old.me.0.setup.rows ≤ MOST_HOST_ROWS }
    requires moments { IsClock clock.now }
    requires some { 1 ≤ tries }
    requires most { tries ≤ MOST_TRIES }
    requires mono { reading.mono ≤ LAST_MOMENT }
    requires real { reading.real ≤ LAST_MOMENT }
    requires reading { reading_at clock.now reading.row ≡ reading }
    requires even { count_in_word first % 2 ≡ 0 }
    requires going { Going tries (paged tries generation rec.now reading (first ∷ [])) seat.old.me.0 }
    ensures table { seat.new.table_id ≡ seat.old.table_id }
    ensures slots { seat.new.me.1 ≡ seat.old.me.1 }
    ensures stays { Stays seat.old.me.0 seat.new.me.0 }
    ensures comes { ComesTo clock.now tries result machine.new seat.new.me.0 }
{
    let marker = load_later(table, seat, 12);
    let second = load_later(table, seat, 11);
    if count_in(second) != count_in(first) {
        *machine = NowMachine::at_page(tries, generation, rec, reading);
        machine.give(first, clock);
        machine.give(marker, clock);
        machine.give(second, clock);
        return machine.end();
    }
    Some(answer_of(generation, rec, reading, Some(marker), count_in(first)))
}

// The page's count, and where it is even what follows.
fn after_clock(
    table: &HostTable,
    seat: &mut Place,
    machine: &mut NowMachine,
    clock: &[ClockRow],
    tries: u16,
    generation: u32,
    rec: &Record,
    reading: Reading,
) -> Option<Answer>
    requires table { seat.old.table_id ≡ table.now.id }
    requires seated { seat.old.me.0.seated ≡ true }
    requires clock { length clock.now ≡ seat.old.me.0.setup.rows }
    requires rows { seat.old.me.0.setup.rows ≤ MOST_HOST_ROWS }
    requires moments { IsClock clock.now }
    requires some { 1 ≤ tries }
    requires most { tries ≤ MOST_TRIES }
    requires mono { reading.mono ≤ LAST_MOMENT }
    requires real { reading.real ≤ LAST_MOMENT }
    requires reading { reading_at clock.now reading.row ≡ reading }
    requires going { Going tries (paged tries generation rec.now reading []) seat.old.me.0 }
    ensures table { seat.new.table_id ≡ seat.old.table_id }
    ensures slots { seat.new.me.1 ≡ seat.old.me.1 }
    ensures stays { Stays seat.old.me.0 seat.new.me.0 }
    ensures comes { ComesTo clock.now tries result machine.new seat.new.me.0 }
{
    let first = load_later(table, seat, 11);
    if count_in(first) % 2 == 1 {
        *machine = NowMachine::at_page(tries, generation, rec, reading);
        machine.give(first, clock);
        return machine.end();
    }
    after_count(
        table, seat, machine, clock, tries, generation, rec, reading, first,
    )
}

// The clock, and where there is a page what follows.
fn after_record(
    table: &HostTable,
    seat: &mut Place,
    machine: &mut NowMachine,
    clock: &[ClockRow],
    tries: u16,
    support: bool,
    generation: u32,
    rec: &Record,
) -> Option<Answer>
    requires table { seat.old.table_id ≡ table.now.id }
    requires seated { seat.old.me.0.seated ≡ true }
    requires support { support ≡ is_some seat.old.me.0.setup.page }
    requires clock { length clock.now ≡ seat.old.me.0.setup.rows }
    requires rows { seat.old.me.0.setup.rows ≤ MOST_HOST_ROWS }
    requires moments { IsClock clock.now }
    requires some { 1 ≤ tries }
    requires most { tries ≤ MOST_TRIES }
    requires going { Going tries (record { tries = tries; support = support; stage = Clock generation rec.now }) seat.old.me.0 }
    ensures table { seat.new.table_id ≡ seat.old.table_id }
    ensures slots { seat.new.me.1 ≡ seat.old.me.1 }
    ensures stays { Stays seat.old.me.0 seat.new.me.0 }
    ensures comes { ComesTo clock.now tries result machine.new seat.new.me.0 }
{
    let row = load_later(table, seat, 23);
    let reading = reading(clock, row);
    if support {
        return after_clock(table, seat, machine, clock, tries, generation, rec, reading);
    }
    Some(answer_of(generation, rec, reading, None, 0))
}

// Words 2 to 9, word 1 again, and where it is the same what follows.
fn after_first(
    table: &HostTable,
    seat: &mut Place,
    machine: &mut NowMachine,
    clock: &[ClockRow],
    tries: u16,
    support: bool,
    header: u64,
) -> Option<Answer>
    requires table { seat.old.table_id ≡ table.now.id }
    requires seated { seat.old.me.0.seated ≡ true }
    requires support { support ≡ is_some seat.old.me.0.setup.page }
    requires clock { length clock.now ≡ seat.old.me.0.setup.rows }
    requires rows { seat.old.me.0.setup.rows ≤ MOST_HOST_ROWS }
    requires moments { IsClock clock.now }
    requires some { 1 ≤ tries }
    requires most { tries ≤ MOST_TRIES }
    requires calm { IsCalm segment_lock header }
    requires going { Going tries (given clock.now (started_call tries support) header) seat.old.me.0 }
    ensures table { seat.new.table_id ≡ seat.old.table_id }
    ensures slots { seat.new.me.1 ≡ seat.old.me.1 }
    ensures stays { Stays seat.old.me.0 seat.new.me.0 }
    ensures comes { ComesTo clock.now tries result machine.new seat.new.me.0 }
{
    let words = load_words(table, seat);
    let last = load_later(table, seat, 1);
    if last != header {
        *machine = NowMachine::after_words(tries, support, header, &words, clock);
        machine.give(last, clock);
        return machine.end();
    }
    let (generation, rec) = record_read(header, &words);
    after_record(
        table, seat, machine, clock, tries, support, generation, &rec,
    )
}

// A call as far as its first try goes: its answer, or the machine that goes on with it.
pub(crate) fn whole_call(
    table: &HostTable,
    seat: &mut Place,
    machine: &mut NowMachine,
    clock: &[ClockRow],
    tries: u16,
    support: bool,
) -> Option<Answer>
    requires table { seat.old.table_id ≡ table.now.id }
    requires seated { seat.old.me.0.seated ≡ true }
    requires support { support ≡ is_some seat.old.me.0.setup.page }
    requires clock { length clock.now ≡ seat.old.me.0.setup.rows }
    requires rows { seat.old.me.0.setup.rows ≤ MOST_HOST_ROWS }
    requires moments { IsClock clock.now }
    requires some { 1 ≤ tries }
    requires most { tries ≤ MOST_TRIES }
    ensures table { seat.new.table_id ≡ seat.old.table_id }
    ensures slots { seat.new.me.1 ≡ seat.old.me.1 }
    ensures called { Called seat.old.me.0 seat.new.me.0 }
    ensures comes { ComesTo clock.now tries result machine.new seat.new.me.0 }
{
    let header = load_first(table, seat);
    if !is_calm(header) {
        *machine = NowMachine::after_header(tries, support, header, clock);
        return machine.end();
    }
    after_first(table, seat, machine, clock, tries, support, header)
}
