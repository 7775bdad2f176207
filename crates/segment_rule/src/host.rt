ghost use Rattle.std.specs.Prelude.{◌≡◌, ◌+◌, ◌<◌, ◌≤◌, [], true, false, length, is_some};
ghost use Rattle.clock_gate.specs.declared.limits.TheConstants.{MOST_HOST_ROWS};
ghost use Rattle.vmclock_page.specs.Rows.{IsRowOf, IsPageRowAfter};
ghost use Rattle.segment_rule.specs.Ruled.{SeatState};
ghost use Rattle.segment_rule.specs.Settled.{HasLearned};
ghost use Rattle.segment_rule.specs.Hosts.{MayHost, TellsHost, row_added, page_added, words_of_row, MayDoRow, part_after, IsBetweenRows};

use crate::plays::{AnnouncedPage, HostStore};
use crate::settle::learn;
use crate::table::{HostTable, Place};
use clock_gate::{Act, HostRow};
use std::marker::{Brand, Model};
use vmclock_page::HostMachine;

/// The host's seat at the shared words.
///
/// Contracts see its table and its view.
#[derive(Drop)]
pub struct HostSeat {
    seat: Place,
    machine: HostMachine,
    rows: u32,
}

impl Model for HostSeat {
    ghost use Rattle.std.specs.Prelude.{◌≡◌, true, []};
    ghost use Rattle.segment_rule.specs.Ruled.{SeatState, seat_state};
    ghost use Rattle.segment_rule.specs.Hosts.{IsBetweenRows};

    ghost Value = { SeatState };

    ghost view = { λ s. seat_state s.seat.table_id s.seat.me.0 };

    ghost invariant = { λ s. (s.seat.me.1 ≡ []) × (s.seat.me.0.is_host ≡ true) × (s.rows ≡ s.seat.me.0.host_part.rows) × IsBetweenRows s.machine s.seat.me.0 };
}

// The next store of the row that the machine has in hand.
fn store<A: AnnouncedPage>(
    table: &HostTable,
    seat: &mut Place,
    _row: &HostRow,
    word: usize,
    value: u64,
)
    requires table { seat.old.table_id ≡ table.now.id }
    requires slots { seat.old.me.1 ≡ [] }
    requires host { seat.old.me.0.is_host ≡ true }
    requires word { (11 ≤ word) × (word < 24) }
    requires may { MayHost word value seat.old.me.0 }
    ensures table { seat.new.table_id ≡ seat.old.table_id }
    ensures slots { seat.new.me.1 ≡ [] }
    ensures tells { TellsHost A.words word seat.old.me.0 value value seat.new.me.0 }
{
    table.table.shared.store::<HostStore<A>>(seat, word, value);
}

// All stores of a row.
fn do_row(table: &HostTable, seat: &mut Place, machine: HostMachine, row: &HostRow) -> HostMachine
    requires table { seat.old.table_id ≡ table.now.id }
    requires slots { seat.old.me.1 ≡ [] }
    requires host { seat.old.me.0.is_host ≡ true }
    requires between { IsBetweenRows machine seat.old.me.0 }
    requires row { IsRowOf seat.old.me.0.setup.page row.now }
    requires may { MayDoRow row.now seat.old.me.0 }
    ensures table { seat.new.table_id ≡ seat.old.table_id }
    ensures slots { seat.new.me.1 ≡ [] }
    ensures view { seat.new.me.0 ≡ record seat.old.me.0 { host_part = part_after row.now seat.old.me.0.host_part } }
    ensures between { IsBetweenRows result seat.new.me.0 }
{
    let mut machine = machine;
    machine.begin(row);
    'storing: loop {
        match machine.next() {
            Act::Store(word, value) => {
                store::<Brand>(table, seat, row, usize::from(word), value);
                machine.give(value);
            }
            Act::Load(_) => unreachable!(),
            Act::End => break,
        }
    }
    machine
}

impl HostSeat {
    // Learns what a part of another seat has seen.
    pub(crate) fn learn(&mut self, table: &HostTable, part: Place)
        requires tables { (self.old.table ≡ table.now.id) × (part.table_id ≡ table.now.id) }
        requires slots { part.me.1 ≡ [] }
        ensures table { self.new.table ≡ self.old.table }
        ensures learned { HasLearned self.old.view part.me.0 self.new.view }
        ensures host { (self.old.view.is_host ≡ true) × (self.old.view.host_part.stores ≡ 0) }
    {
        learn(table, &mut self.seat, part);
    }

    pub(crate) fn resting(seat: Place, machine: HostMachine) -> HostSeat
        requires slots { seat.me.1 ≡ [] }
        requires host { seat.me.0.is_host ≡ true }
        requires rows { seat.me.0.host_part.rows ≡ 1 }
        requires between { IsBetweenRows machine seat.me.0 }
        ensures table { result.table ≡ seat.table_id }
        ensures view { result.view ≡ seat.me.0 }
    {
        HostSeat {
            seat,
            machine,
            rows: 1,
        }
    }

    /// The clock goes on to its next row, whose number is stored in word 23 and answered. The last one is below `rows`.
    pub fn advance(&mut self, table: &HostTable) -> u32
        requires table { self.old.table ≡ table.now.id }
        requires left { self.old.view.host_part.rows < self.old.view.setup.rows }
        requires rows { self.old.view.setup.rows ≤ MOST_HOST_ROWS }
        ensures table { self.new.table ≡ self.old.table }
        ensures row { result ≡ self.old.view.host_part.rows + 1 }
        ensures view { self.new.view ≡ record self.old.view { host_part = row_added self.old.view.host_part } }
    {
        let row = self.rows + 1;
        let machine = self.machine;
        self.machine = do_row(table, &mut self.seat, machine, &HostRow::Clock(row));
        self.rows = row;
        row
    }

    /// The page takes these words, by 13 stores, with the next even sequence count in place of their own. The table has a
    /// page, the words are one with the constant fields of the start page, and fewer than 300,000 pages were written.
    pub fn write_page(&mut self, table: &HostTable, words: &[u64; 13])
        requires table { self.old.table ≡ table.now.id }
        requires page { IsPageRowAfter self.old.view.setup.page words.now }
        requires few { length self.old.view.host_part.pages ≤ MOST_HOST_ROWS }
        ensures table { self.new.table ≡ self.old.table }
        ensures view { self.new.view ≡ record self.old.view { host_part = page_added words.now self.old.view.host_part } }
    {
        let machine = self.machine;
        self.machine = do_row(table, &mut self.seat, machine, &HostRow::Page(*words));
    }
}
