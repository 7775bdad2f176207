ghost use Rattle.std.specs.Prelude.{◌≡◌, ℕ, ◌^◌, ◌<◌, ◌≤◌, ◌+◌, ◌*◌, true, false, [], Some, None, IfSome, length, is_some};
ghost use Rattle.clock_gate.specs.declared.act.Act.TheVariants.{End};
ghost use Rattle.clock_gate.specs.declared.limits.TheConstants.{MOST_DRIFT, MOST_STORES, MOST_TRIES};
ghost use Rattle.status_machine.specs.Poll.{BaseFits};
ghost use Rattle.writer_reopen.specs.Opening.{opening_act, opening_end};
ghost use Rattle.writer_reopen.specs.Poll.{AreRows};
ghost use Rattle.writer_reopen.specs.PollMachine.{new_polling, polling_act, polling_end, PolledFits};
ghost use Rattle.segment_views.specs.Seats.{daemon_part};
ghost use Rattle.segment_rule.specs.Ruled.{MayLoadWord, TellsLoad};
ghost use Rattle.segment_rule.specs.Settled.{HasLearned};
ghost use Rattle.segment_rule.specs.Opens.{DaemonState, MayOpen, TellsOpen, IsDaemonPart, OpenAt, generation_after, Reopens};
ghost use Rattle.segment_rule.specs.Polls.{MayPoll, TellsPoll, order_for, MayBegin, Polls, next_generation, was_skipped, stays_open, OpenAfter, SupportAfter};

use crate::plays::{Announced, Begin, CutDaemonPart, Load, OpenStore, PollStore};
use crate::settle::learn;
use crate::table::{HostTable, Place};
use clock_gate::{Act, ClockRow};
use generation_word::Layout;
use status_machine::{Daemon, Heard};
use std::marker::{Brand, Model};
use writer_reopen::{Opener, Opening, PollMachine, Polled};

/// The daemon's seat at the shared words.
///
/// Contracts see its table, its view, and whether it is open: after `reopen`, and until a stop.
#[derive(Drop)]
pub struct DaemonSeat {
    seat: Place,
    layout: Layout,
    is_open: bool,
    generation: u32,
}

impl Model for DaemonSeat {
    ghost use Rattle.std.specs.Prelude.{◌≡◌, true, []};
    ghost use Rattle.segment_rule.specs.Opens.{DaemonState, daemon_state, IsDaemonPart, OpenAt};

    ghost Value = { DaemonState };

    ghost view = { λ s. daemon_state s.seat.table_id s.seat.me.0 s.is_open };

    ghost invariant = { λ s. (s.seat.me.1 ≡ []) × (s.seat.me.0.is_daemon ≡ true) × (s.seat.me.0.seated ≡ true) × (s.layout ≡ s.seat.me.0.setup.layout) × IsDaemonPart s.seat.me.0 × (s.is_open ≡ true → OpenAt s.generation s.seat.me.0) };
}

// What the machine of an opening has come to.
fn opened(machine: &Opener) -> Opening
    requires { opening_act machine.now ≡ End }
    ensures { opening_end machine.now ≡ Some result }
{
    match machine.end() {
        Some(opening) => opening,
        None => unreachable!(),
    }
}

// What the machine of a poll has come to.
fn polled(machine: &PollMachine) -> Polled
    requires { polling_act machine.now ≡ End }
    ensures end { polling_end machine.now ≡ Some result }
    ensures fits { PolledFits result }
{
    match machine.end() {
        Some(polled) => polled,
        None => unreachable!(),
    }
}

// The generation that word 1 has after an opening.
fn generation_after(opening: &Opening) -> u32
    ensures { result ≡ generation_after opening.now }
{
    match opening.moved {
        Some(generation) => generation,
        None => opening.start.generation(),
    }
}

// The generation that word 1 has after a poll that goes on.
fn next_generation(polled: &Polled, generation: u32) -> u32
    ensures { result ≡ next_generation generation polled.now }
{
    match polled {
        Polled::Published { publication, .. } => publication.generation,
        Polled::Skipped { .. } | Polled::Stopped { .. } => generation,
    }
}

fn was_skipped(polled: &Polled) -> bool
    ensures { result ≡ was_skipped polled.now }
{
    match polled {
        Polled::Skipped { .. } => true,
        Polled::Published { .. } | Polled::Stopped { .. } => false,
    }
}

// Whether the seat stays open after a poll with this stop.
fn stays_open(stop: Option<u8>, polled: &Polled) -> bool
    ensures { result ≡ stays_open stop polled.now }
{
    match stop {
        None => true,
        Some(_) => was_skipped(polled),
    }
}

impl DaemonSeat {
    // A part of this seat, which has seen all that was published.
    pub(crate) fn part(&mut self, table: &HostTable) -> Place
        requires table { self.old.table ≡ table.now.id }
        ensures part { (result.table_id ≡ self.old.table) × (result.me ≡ (daemon_part self.old.view, [])) }
        ensures same { self.new ≡ self.old }
    {
        table
            .table
            .shared
            .split_seat::<CutDaemonPart>(&mut self.seat)
    }

    // Learns what a part of a client's seat has seen.
    pub(crate) fn learn(&mut self, table: &HostTable, part: Place)
        requires tables { (self.old.table ≡ table.now.id) × (part.table_id ≡ table.now.id) }
        requires slots { part.me.1 ≡ [] }
        ensures same { (self.new.table ≡ self.old.table) × (self.new.is_open ≡ self.old.is_open) }
        ensures learned { HasLearned self.old.view part.me.0 self.new.view }
        ensures daemon { self.old.view.is_daemon ≡ true }
    {
        learn(table, &mut self.seat, part);
    }

    pub(crate) fn resting(seat: Place, layout: Layout) -> DaemonSeat
        requires slots { seat.me.1 ≡ [] }
        requires daemon { seat.me.0.is_daemon ≡ true }
        requires seated { seat.me.0.seated ≡ true }
        requires layout { layout ≡ seat.me.0.setup.layout }
        requires owned { IsDaemonPart seat.me.0 }
        ensures table { result.table ≡ seat.table_id }
        ensures view { result.view ≡ seat.me.0 }
        ensures shut { result.is_open ≡ false }
    {
        DaemonSeat {
            seat,
            layout,
            is_open: false,
            generation: 0,
        }
    }

    // The first load of a call.
    fn first(&mut self, table: &HostTable, word: usize) -> u64
        requires table { self.old.table ≡ table.now.id }
        requires word { word < 24 }
        requires may { MayLoadWord word self.old.view }
        requires shut { self.old.is_open ≡ false }
        ensures table { self.new.table ≡ self.old.table }
        ensures tells { TellsLoad true word self.old.view result result self.new.view }
        ensures shut { self.new.is_open ≡ false }
    {
        table.table.shared.load::<Begin>(&mut self.seat, word)
    }

    // A later load.
    fn load(&mut self, table: &HostTable, word: usize) -> u64
        requires table { self.old.table ≡ table.now.id }
        requires word { word < 24 }
        requires may { MayLoadWord word self.old.view }
        requires shut { self.old.is_open ≡ false }
        ensures table { self.new.table ≡ self.old.table }
        ensures tells { TellsLoad false word self.old.view result result self.new.view }
        ensures shut { self.new.is_open ≡ false }
    {
        table.table.shared.load::<Load>(&mut self.seat, word)
    }

    // A store of an opening.
    fn open_store(&mut self, table: &HostTable, word: usize, value: u64)
        requires table { self.old.table ≡ table.now.id }
        requires word { word < 2 }
        requires may { MayOpen word value self.old.view }
        requires shut { self.old.is_open ≡ false }
        ensures table { self.new.table ≡ self.old.table }
        ensures tells { TellsOpen word self.old.view value value self.new.view }
        ensures shut { self.new.is_open ≡ false }
    {
        table
            .table
            .shared
            .store::<OpenStore>(&mut self.seat, word, value);
    }

    // The next store of the publication that the machine has come to.
    fn poll_store<A: Announced>(
        &mut self,
        table: &HostTable,
        _machine: &PollMachine,
        word: usize,
        value: u64,
    )
        requires table { self.old.table ≡ table.now.id }
        requires word { (1 ≤ word) × (word < 10) }
        requires may { MayPoll A.entry word value self.old.view }
        requires shut { self.old.is_open ≡ false }
        ensures table { self.new.table ≡ self.old.table }
        ensures tells { TellsPoll A.entry word self.old.view value value self.new.view }
        ensures shut { self.new.is_open ≡ false }
    {
        table
            .table
            .shared
            .store::<PollStore<A>>(&mut self.seat, word, value);
    }

    // The seat is open, with this number in word 1.
    fn open_at(&mut self, generation: u32)
        requires number { OpenAt generation self.old.view }
        ensures open { self.new.is_open ≡ true }
        ensures same { (self.new.view ≡ self.old.view) × (self.new.table ≡ self.old.table) }
    {
        self.is_open = true;
        self.generation = generation;
    }

    /// Opens the segment, as the daemon does when it is started: a new one gets its magic and header, the record that stands
    /// in it or the odd number of an abandoned update is kept, and a segment of version 2 is moved to layout 3. It can't be
    /// refused. Source: ClockBound's PROTOCOL; the move is this project's own.
    pub fn reopen(&mut self, table: &HostTable) -> Opening
        requires table { self.old.table ≡ table.now.id }
        ensures table { self.new.table ≡ self.old.table }
        ensures open { self.new.is_open ≡ true }
        ensures reopens { Reopens self.old.view result self.new.view }
    {
        self.is_open = false;
        let opening = self.run_opener(table);
        self.open_at(generation_after(&opening));
        opening
    }

    // The steps of the machine.
    fn run_opener(&mut self, table: &HostTable) -> Opening
        requires table { self.old.table ≡ table.now.id }
        requires shut { self.old.is_open ≡ false }
        ensures table { self.new.table ≡ self.old.table }
        ensures shut { self.new.is_open ≡ false }
        ensures reopens { Reopens self.old.view result self.new.view }
        ensures number { OpenAt (generation_after result) self.new.view }
    {
        let mut machine = Opener::new(self.layout);
        let value = self.first(table, 0);
        machine.give(value);
        'opening: loop {
            match machine.next() {
                Act::Load(word) => {
                    let value = self.load(table, usize::from(word));
                    machine.give(value);
                }
                Act::Store(word, value) => {
                    self.open_store(table, usize::from(word), value);
                    machine.give(value);
                }
                Act::End => break,
            }
        }
        opened(&machine)
    }

    /// One poll: the clock is read, with a page its marker, the reply is taken at the clock's row, and the record is published.
    ///
    /// The seat is open. `daemon` has the table's support, a drift of at most 1,000,000,000 ppb, and a base that keeps the
    /// bounds of a record. `number` is the poll's, `heard` what came back from chronyd. `clock` has as many rows as the table,
    /// with times up to `LAST_MOMENT`. `tries`, from 1 to 1,000, are those of the page.
    ///
    /// `Skipped` comes exactly where each try of the page failed; nothing was stored then. The seat stays open.
    pub fn poll(
        &mut self,
        table: &HostTable,
        daemon: Daemon,
        number: u32,
        heard: Heard,
        clock: &[ClockRow],
        tries: u16,
    ) -> Polled
        requires table { self.old.table ≡ table.now.id }
        requires open { self.old.is_open ≡ true }
        requires support { daemon.support ≡ is_some self.old.view.setup.page }
        requires drift { daemon.drift ≤ MOST_DRIFT }
        requires base { IfSome daemon.base BaseFits }
        requires clock { length clock.now ≡ self.old.view.setup.rows }
        requires rows { AreRows clock.now }
        requires some_tries { 0 < tries }
        requires most_tries { tries ≤ MOST_TRIES }
        ensures table { self.new.table ≡ self.old.table }
        ensures open { self.new.is_open ≡ true }
        ensures polls { Polls clock.now (order_for self.old.view daemon number heard None tries) self.old.view result self.new.view }
        // A daemon that is handed on can take the next poll.
        ensures fits { PolledFits result }
        ensures support { SupportAfter daemon.support result }
    {
        self.poll_until(table, daemon, number, heard, clock, tries, None)
    }

    /// As `poll`, but the daemon stops after so many stores, from 0 to 10; a poll that is skipped doesn't stop.
    ///
    /// `Stopped` comes exactly where the page was seen or there is none, and `stores` is at most 9; so many stores were made.
    /// After 10 the answer is `Published`. The seat stays open only after `Skipped`.
    pub fn stop_after(
        &mut self,
        table: &HostTable,
        daemon: Daemon,
        number: u32,
        heard: Heard,
        clock: &[ClockRow],
        tries: u16,
        stores: u8,
    ) -> Polled
        requires table { self.old.table ≡ table.now.id }
        requires open { self.old.is_open ≡ true }
        requires support { daemon.support ≡ is_some self.old.view.setup.page }
        requires drift { daemon.drift ≤ MOST_DRIFT }
        requires base { IfSome daemon.base BaseFits }
        requires clock { length clock.now ≡ self.old.view.setup.rows }
        requires rows { AreRows clock.now }
        requires some_tries { 0 < tries }
        requires most_tries { tries ≤ MOST_TRIES }
        requires stores { stores ≤ MOST_STORES }
        ensures table { self.new.table ≡ self.old.table }
        ensures open { self.new.is_open ≡ was_skipped result }
        ensures polls { Polls clock.now (order_for self.old.view daemon number heard (Some stores) tries) self.old.view result self.new.view }
        ensures fits { PolledFits result }
        ensures support { SupportAfter daemon.support result }
    {
        self.poll_until(table, daemon, number, heard, clock, tries, Some(stores))
    }

    // A poll, with a stop or without.
    fn poll_until(
        &mut self,
        table: &HostTable,
        daemon: Daemon,
        number: u32,
        heard: Heard,
        clock: &[ClockRow],
        tries: u16,
        stop: Option<u8>,
    ) -> Polled
        requires table { self.old.table ≡ table.now.id }
        requires open { self.old.is_open ≡ true }
        requires support { daemon.support ≡ is_some self.old.view.setup.page }
        requires drift { daemon.drift ≤ MOST_DRIFT }
        requires base { IfSome daemon.base BaseFits }
        requires clock { length clock.now ≡ self.old.view.setup.rows }
        requires rows { AreRows clock.now }
        requires some_tries { 0 < tries }
        requires most_tries { tries ≤ MOST_TRIES }
        requires stops { IfSome stop (λ s. s ≤ MOST_STORES) }
        ensures table { self.new.table ≡ self.old.table }
        ensures open { self.new.is_open ≡ stays_open stop result }
        ensures polls { Polls clock.now (order_for self.old.view daemon number heard stop tries) self.old.view result self.new.view }
        ensures fits { PolledFits result }
        ensures support { SupportAfter daemon.support result }
    {
        let generation = self.generation;
        let machine = PollMachine::begin(
            daemon,
            self.layout,
            generation,
            number,
            heard,
            stop,
            tries,
        );
        self.is_open = false;
        let polled = self.run_poll(table, machine, clock);
        if stays_open(stop, &polled) {
            self.open_at(next_generation(&polled, generation));
        }
        polled
    }

    // The steps of the machine, which has made none yet.
    fn run_poll(&mut self, table: &HostTable, machine: PollMachine, clock: &[ClockRow]) -> Polled
        requires table { self.old.table ≡ table.now.id }
        requires shut { self.old.is_open ≡ false }
        requires first { machine ≡ new_polling machine.order }
        requires may { MayBegin clock.now machine.order self.old.view }
        ensures table { self.new.table ≡ self.old.table }
        ensures shut { self.new.is_open ≡ false }
        ensures polls { Polls clock.now machine.order self.old.view result self.new.view }
        ensures open { OpenAfter machine.order.stop machine.order.generation result self.new.view }
        ensures fits { PolledFits result }
        ensures support { SupportAfter machine.order.daemon.support result }
    {
        let mut machine = machine;
        let value = self.first(table, 23);
        machine.give(value, clock);
        'polling: loop {
            match machine.next() {
                Act::Load(word) => {
                    let value = self.load(table, usize::from(word));
                    machine.give(value, clock);
                }
                Act::Store(word, value) => {
                    self.poll_store::<Brand>(table, &machine, usize::from(word), value);
                    machine.give(value, clock);
                }
                Act::End => break,
            }
        }
        polled(&machine)
    }
}
