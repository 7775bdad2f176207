// A client's calls, one word step at a time.
ghost use Rattle.std.specs.Prelude.{◌≡◌, ℕ, ◌+◌, ◌<◌, ◌≤◌, true, false, [], length, is_some, None, IfSome, IfNone};
ghost use Rattle.clock_gate.specs.declared.limits.TheConstants.{MOST_HOST_ROWS, MOST_CLIENTS, MOST_TRIES};
ghost use Rattle.clock_gate.specs.ClockRow.{IsClock};
ghost use Rattle.segment_views.specs.Seats.{part_of};
ghost use Rattle.segment_views.specs.Steps.{calls_of};
ghost use Rattle.segment_rule.specs.Ruled.{TableView, MayLoadWord, TellsLoad};
ghost use Rattle.interval_now.specs.Call.{Agrees};
ghost use Rattle.segment_rule.specs.Calls.{ClientState, IsSameSeat, Nows};

use crate::loads::load_words;
use crate::plays::{Begin, CutClient, Load};
use crate::table::{HostTable, Place};
use crate::whole_call::whole_call;
use clock_gate::{Act, ClockRow};
use interval_now::{Answer, NowMachine};
use std::marker::Model;

/// A client's seat at the shared words.
#[derive(Drop)]
pub struct ClientSeat {
    seat: Place,
    machine: NowMachine,
    is_first: bool,
    splits: u32,
    in_hand: bool,
    begun: bool,
    tries: u16,
    support: bool,
}

impl Model for ClientSeat {
    ghost use Rattle.std.specs.Prelude.{◌≡◌, ◌≤◌, true, [], is_some};
    ghost use Rattle.clock_gate.specs.declared.limits.TheConstants.{MOST_CLIENTS};
    ghost use Rattle.segment_rule.specs.Calls.{ClientState, client_state, Holds};

    ghost Value = { ClientState };

    ghost view = { λ s. client_state s.seat.table_id s.seat.me.0 s.is_first s.splits s.in_hand s.begun s.tries s.machine };

    ghost invariant = { λ s. (s.seat.me.1 ≡ []) × (s.seat.me.0.seated ≡ true) × (s.support ≡ is_some s.seat.me.0.setup.page) × Holds s.in_hand s.begun s.tries s.machine s.seat.me.0 × (s.seat.me.0.setup.clients ≤ MOST_CLIENTS) };
}

impl ClientSeat {
    pub(crate) fn resting(seat: Place, support: bool, is_first: bool) -> ClientSeat
        requires slots { seat.me.1 ≡ [] }
        requires seated { seat.me.0.seated ≡ true }
        requires support { support ≡ is_some seat.me.0.setup.page }
        requires rows { seat.me.0.setup.rows ≤ MOST_HOST_ROWS }
        requires clients { seat.me.0.setup.clients ≤ MOST_CLIENTS }
        ensures table { result.table ≡ seat.table_id }
        ensures view { result.view ≡ seat.me.0 }
        ensures first { (result.is_first ≡ is_first) × (result.splits ≡ 0) }
        ensures hand { result.in_hand ≡ false }
    {
        ClientSeat {
            seat,
            machine: NowMachine::new(1, support),
            is_first,
            splits: 0,
            in_hand: false,
            begun: false,
            tries: 1,
            support,
        }
    }

    /// Takes a call in hand, and makes no step.
    pub fn begin(&mut self, table: &HostTable, tries: u16)
        requires table { self.old.table ≡ table.now.id }
        requires hand { self.old.in_hand ≡ false }
        requires some { 1 ≤ tries }
        requires most { tries ≤ MOST_TRIES }
        ensures hand { (self.new.in_hand ≡ true) × (self.new.begun ≡ false) × (self.new.tries ≡ tries) }
        ensures view { self.new.view ≡ self.old.view }
        ensures same { IsSameSeat self.old self.new }
        ensures unread { self.new.reading ≡ None }
    {
        self.machine = NowMachine::new(tries, self.support);
        self.in_hand = true;
        self.begun = false;
        self.tries = tries;
    }

    // A part of this seat: what it has seen, without its calls.
    pub(crate) fn part(&mut self, table: &HostTable) -> Place
        requires table { self.old.table ≡ table.now.id }
        ensures part { (result.table_id ≡ self.old.table) × (result.me ≡ (part_of self.old.view, [])) }
        ensures same { self.new ≡ self.old }
    {
        table.table.shared.split_seat::<CutClient>(&mut self.seat)
    }

    /// A seat for one client more, which has seen what this one has, and has no calls yet.
    ///
    /// The first seat alone is split, once for each further client of the table. It costs one load of word 0.
    pub fn split(&mut self, table: &HostTable) -> ClientSeat
        requires table { self.old.table ≡ table.now.id }
        requires first { self.old.is_first ≡ true }
        requires few { self.old.splits + 1 < self.old.view.setup.clients }
        requires hand { self.old.in_hand ≡ false }
        ensures table { result.table ≡ self.old.table }
        ensures seen { result.view ≡ part_of self.old.view }
        ensures further { (result.is_first ≡ false) × (result.in_hand ≡ false) }
        ensures view { self.new.view ≡ self.old.view }
        ensures counted { self.new.splits ≡ self.old.splits + 1 }
        ensures first { (self.new.is_first ≡ true) × (self.new.table ≡ self.old.table) × (self.new.in_hand ≡ false) }
    {
        let seat = self.part(table);
        self.splits += 1;
        ClientSeat::resting(seat, self.support, false)
    }

    /// Makes a whole call in at most so many tries, and answers it.
    pub fn now(&mut self, table: &HostTable, clock: &[ClockRow], tries: u16) -> Answer
        requires table { self.old.table ≡ table.now.id }
        requires clock { length clock.now ≡ self.old.view.setup.rows }
        requires moments { IsClock clock.now }
        requires hand { self.old.in_hand ≡ false }
        requires some { 1 ≤ tries }
        requires most { tries ≤ MOST_TRIES }
        ensures same { IsSameSeat self.old self.new }
        ensures hand { self.new.in_hand ≡ false }
        ensures answer { Nows clock.now tries result self.new.view }
        ensures calls { self.new.view.calls ≡ calls_of self.old.view }
        // The call begins with what the seat had seen.
        ensures before { self.new.view.before ≡ self.old.view.seen }
    {
        let support = self.support;
        if let Some(answer) = whole_call(
            table,
            &mut self.seat,
            &mut self.machine,
            clock,
            tries,
            support,
        ) {
            return answer;
        }
        self.in_hand = true;
        self.begun = true;
        self.tries = tries;
        'calling: loop {
            if let Some(answer) = self.stride(table, clock) {
                return answer;
            }
        }
    }

    /// Whether a call is in hand.
    pub fn in_hand(&self) -> bool
        ensures { result ≡ self.now.in_hand }
    {
        self.in_hand
    }

    fn first(&mut self, table: &HostTable, clock: &[ClockRow]) -> Option<Answer>
        requires table { self.old.table ≡ table.now.id }
        requires clock { length clock.now ≡ self.old.view.setup.rows }
        requires moments { IsClock clock.now }
        requires hand { (self.old.in_hand ≡ true) × (self.old.begun ≡ false) }
        ensures same { IsSameSeat self.old self.new }
        ensures tries { self.new.tries ≡ self.old.tries }
        ensures going { IfNone result ((self.new.in_hand ≡ true) × (self.new.begun ≡ true)) }
        ensures nearer { IfNone result (self.new.left < self.old.left) }
        ensures reading { IfNone result (Agrees clock.now self.new.reading) }
        ensures ended { IfSome result (λ a. (self.new.in_hand ≡ false) × Nows clock.now self.old.tries a self.new.view) }
        ensures calls { self.new.view.calls ≡ calls_of self.old.view }
        ensures before { self.new.view.before ≡ self.old.view.seen }
    {
        let value = table.table.shared.load::<Begin>(&mut self.seat, 1);
        self.machine.give(value, clock);
        self.begun = true;
        let end = self.machine.end();
        self.in_hand = end.is_none();
        end
    }

    fn later(&mut self, table: &HostTable, clock: &[ClockRow]) -> Option<Answer>
        requires table { self.old.table ≡ table.now.id }
        requires clock { length clock.now ≡ self.old.view.setup.rows }
        requires moments { IsClock clock.now }
        requires reading { Agrees clock.now self.old.reading }
        requires hand { (self.old.in_hand ≡ true) × (self.old.begun ≡ true) }
        ensures same { IsSameSeat self.old self.new }
        ensures tries { self.new.tries ≡ self.old.tries }
        ensures going { IfNone result ((self.new.in_hand ≡ true) × (self.new.begun ≡ true)) }
        ensures nearer { IfNone result (self.new.left < self.old.left) }
        ensures reading { IfNone result (Agrees clock.now self.new.reading) }
        ensures ended { IfSome result (λ a. (self.new.in_hand ≡ false) × Nows clock.now self.old.tries a self.new.view) }
        ensures calls { self.new.view.calls ≡ self.old.view.calls }
        ensures before { self.new.view.before ≡ self.old.view.before }
    {
        let Act::Load(word) = self.machine.next() else {
            return None;
        };
        let value = table
            .table
            .shared
            .load::<Load>(&mut self.seat, usize::from(word));
        self.machine.give(value, clock);
        let end = self.machine.end();
        self.in_hand = end.is_none();
        end
    }

    // The same, with words 2 to 9 at once.
    fn farther(&mut self, table: &HostTable, clock: &[ClockRow]) -> Option<Answer>
        requires table { self.old.table ≡ table.now.id }
        requires clock { length clock.now ≡ self.old.view.setup.rows }
        requires moments { IsClock clock.now }
        requires reading { Agrees clock.now self.old.reading }
        requires hand { (self.old.in_hand ≡ true) × (self.old.begun ≡ true) }
        ensures same { IsSameSeat self.old self.new }
        ensures tries { self.new.tries ≡ self.old.tries }
        ensures going { IfNone result ((self.new.in_hand ≡ true) × (self.new.begun ≡ true)) }
        ensures nearer { IfNone result (self.new.left < self.old.left) }
        ensures reading { IfNone result (Agrees clock.now self.new.reading) }
        ensures ended { IfSome result (λ a. (self.new.in_hand ≡ false) × Nows clock.now self.old.tries a self.new.view) }
        ensures calls { self.new.view.calls ≡ self.old.view.calls }
        ensures before { self.new.view.before ≡ self.old.view.before }
    {
        if !self.machine.wants_words() {
            return self.later(table, clock);
        }
        let words = load_words(table, &mut self.seat);
        self.machine.give_words(&words);
        None
    }

    // As `step`, with words 2 to 9 at once.
    fn stride(&mut self, table: &HostTable, clock: &[ClockRow]) -> Option<Answer>
        requires table { self.old.table ≡ table.now.id }
        requires clock { length clock.now ≡ self.old.view.setup.rows }
        requires moments { IsClock clock.now }
        requires hand { self.old.in_hand ≡ true }
        requires reading { Agrees clock.now self.old.reading }
        ensures same { IsSameSeat self.old self.new }
        ensures tries { self.new.tries ≡ self.old.tries }
        ensures going { IfNone result ((self.new.in_hand ≡ true) × (self.new.begun ≡ true)) }
        ensures nearer { IfNone result (self.new.left < self.old.left) }
        ensures reading { IfNone result (Agrees clock.now self.new.reading) }
        ensures ended { IfSome result (λ a. (self.new.in_hand ≡ false) × Nows clock.now self.old.tries a self.new.view) }
        ensures first { self.old.begun ≡ false → self.new.view.calls ≡ calls_of self.old.view }
        ensures later { self.old.begun ≡ true → self.new.view.calls ≡ self.old.view.calls }
        ensures before_first { self.old.begun ≡ false → self.new.view.before ≡ self.old.view.seen }
        ensures before_later { self.old.begun ≡ true → self.new.view.before ≡ self.old.view.before }
    {
        if self.begun {
            self.farther(table, clock)
        } else {
            self.first(table, clock)
        }
    }

    /// Makes one word step of the call in hand, and answers where the step ends it.
    pub fn step(&mut self, table: &HostTable, clock: &[ClockRow]) -> Option<Answer>
        requires table { self.old.table ≡ table.now.id }
        requires clock { length clock.now ≡ self.old.view.setup.rows }
        requires moments { IsClock clock.now }
        requires reading { Agrees clock.now self.old.reading }
        requires hand { self.old.in_hand ≡ true }
        ensures same { IsSameSeat self.old self.new }
        ensures tries { self.new.tries ≡ self.old.tries }
        ensures going { IfNone result ((self.new.in_hand ≡ true) × (self.new.begun ≡ true)) }
        ensures nearer { IfNone result (self.new.left < self.old.left) }
        ensures reading { IfNone result (Agrees clock.now self.new.reading) }
        ensures ended { IfSome result (λ a. (self.new.in_hand ≡ false) × Nows clock.now self.old.tries a self.new.view) }
        ensures first { self.old.begun ≡ false → self.new.view.calls ≡ calls_of self.old.view }
        ensures later { self.old.begun ≡ true → self.new.view.calls ≡ self.old.view.calls }
        // The first step begins the call with what the seat had seen.
        ensures before_first { self.old.begun ≡ false → self.new.view.before ≡ self.old.view.seen }
        ensures before_later { self.old.begun ≡ true → self.new.view.before ≡ self.old.view.before }
    {
        if self.begun {
            self.later(table, clock)
        } else {
            self.first(table, clock)
        }
    }
}
