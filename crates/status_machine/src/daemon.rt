ghost use Rattle.std.specs.Prelude.{◌≡◌, ◌≤◌, ◌^◌, ◌+ℤ◌, ◌≤ℤ◌, pos, List, [], ◌∷◌, is_some, IfSome};
ghost use Rattle.clock_gate.specs.declared.limits.TheConstants.{LAST_MOMENT};
ghost use Rattle.status_machine.specs.declared.poll.Poll.{Poll as Polled};
ghost use Rattle.status_machine.specs.Poll.{is_good, BaseFits};
ghost use Rattle.status_machine.specs.Incarnation.{Incarnation, start_base, base_by_status, status_by, as_of_by, bound_by, marker_or_zero, record_at};
ghost use Rattle.status_machine.specs.Step.{is_marked, mode_is_disrupted, daemon_step, record_of, start_held, start_mode, daemon_begun, ShowsPast};

use crate::base::Base;
use crate::mode::Mode;
use crate::poll::Poll;
use clock_gate::{ClockStatus, Stamp};
use segment_layout::{Record, Start};

// A record says nothing from 1,000 s after as-of on (this project's choice).
const VALID_NANOS: i128 = 1_000_000_000_000;

/// What the daemon holds from poll to poll.
#[derive(Clone, Copy, Debug, PartialEq, Eq)]
pub struct Daemon {
    /// How fast a bound grows, in parts per billion from 0 to 1,000,000,000.
    pub drift: u32,
    /// Whether there is a page to look at for disruptions.
    pub support: bool,
    /// The page's marker as it was last seen.
    pub held: Option<u64>,
    /// The last poll that bounded the clock's error.
    pub base: Option<Base>,
    /// Whether a disruption is still to be absorbed.
    pub mode: Mode,
}

impl Daemon {
    /// The state before the first poll, from what the segment held when it was opened.
    ///
    /// `drift` is at most 1,000,000,000 ppb, `support` says whether the run has a page, and `base` is the number of the
    /// poll that gave the bound of a kept record. A kept record gives its bound unless its status is unknown, and its
    /// marker where both sides have support. Where the marker before the opening isn't known, the first poll marks.
    pub fn resume(start: &Start, drift: u32, support: bool, base: u32) -> Daemon
        requires { drift ≤ 1000000000 }
        ensures value { result ≡ daemon_begun (record { start = start.now; drift = drift; support = support; base = base }) }
        ensures shows { ShowsPast (record { start = start.now; drift = drift; support = support; base = base }) [] result }
        ensures base { IfSome result.base BaseFits }
    {
        Daemon {
            drift,
            support,
            held: held_at_start(start, support),
            base: base_at_start(start, base),
            mode: mode_at_start(start, support),
        }
    }

    /// Takes one poll, and gives the record to publish for it.
    ///
    /// The poll has a marker exactly where the daemon has support. A poll marks where its marker isn't the one held. A
    /// mark is absorbed by a good poll with another reference time than that of the first readable reply since the mark;
    /// until then the status is disrupted, and the record keeps the bound from before. Else a good poll bounds the clock
    /// anew. The clauses `state` and `gives` say the same by a look back over all polls since `resume`.
    pub fn step(&mut self, poll: &Poll) -> Record
        requires marker { is_some poll.now.marker ≡ self.old.support }
        requires moment { poll.now.reading.mono ≤ LAST_MOMENT }
        requires base { IfSome self.old.base BaseFits }
        requires drift { self.old.drift ≤ 1000000000 }
        ensures stepped { self.new ≡ daemon_step self.old poll.now }
        ensures answer { result ≡ record_of (daemon_step self.old poll.now) poll.now }
        ensures base { IfSome self.new.base BaseFits }

        // By looking back.
        ensures state { (from : Incarnation) (past : List Polled) → ShowsPast from past self.old → ShowsPast from (poll.now ∷ past) self.new }
        ensures gives { (from : Incarnation) (past : List Polled) → ShowsPast from past self.old → result ≡ record_at from poll.now past }
    {
        self.advance(poll);
        self.record_of(poll)
    }

    // What is held after the poll.
    fn advance(&mut self, poll: &Poll)
        requires moment { poll.now.reading.mono ≤ LAST_MOMENT }
        requires base { IfSome self.old.base BaseFits }
        ensures stepped { self.new ≡ daemon_step self.old poll.now }
        ensures base { IfSome self.new.base BaseFits }
    {
        let marks = self.is_marked_by(poll.marker);
        let good = poll.good_base();
        self.held = poll.marker.or(self.held);
        self.mode = self
            .mode
            .after(marks, good.is_some(), poll.heard.reference());
        if !self.mode.is_disrupted() && good.is_some() {
            self.base = good;
        }
    }

    // Whether a poll with this marker marks.
    fn is_marked_by(&self, marker: Option<u64>) -> bool
        ensures { result ≡ is_marked self.now.mode self.now.held marker }
    {
        match marker {
            None => false,
            Some(marker) => match self.mode {
                Mode::MustMark => true,
                Mode::Clear | Mode::Disrupted { .. } => match self.held {
                    None => false,
                    Some(held) => held != marker,
                },
            },
        }
    }

    // The record for the poll that was just taken.
    fn record_of(&self, poll: &Poll) -> Record
        requires moment { poll.now.reading.mono ≤ LAST_MOMENT }
        requires base { IfSome self.now.base BaseFits }
        requires drift { self.now.drift ≤ 1000000000 }
        ensures { result ≡ record_of self.now poll.now }
    {
        let as_of = as_of_by(&self.base, poll.reading.mono);
        let found = Record::new(
            stamp_of(as_of),
            stamp_of(void_after_of(as_of)),
            bound_by(&self.base),
            marker_or_zero(self.held),
            self.drift,
            status_by(
                self.mode.is_disrupted(),
                poll.good_base().is_some(),
                self.base.is_some(),
            ),
            self.support,
        );
        match found {
            Some(rec) => rec,
            None => unreachable!(),
        }
    }
}

fn held_at_start(start: &Start, support: bool) -> Option<u64>
    ensures { result ≡ start_held support start.now }
{
    match start {
        Start::Kept(_, rec) if support && rec.support() => Some(rec.marker()),
        Start::Fresh | Start::Kept(_, _) | Start::Torn(_) => None,
    }
}

fn base_at_start(start: &Start, poll: u32) -> Option<Base>
    ensures value { result ≡ start_base start.now poll }
    ensures fits { IfSome result BaseFits }
{
    match start {
        Start::Kept(_, rec) => base_of_record(rec, poll),
        Start::Fresh | Start::Torn(_) => None,
    }
}

fn base_of_record(rec: &Record, poll: u32) -> Option<Base>
    ensures value { result ≡ base_by_status rec.now.status (record { as_of = rec.now.as_of; bound = rec.now.bound; poll = poll }) }
    ensures fits { IfSome result BaseFits }
{
    if rec.status() == ClockStatus::Unknown {
        return None;
    }
    Some(Base {
        as_of: rec.as_of(),
        bound: rec.bound(),
        poll,
    })
}

fn mode_at_start(start: &Start, support: bool) -> Mode
    ensures { result ≡ start_mode support start.now }
{
    match start {
        Start::Fresh => Mode::Clear,
        Start::Torn(_) if support => Mode::MustMark,
        Start::Torn(_) => Mode::Clear,
        Start::Kept(_, rec) if support && !rec.support() => Mode::MustMark,
        Start::Kept(_, rec) if rec.status() == ClockStatus::Disrupted => {
            Mode::Disrupted { guard: None }
        }
        Start::Kept(_, _) => Mode::Clear,
    }
}

fn as_of_by(base: &Option<Base>, mono: u64) -> i128
    requires moment { mono ≤ LAST_MOMENT }
    requires base { IfSome base.now BaseFits }
    ensures value { result ≡ as_of_by base.now mono }
    ensures low { pos 0 ≤ℤ result }
    ensures high { result ≤ℤ pos 4000000000999999999 }
{
    match base {
        Some(base) => base.as_of.nanos(),
        None => i128::from(mono),
    }
}

fn bound_by(base: &Option<Base>) -> i64
    requires { IfSome base.now BaseFits }
    ensures value { result ≡ bound_by base.now }
    ensures low { pos 0 ≤ℤ result }
    ensures high { result ≤ℤ pos (2 ^ 62) }
{
    match base {
        Some(base) => base.bound,
        None => 0,
    }
}

fn void_after_of(as_of: i128) -> i128
    requires low { pos 0 ≤ℤ as_of }
    requires high { as_of ≤ℤ pos 4000000000999999999 }
    ensures value { result ≡ as_of +ℤ pos 1000000000000 }
    ensures low { pos 0 ≤ℤ result }
    ensures high { result ≤ℤ pos 4000001000999999999 }
{
    as_of + VALID_NANOS
}

fn marker_or_zero(held: Option<u64>) -> u64
    ensures { result ≡ marker_or_zero held }
{
    held.unwrap_or(0)
}

fn stamp_of(nanos: i128) -> Stamp
    requires low { pos 0 ≤ℤ nanos }
    requires high { nanos ≤ℤ pos 4000001000999999999 }
    ensures { result ≡ nanos }
{
    Stamp::from_nanos(nanos).unwrap()
}

fn status_by(disrupted: bool, good: bool, has_base: bool) -> ClockStatus
    ensures { result ≡ status_by disrupted good has_base }
{
    if disrupted {
        ClockStatus::Disrupted
    } else if good {
        ClockStatus::Synchronized
    } else if has_base {
        ClockStatus::FreeRunning
    } else {
        ClockStatus::Unknown
    }
}
