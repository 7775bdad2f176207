//! What the lines so far say.
ghost use Rattle.std.specs.Prelude.{◌≡◌, ◌<◌, ◌+◌, ◌^◌, option_map};
ghost use Rattle.csv.specs.Records.{fields_of};
ghost use Rattle.clock_gate.specs.Trace.{turns_in};
ghost use Rattle.csv_records.specs.TraceError.{Answers, Makes, numbered};
ghost use Rattle.trace_reader.specs.Facts.{Facts, no_facts, words_of_page};
ghost use Rattle.trace_reader.specs.Grammar.{end_fault, ends};
ghost use Rattle.trace_reader.specs.Held.{step_of};

mod adding;
mod checks;

use crate::line::{Line, line_of};
use clock_gate::{
    CallRow, ClockRow, HostRow, List, Party, PollRow, Trace, Turn, USUAL_DRIFT, USUAL_TRIES,
};
use csv::ByteRecord;
use csv_records::{Reason, Refusal, TraceError, TraceFault};
use generation_word::Layout;
use std::alloc::Global;
use std::marker::Model;
use vmclock_page::{Page, to_words};

/// The facts that the next line is tested by, and that the trace is made of.
#[derive(Drop)]
pub struct Held {
    count: u32,
    drift: Option<u32>,
    tries: Option<u16>,
    layout: Option<Layout>,
    image: Option<[u64; 10]>,
    start: Option<Page>,
    page: Option<Page>,
    clocks: Vec<ClockRow>,
    /// The monotonic time of the last row of the clock.
    last: u64,
    host: Vec<HostRow>,
    polls: Vec<PollRow>,
    calls: Vec<CallRow>,
    clients: u32,
    turns: Vec<Turn>,
    /// The turns of all lines of the schedule.
    ran: u64,
    order: Vec<Party>,
}

impl Model for Held {
    ghost use Rattle.std.specs.Prelude.{◌≡◌};
    ghost use Rattle.clock_gate.specs.Trace.{largest_client, turns_of};
    ghost use Rattle.trace_reader.specs.Checks.{last_mono};
    ghost use Rattle.trace_reader.specs.Facts.{Facts};
    ghost use Rattle.trace_reader.specs.Held.{IsWithin};

    ghost Value = { Facts };

    ghost view = { λ h. record { count = h.count; drift = h.drift; tries = h.tries; layout = h.layout; image = h.image; start = h.start; page = h.page; clocks = h.clocks.items; host = h.host.items; polls = h.polls.items; calls = h.calls.items; turns = h.turns.items; order = h.order.items } };

    ghost invariant = { λ h. IsWithin (record { count = h.count; drift = h.drift; tries = h.tries; layout = h.layout; image = h.image; start = h.start; page = h.page; clocks = h.clocks.items; host = h.host.items; polls = h.polls.items; calls = h.calls.items; turns = h.turns.items; order = h.order.items }) × (h.last ≡ last_mono h.clocks.items 0) × (h.clients ≡ largest_client h.calls.items) × (h.ran ≡ turns_of h.turns.items) };
}

// The turns that a line of the schedule gives by their number.
fn turns_in(turn: &Turn) -> u64
    ensures value { result ≡ turns_in turn.now }
    ensures small { result < 2 ^ 32 }
{
    match turn {
        Turn::Run(_, count) => *count as u64,
        Turn::Jobs(_, _) => 0,
    }
}

// The words of a start page.
#[tactic(auto, unfolding(crate::specs::Facts::words_of_page))]
fn words_of(page: Option<Page>) -> Option<[u64; 13]>
    ensures { result ≡ option_map words_of_page page }
{
    match page {
        None => None,
        Some(page) => Some(to_words(&page)),
    }
}

impl Held {
    /// Nothing yet.
    #[tactic(auto, unfolding(crate::specs::Facts::first_in, crate::specs::Facts::clocks_of, crate::specs::Facts::polls_of, crate::specs::Facts::schedule_of, crate::specs::Facts::host_of, crate::specs::Facts::calls_of, crate::specs::Facts::order_of, crate::specs::Facts::gathered, crate::specs::Facts::page_from, crate::specs::Checks::last_mono, clock_gate::specs::Trace::largest_from, clock_gate::specs::Trace::turns_of))]
    pub fn new(alloc: Global) -> Held
        ensures { result ≡ no_facts }
    {
        Held {
            count: 0,
            drift: None,
            tries: None,
            layout: None,
            image: None,
            start: None,
            page: None,
            clocks: Vec::new(alloc),
            last: 0,
            host: Vec::new(alloc),
            polls: Vec::new(alloc),
            calls: Vec::new(alloc),
            clients: 1,
            turns: Vec::new(alloc),
            ran: 0,
            order: Vec::new(alloc),
        }
    }

    fn next_number(&self) -> u32
        ensures { result ≡ Facts.count self.now + 1 }
    {
        self.count + 1
    }

    /// Takes the next record.
    #[tactic(auto, unfolding(crate::specs::Held::step_of))]
    pub fn take(&mut self, alloc: Global, row: &ByteRecord) -> Result<(), TraceError>
        ensures { Makes result self.new (numbered (Facts.count self.old + 1) (step_of self.old (fields_of row.now))) }
    {
        let line = self.next_number();
        let read = match line_of(alloc, row) {
            Ok(read) => read,
            Err(Refusal::Memory) => return Err(TraceError::Memory),
            Err(Refusal::By(reason)) => {
                return Err(TraceError::Refused(TraceFault { line, reason }));
            }
        };
        if let Some(reason) = self.fault_of(&read) {
            return Err(TraceError::Refused(TraceFault { line, reason }));
        }
        self.add(read)?;
        Ok(())
    }

    fn end_fault(&self) -> Option<TraceFault>
        ensures { result ≡ end_fault self.now }
    {
        if self.count == 0 {
            return Some(TraceFault {
                line: 1,
                reason: Reason::Kind,
            });
        }
        if self.clocks.is_empty() {
            return Some(TraceFault {
                line: self.count + 1,
                reason: Reason::NoClock,
            });
        }
        None
    }

    /// The trace, where the records may end here.
    pub fn finish(self) -> Result<Trace, TraceError>
        ensures { Answers result (ends (end_fault self) self) }
    {
        if let Some(fault) = self.end_fault() {
            return Err(TraceError::Refused(fault));
        }
        let page = words_of(self.start);
        Ok(Trace {
            drift: self.drift.unwrap_or(USUAL_DRIFT),
            tries: self.tries.unwrap_or(USUAL_TRIES),
            clients: self.clients,
            layout: self.layout.unwrap_or(Layout::Two),
            image: self.image.unwrap_or([0; 10]),
            page,
            clock: List::from_vec(self.clocks),
            host: List::from_vec(self.host),
            polls: List::from_vec(self.polls),
            calls: List::from_vec(self.calls),
            turns: List::from_vec(self.turns),
            order: List::from_vec(self.order),
        })
    }
}
