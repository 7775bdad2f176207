//! What a line that passes its tests adds, a function for each kind of line.
ghost use Rattle.std.specs.Prelude.{◌≡◌, None, Some, if◌then◌else◌, OnErr, OnOk};
ghost use Rattle.clock_gate.specs.Trace.{larger};
ghost use Rattle.clock_gate.specs.declared.limits.TheConstants.{USUAL_TRIES};
ghost use Rattle.clock_gate.specs.declared.trace.Party.TheVariants as parties;
ghost use Rattle.csv_records.specs.Step.{joined};
ghost use Rattle.trace_reader.specs.Checks.{fault_of};
ghost use Rattle.trace_reader.specs.Facts.{Facts, given, marked, page_row};
ghost use Rattle.trace_reader.specs.Held.{taken};
ghost use Rattle.trace_reader.specs.declared.line.Line.TheVariants as lines;

use super::{Held, turns_in};
use crate::line::Line;
use clock_gate::{CallRow, ClockRow, HostRow, Party, PollRow, Turn, USUAL_TRIES};
use generation_word::Layout;
use std::alloc::AllocError;
use vmclock_page::{Page, to_words};

// The job of a row of the clock: the first is in place at the start.
fn push_later(order: &mut Vec<Party>, is_first: bool) -> Result<(), AllocError>
    ensures { OnOk result (order.new.items ≡ joined order.old.items (if is_first then None else Some parties.Host)) }
{
    if is_first {
        return Ok(());
    }
    order.push(Party::Host)?;
    Ok(())
}

fn with_marker(marker: u64, page: Option<Page>) -> Option<Page>
    ensures { result ≡ marked marker page }
{
    match page {
        None => None,
        Some(page) => Some(Page {
            disruption_marker: marker,
            ..page
        }),
    }
}

#[tactic(auto, unfolding(crate::specs::Facts::words_of_page))]
fn row_of(page: &Page) -> HostRow
    ensures { Some result ≡ page_row (Some page.now) }
{
    HostRow::Page(to_words(page))
}

fn push_page(host: &mut Vec<HostRow>, page: &Option<Page>) -> Result<(), AllocError>
    ensures rows { OnOk result (host.new.items ≡ joined host.old.items (page_row page.now)) }
    ensures failed { OnErr result (host.new.items ≡ host.old.items) }
{
    match page {
        None => Ok(()),
        Some(page) => {
            host.push(row_of(page))?;
            Ok(())
        }
    }
}

#[tactic(auto, unfolding(clock_gate::specs::Trace::larger))]
fn larger(a: u32, b: u32) -> u32
    ensures { result ≡ larger a b }
{
    if a < b {
        return b;
    }
    a
}

impl Held {
    fn add_header(&mut self)
        requires { fault_of self.old lines.Header ≡ None }
        ensures { self.new ≡ taken self.old lines.Header }
    {
        self.count += 1;
    }

    fn add_drift(&mut self, drift: u32)
        requires { fault_of self.old (lines.Drift drift) ≡ None }
        ensures { self.new ≡ taken self.old (lines.Drift drift) }
    {
        self.drift = Some(drift);
        self.count += 1;
    }

    fn add_tries(&mut self, tries: u16)
        requires { fault_of self.old (lines.Tries tries) ≡ None }
        ensures { self.new ≡ taken self.old (lines.Tries tries) }
    {
        self.tries = Some(tries);
        self.count += 1;
    }

    fn add_layout(&mut self, layout: Layout)
        requires { fault_of self.old (lines.Layout layout) ≡ None }
        ensures { self.new ≡ taken self.old (lines.Layout layout) }
    {
        self.layout = Some(layout);
        self.count += 1;
    }

    fn add_image(&mut self, words: [u64; 10])
        requires { fault_of self.old (lines.Image words) ≡ None }
        ensures { self.new ≡ taken self.old (lines.Image words) }
    {
        self.image = Some(words);
        self.count += 1;
    }

    fn add_page(&mut self, page: Page) -> Result<(), AllocError>
        requires { fault_of self.old (lines.Page (Some page)) ≡ None }
        ensures { OnOk result (self.new ≡ taken self.old (lines.Page (Some page))) }
    {
        if self.clocks.is_empty() {
            self.start = Some(page);
            self.page = Some(page);
            self.count += 1;
            return Ok(());
        }
        self.host.push(row_of(&page))?;
        self.page = Some(page);
        self.order.push(Party::Host)?;
        self.count += 1;
        Ok(())
    }

    #[tactic(auto, using(crate::proofs::Last::last_more))]
    fn add_clock(&mut self, row: ClockRow) -> Result<(), AllocError>
        requires { fault_of self.old (lines.Clock row) ≡ None }
        ensures { OnOk result (self.new ≡ taken self.old (lines.Clock row)) }
    {
        let is_first = self.clocks.is_empty();
        let number = self.clocks.len() as u32 + 1;
        self.host.push(HostRow::Clock(number))?;
        self.clocks.push(row)?;
        self.last = row.mono;
        push_later(&mut self.order, is_first)?;
        self.count += 1;
        Ok(())
    }

    fn add_mark(&mut self, marker: u64) -> Result<(), AllocError>
        requires { fault_of self.old (lines.Mark marker) ≡ None }
        ensures { OnOk result (self.new ≡ taken self.old (lines.Mark marker)) }
    {
        let page = with_marker(marker, self.page);
        push_page(&mut self.host, &page)?;
        self.page = page;
        self.order.push(Party::Host)?;
        self.count += 1;
        Ok(())
    }

    fn add_disrupt(&mut self) -> Result<(), AllocError>
        requires { fault_of self.old lines.Disrupt ≡ None }
        ensures { OnOk result (self.new ≡ taken self.old lines.Disrupt) }
    {
        self.host.push(HostRow::Disrupt)?;
        self.order.push(Party::Host)?;
        self.count += 1;
        Ok(())
    }

    fn add_poll(&mut self, row: PollRow) -> Result<(), AllocError>
        requires { fault_of self.old (lines.Poll row) ≡ None }
        ensures { OnOk result (self.new ≡ taken self.old (lines.Poll row)) }
    {
        self.polls.push(row)?;
        self.order.push(Party::Daemon)?;
        self.count += 1;
        Ok(())
    }

    fn tries_of(&self, tries: Option<u16>) -> u16
        ensures { result ≡ given tries (given (Facts.tries self.now) USUAL_TRIES) }
    {
        match tries {
            Some(tries) => tries,
            None => self.tries.unwrap_or(USUAL_TRIES),
        }
    }

    fn add_call(&mut self, client: u32, tries: Option<u16>) -> Result<(), AllocError>
        requires { fault_of self.old (lines.Call client tries) ≡ None }
        ensures { OnOk result (self.new ≡ taken self.old (lines.Call client tries)) }
    {
        let tries = self.tries_of(tries);
        let clients = larger(self.clients, client);
        self.calls.push(CallRow { client, tries })?;
        self.clients = clients;
        self.order.push(Party::Client(client))?;
        self.count += 1;
        Ok(())
    }

    fn add_turns(&mut self, turn: Turn) -> Result<(), AllocError>
        requires { fault_of self.old (lines.Turns turn) ≡ None }
        ensures { OnOk result (self.new ≡ taken self.old (lines.Turns turn)) }
    {
        let turns = turns_in(&turn);
        self.turns.push(turn)?;
        self.ran += turns;
        self.count += 1;
        Ok(())
    }

    /// Adds a line.
    pub fn add(&mut self, line: Line) -> Result<(), AllocError>
        requires { fault_of self.old line ≡ None }
        ensures { OnOk result (self.new ≡ taken self.old line) }
    {
        match line {
            Line::Header => self.add_header(),
            Line::Drift(drift) => self.add_drift(drift),
            Line::Tries(tries) => self.add_tries(tries),
            Line::Layout(layout) => self.add_layout(layout),
            Line::Image(words) => self.add_image(words),
            Line::Page(None) => unreachable!(),
            Line::Page(Some(page)) => return self.add_page(page),
            Line::Clock(row) => return self.add_clock(row),
            Line::Mark(marker) => return self.add_mark(marker),
            Line::Disrupt => return self.add_disrupt(),
            Line::Poll(row) => return self.add_poll(row),
            Line::Call(client, tries) => return self.add_call(client, tries),
            Line::Turns(turn) => return self.add_turns(turn),
        }
        Ok(())
    }
}
