//! What is held of the lines so far.
ghost use Rattle.std.specs.Prelude.{◌≡◌, ◌+◌, ◌++◌, None, vec_items, OnOk, IfOk};
ghost use Rattle.csv.specs.Records.{fields_of};
ghost use Rattle.csv_records.specs.TraceError.{Gives, Makes, numbered};
ghost use Rattle.vmclock_time.specs.declared.rows.PageTold.{PageTold};
ghost use Rattle.pagetime_text.specs.Facts.{breaks_page};
ghost use Rattle.pagetime_text.specs.Held.{HeldFacts, breaks_order, ends, fault_of, held_start, passes_limit, step_of, taken, told_text};
ghost use Rattle.pagetime_text.specs.declared.line.Line.TheVariants as line;

use crate::line::{Line, line_of};
use crate::text::{put_header, put_premises, put_told};
use csv::ByteRecord;
use csv_records::{Reason, Refusal, TraceError, TraceFault};
use std::alloc::{AllocError, Global};
use std::marker::Model;
use vmclock_page::Page;
use vmclock_time::{MOST_PAGE_ROWS, Making, PageTold};

/// How many lines there were and how many rows, what is made of the rows, and the report's text so far.
#[derive(Drop)]
pub struct Held {
    count: u32,
    rows: usize,
    making: Making,
    text: Vec<u8>,
}

impl Model for Held {
    ghost use Rattle.pagetime_text.specs.Held.{HeldFacts, IsHeld};

    ghost Value = { HeldFacts };

    ghost view = { λ h. record { count = h.count; rows = h.rows; made = h.making; text = h.text.items } };

    ghost invariant = { λ h. IsHeld (record { count = h.count; rows = h.rows; made = h.making; text = h.text.items }) };
}

// The line of a read, where there is one.
fn put_read_line(text: &mut Vec<u8>, told: Option<PageTold>) -> Result<(), AllocError>
    ensures { OnOk result (vec_items text.new ≡ vec_items text.old ++ told_text told) }
{
    match told {
        None => Ok(()),
        Some(told) => put_told(text, told),
    }
}

impl Held {
    /// Before the first line.
    pub fn new(alloc: Global) -> Result<Held, AllocError>
        ensures { IfOk result (λ held. held ≡ held_start) }
    {
        let mut text = Vec::new(alloc);
        put_header(&mut text)?;
        Ok(Held {
            count: 0,
            rows: 0,
            making: Making::new(),
            text,
        })
    }

    fn breaks_order(&self, line: &Line) -> bool
        ensures { result ≡ breaks_order self.now line.now }
    {
        match line {
            Line::Header => self.count != 0,
            Line::Page(_, _) => self.count == 0,
            Line::Read(_, _) => self.count == 0 || !self.making.has_page(),
        }
    }

    fn passes_limit(&self, line: &Line) -> bool
        ensures { result ≡ passes_limit self.now line.now }
    {
        match line {
            Line::Header => false,
            Line::Page(_, _) => self.rows >= MOST_PAGE_ROWS,
            Line::Read(_, _) => self.rows >= MOST_PAGE_ROWS,
        }
    }

    fn fault_of(&self, line: &Line) -> Option<Reason>
        ensures { result ≡ fault_of self.now line.now }
    {
        if self.breaks_order(line) {
            return Some(Reason::Order);
        }
        if breaks_page(line) {
            return Some(Reason::Page);
        }
        if self.passes_limit(line) {
            return Some(Reason::Limit);
        }
        None
    }

    fn add_header(&mut self)
        requires { fault_of self.old line.Header ≡ None }
        ensures { self.new ≡ taken self.old line.Header }
    {
        self.count += 1;
    }

    fn add_page(&mut self, page: Option<Page>, truth: Option<u64>)
        requires { fault_of self.old (line.Page page truth) ≡ None }
        ensures { self.new ≡ taken self.old (line.Page page truth) }
    {
        let Some(page) = page else {
            unreachable!();
        };
        self.making.take_page(&page, truth);
        self.rows += 1;
        self.count += 1;
    }

    fn add_read(&mut self, counter: u64, truth: Option<u64>) -> Result<(), AllocError>
        requires { fault_of self.old (line.Read counter truth) ≡ None }
        ensures { OnOk result (self.new ≡ taken self.old (line.Read counter truth)) }
    {
        self.rows += 1;
        self.count += 1;
        let told = self.making.take_read(counter, truth);
        put_read_line(&mut self.text, told)
    }

    fn add(&mut self, line: Line) -> Result<(), AllocError>
        requires { fault_of self.old line ≡ None }
        ensures { OnOk result (self.new ≡ taken self.old line) }
    {
        match line {
            Line::Header => {
                self.add_header();
                Ok(())
            }
            Line::Page(page, truth) => {
                self.add_page(page, truth);
                Ok(())
            }
            Line::Read(counter, truth) => self.add_read(counter, truth),
        }
    }

    fn next_number(&self) -> u32
        ensures { result ≡ HeldFacts.count self.now + 1 }
    {
        self.count + 1
    }

    /// Takes the next record.
    #[tactic(auto, unfolding(crate::specs::Held::step_of))]
    pub fn take(&mut self, alloc: Global, row: &ByteRecord) -> Result<(), TraceError>
        ensures { Makes result self.new (numbered (HeldFacts.count self.old + 1) (step_of self.old (fields_of row.now))) }
    {
        let number = self.next_number();
        let line = match line_of(alloc, row) {
            Ok(line) => line,
            Err(Refusal::Memory) => return Err(TraceError::Memory),
            Err(Refusal::By(reason)) => return Err(refused(number, reason)),
        };
        if let Some(reason) = self.fault_of(&line) {
            return Err(refused(number, reason));
        }
        self.add(line)?;
        Ok(())
    }

    /// The report's text, where there was a record.
    pub fn finish(self) -> Result<Vec<u8>, TraceError>
        ensures { Gives vec_items result (ends self) }
    {
        if self.count == 0 {
            return Err(refused(1, Reason::Kind));
        }
        let failed = self.making.failed();
        let mut text = self.text;
        put_premises(&mut text, failed)?;
        Ok(text)
    }
}

fn breaks_page(line: &Line) -> bool
    ensures { result ≡ breaks_page line.now }
{
    match line {
        Line::Header => false,
        Line::Page(page, _) => page.is_none(),
        Line::Read(_, _) => false,
    }
}

fn refused(line: u32, reason: Reason) -> TraceError
    ensures { result ≡ TraceError.Refused (record { line = line; reason = reason }) }
{
    TraceError::Refused(TraceFault { line, reason })
}
