ghost use Rattle.std.specs.Prelude.{◌≡◌, ◌≤◌, ◌+◌, ◌==◌, [], None, IfOk, OnOk};
ghost use Rattle.std.specs.String.{string_bytes};
ghost use Rattle.csv.specs.Records.{fields_of};
ghost use Rattle.csv_records.specs.Grammar.{line_after};
ghost use Rattle.csv_records.specs.TraceError.{Makes, numbered};
ghost use Rattle.bound_agree.specs.declared.board.TheConstants.{MOST_SERVERS};
ghost use Rattle.bound_agree.specs.Span.{SpanEnds};
ghost use Rattle.agree_text.specs.Agreement.{grammar, step_of};
ghost use Rattle.agree_text.specs.Line.{IsLine};
ghost use Rattle.agree_text.specs.Session.{fault_of, passes_limit, breaks_order, is_ask, session_of, taken};
ghost use Rattle.agree_text.specs.declared.line.Line.TheVariants as lines;

use crate::answers::{put_answer, put_header};
use crate::limits::{MOST_ASKS, MOST_RECORDS};
use crate::line::{Line, line_of};
use bound_agree::{Board, Span};
use clock_gate::Memory;
use csv::ByteRecord;
use csv_records::{Reason, TraceError, TraceFault};
use std::alloc::Global;
use std::marker::Model;

/// What the records so far come to: the board, the output, and how many records and how many questions they are.
#[derive(Drop)]
pub struct Session {
    board: Board,
    text: String,
    lines: u32,
    asks: u32,
}

impl Model for Session {
    ghost use Rattle.std.specs.Prelude.{◌+◌, ◌≤◌};
    ghost use Rattle.std.specs.String.{string_bytes};
    ghost use Rattle.agree_text.specs.Session.{SessionFields};
    ghost use Rattle.agree_text.specs.declared.limits.TheConstants.{MOST_ASKS, MOST_RECORDS};

    ghost Value = { SessionFields };

    ghost view = { λ s. record { spans = s.board; text = string_bytes s.text; lines = s.lines; asks = s.asks } };

    ghost invariant = { λ s. (s.lines ≤ MOST_RECORDS + 1) × (s.asks ≤ MOST_ASKS) };
}

fn is_ask(line: &Line) -> bool
    ensures { result ≡ is_ask line.now }
{
    match line {
        Line::Header => false,
        Line::Set(_, _) => false,
        Line::Drop(_) => false,
        Line::Ask(_, _) => true,
    }
}

impl Session {
    /// Before the first record.
    #[tactic(auto, unfolding(crate::specs::Session::spans_after, crate::specs::Session::written_of))]
    pub fn new(alloc: Global) -> Result<Session, Memory>
        ensures { IfOk result (λ session. session ≡ session_of []) }
    {
        let mut text = String::new(alloc);
        put_header(&mut text)?;
        Ok(Session {
            board: Board::new(alloc)?,
            text,
            lines: 0,
            asks: 0,
        })
    }

    fn breaks_order(&self, line: &Line) -> bool
        ensures { result ≡ breaks_order self.now line.now }
    {
        match line {
            Line::Header => self.lines != 0,
            Line::Set(_, _) => self.lines == 0,
            Line::Drop(_) => self.lines == 0,
            Line::Ask(_, _) => self.lines == 0,
        }
    }

    fn passes_limit(&self, line: &Line) -> bool
        ensures { result ≡ passes_limit self.now line.now }
    {
        if self.lines > MOST_RECORDS {
            return true;
        }
        is_ask(line) && self.asks >= MOST_ASKS
    }

    fn fault_of(&self, line: &Line) -> Option<Reason>
        ensures { result ≡ fault_of self.now line.now }
    {
        if self.breaks_order(line) {
            return Some(Reason::Order);
        }
        if self.passes_limit(line) {
            return Some(Reason::Limit);
        }
        None
    }

    fn line_after(&self, row: &ByteRecord) -> Result<Line, Reason>
        ensures value { result ≡ line_after grammar self.now (fields_of row.now) }
        ensures line { IfOk result IsLine }
        ensures fits { IfOk result (λ line. fault_of self.now line ≡ None) }
    {
        let line = line_of(row)?;
        match self.fault_of(&line) {
            None => Ok(line),
            Some(reason) => Err(reason),
        }
    }

    fn add_header(&mut self)
        requires { fault_of self.old lines.Header ≡ None }
        ensures { self.new ≡ taken self.old lines.Header }
    {
        self.lines += 1;
    }

    fn add_span(&mut self, server: u32, span: &Span) -> Result<(), Memory>
        requires server { (1 ≤ server) × (server ≤ MOST_SERVERS) }
        requires fits { fault_of self.old (lines.Set server span.now) ≡ None }
        ensures { OnOk result (self.new ≡ taken self.old (lines.Set server span.now)) }
    {
        self.board.put(server, *span)?;
        self.lines += 1;
        Ok(())
    }

    fn drop_span(&mut self, server: u32)
        requires server { (1 ≤ server) × (server ≤ MOST_SERVERS) }
        requires fits { fault_of self.old (lines.Drop server) ≡ None }
        ensures { self.new ≡ taken self.old (lines.Drop server) }
    {
        self.board.take(server);
        self.lines += 1;
    }

    fn add_answer(
        &mut self,
        alloc: Global,
        most_false: u32,
        truth: Option<i64>,
    ) -> Result<(), Memory>
        requires { fault_of self.old (lines.Ask most_false truth) ≡ None }
        ensures { OnOk result (self.new ≡ taken self.old (lines.Ask most_false truth)) }
    {
        put_answer(alloc, &mut self.text, &self.board, most_false, truth)?;
        self.lines += 1;
        self.asks += 1;
        Ok(())
    }

    fn add(&mut self, alloc: Global, line: &Line) -> Result<(), Memory>
        requires line { IsLine line.now }
        requires fits { fault_of self.old line.now ≡ None }
        ensures { OnOk result (self.new ≡ taken self.old line.now) }
    {
        match line {
            Line::Header => {
                self.add_header();
                Ok(())
            }
            Line::Set(server, span) => self.add_span(*server, span),
            Line::Drop(server) => {
                self.drop_span(*server);
                Ok(())
            }
            Line::Ask(most_false, truth) => self.add_answer(alloc, *most_false, *truth),
        }
    }

    /// Takes one record more.
    pub fn take(&mut self, alloc: Global, row: &ByteRecord) -> Result<(), TraceError>
        ensures { Makes result self.new (numbered (self.old.lines + 1) (step_of self.old (fields_of row.now))) }
    {
        let line = match self.line_after(row) {
            Ok(line) => line,
            Err(reason) => {
                return Err(TraceError::Refused(TraceFault {
                    line: self.lines + 1,
                    reason,
                }));
            }
        };
        match self.add(alloc, &line) {
            Ok(()) => Ok(()),
            Err(_) => Err(TraceError::Memory),
        }
    }

    pub fn is_empty(&self) -> bool
        ensures { result ≡ (self.now.lines == 0) }
    {
        self.lines == 0
    }

    pub fn into_text(self) -> String
        ensures { string_bytes result ≡ self.text }
    {
        self.text
    }
}
