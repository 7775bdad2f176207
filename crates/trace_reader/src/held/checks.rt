//! What a line is tested for by the lines before it, a function for each reason.
ghost use Rattle.std.specs.Prelude.{◌≡◌, is_ok};
ghost use Rattle.segment_layout.specs.Image.{image_of};
ghost use Rattle.trace_reader.specs.Checks.{breaks_image, breaks_order, breaks_page, fault_of, goes_back, has_clock, is_fit, is_of_start, lacks_clock, layout_held, overruns, passes_limit};

use super::{Held, turns_in};
use crate::line::Line;
use clock_gate::{MOST_CALLS, MOST_HOST_ROWS, MOST_POLLS, MOST_SCHEDULE_LINES, MOST_TURNS, Turn};
use csv_records::Reason;
use generation_word::Layout;
use segment_layout::admit;
use vmclock_page::{Page, has_constants_of};

fn is_of_start(start: Option<Page>, page: Page) -> bool
    ensures { result ≡ is_of_start start page }
{
    match start {
        None => false,
        Some(start) => has_constants_of(&start, &page),
    }
}

fn is_admitted(words: &[u64; 10], layout: Layout) -> bool
    ensures { result ≡ is_ok (image_of layout words.now) }
{
    admit(words, layout).is_ok()
}

impl Held {
    fn has_clock(&self) -> bool
        ensures { result ≡ has_clock self.now }
    {
        !self.clocks.is_empty()
    }

    fn breaks_order(&self, line: &Line) -> bool
        ensures { result ≡ breaks_order self.now line.now }
    {
        match line {
            Line::Header => self.count != 0,
            Line::Drift(_) => self.count == 0 || self.has_clock() || self.drift.is_some(),
            Line::Tries(_) => self.count == 0 || self.has_clock() || self.tries.is_some(),
            Line::Layout(_) => {
                self.count == 0 || self.has_clock() || self.image.is_some() || self.layout.is_some()
            }
            Line::Image(_) => self.count == 0 || self.has_clock() || self.image.is_some(),
            Line::Turns(_) => self.count == 0 || !self.has_clock(),
            Line::Page(_) => self.count == 0,
            Line::Clock(_) => self.count == 0,
            Line::Mark(_) => self.count == 0,
            Line::Disrupt => self.count == 0,
            Line::Poll(_) => self.count == 0,
            Line::Call(_, _) => self.count == 0,
        }
    }

    fn lacks_clock(&self, line: &Line) -> bool
        ensures { result ≡ lacks_clock self.now line.now }
    {
        match line {
            Line::Mark(_) => !self.has_clock(),
            Line::Disrupt => !self.has_clock(),
            Line::Poll(_) => !self.has_clock(),
            Line::Call(_, _) => !self.has_clock(),
            Line::Page(_) => !self.has_clock() && self.start.is_some(),
            Line::Header => false,
            Line::Drift(_) => false,
            Line::Tries(_) => false,
            Line::Layout(_) => false,
            Line::Image(_) => false,
            Line::Clock(_) => false,
            Line::Turns(_) => false,
        }
    }

    fn goes_back(&self, line: &Line) -> bool
        ensures { result ≡ goes_back self.now line.now }
    {
        match line {
            Line::Clock(row) => row.mono < self.last,
            Line::Header => false,
            Line::Drift(_) => false,
            Line::Tries(_) => false,
            Line::Layout(_) => false,
            Line::Image(_) => false,
            Line::Page(_) => false,
            Line::Mark(_) => false,
            Line::Disrupt => false,
            Line::Poll(_) => false,
            Line::Call(_, _) => false,
            Line::Turns(_) => false,
        }
    }

    fn is_fit(&self, page: Option<Page>) -> bool
        ensures { result ≡ is_fit self.now page }
    {
        match page {
            None => false,
            Some(page) => !self.has_clock() || is_of_start(self.start, page),
        }
    }

    fn breaks_page(&self, line: &Line) -> bool
        ensures { result ≡ breaks_page self.now line.now }
    {
        match line {
            Line::Page(page) => !self.is_fit(*page),
            Line::Mark(_) => !self.start.is_some(),
            Line::Header => false,
            Line::Drift(_) => false,
            Line::Tries(_) => false,
            Line::Layout(_) => false,
            Line::Image(_) => false,
            Line::Clock(_) => false,
            Line::Disrupt => false,
            Line::Poll(_) => false,
            Line::Call(_, _) => false,
            Line::Turns(_) => false,
        }
    }

    fn layout_held(&self) -> Layout
        ensures { result ≡ layout_held self.now }
    {
        self.layout.unwrap_or(Layout::Two)
    }

    fn breaks_image(&self, line: &Line) -> bool
        ensures { result ≡ breaks_image self.now line.now }
    {
        match line {
            Line::Image(words) => !is_admitted(words, self.layout_held()),
            Line::Header => false,
            Line::Drift(_) => false,
            Line::Tries(_) => false,
            Line::Layout(_) => false,
            Line::Page(_) => false,
            Line::Clock(_) => false,
            Line::Mark(_) => false,
            Line::Disrupt => false,
            Line::Poll(_) => false,
            Line::Call(_, _) => false,
            Line::Turns(_) => false,
        }
    }

    // Whether the schedule is full, or would give too many turns with this line.
    fn overruns(&self, turn: &Turn) -> bool
        ensures { result ≡ overruns self.now turn.now }
    {
        let turns = turns_in(turn);
        self.turns.len() >= MOST_SCHEDULE_LINES || self.ran + turns > MOST_TURNS
    }

    fn passes_limit(&self, line: &Line) -> bool
        ensures { result ≡ passes_limit self.now line.now }
    {
        match line {
            Line::Clock(_) => self.host.len() >= MOST_HOST_ROWS,
            Line::Mark(_) => self.host.len() >= MOST_HOST_ROWS,
            Line::Disrupt => self.host.len() >= MOST_HOST_ROWS,
            Line::Page(_) => self.has_clock() && self.host.len() >= MOST_HOST_ROWS,
            Line::Poll(_) => self.polls.len() >= MOST_POLLS,
            Line::Call(_, _) => self.calls.len() >= MOST_CALLS,
            Line::Turns(turn) => self.overruns(turn),
            Line::Header => false,
            Line::Drift(_) => false,
            Line::Tries(_) => false,
            Line::Layout(_) => false,
            Line::Image(_) => false,
        }
    }

    /// The first reason against a line by the lines before it.
    pub fn fault_of(&self, line: &Line) -> Option<Reason>
        ensures { result ≡ fault_of self.now line.now }
    {
        if self.breaks_order(line) {
            return Some(Reason::Order);
        }
        if self.lacks_clock(line) {
            return Some(Reason::NoClock);
        }
        if self.goes_back(line) {
            return Some(Reason::ClockBack);
        }
        if self.breaks_page(line) {
            return Some(Reason::Page);
        }
        if self.breaks_image(line) {
            return Some(Reason::Image);
        }
        if self.passes_limit(line) {
            return Some(Reason::Limit);
        }
        None
    }
}
