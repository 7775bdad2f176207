ghost use Rattle.std.specs.Prelude.{◌≡◌, ◌-◌, ◌<◌, ◌≤◌, Option, Some, None, is_some, get_or, set, length, if◌then◌else◌, List, ℤ, IfOk, OnOk, OnErr};
ghost use Rattle.bound_agree.specs.Board.{no_spans, misses as is_missed_by, spans_of, missed_by, Agree, agreement_of};
ghost use Rattle.bound_agree.specs.Edges.{Kept};
ghost use Rattle.bound_agree.specs.Runs.{InSome};
ghost use Rattle.bound_agree.specs.declared.board.TheConstants.{MOST_SERVERS};

use crate::edge::{Counts, Point};
use crate::edges::{add, remove};
use crate::span::Span;
use crate::sweeping::sweep;
use clock_gate::{List, Memory};
use std::alloc::{AllocError, Global};
use std::collections::BTreeMap;
use std::marker::Model;

/// The most servers of a board. They are numbered from 1.
pub const MOST_SERVERS: u32 = 1_000;

/// A span or none for each of 1,000 servers. Contracts see these as a list, server 1 first.
///
/// The board keeps the allocator that it was made with.
#[derive(Drop)]
pub struct Board {
    spans: Vec<Option<Span>>,
    count: u32,
    edges: BTreeMap<i64, Counts>,
}

impl Model for Board {
    ghost use Rattle.std.specs.Prelude.{List, Option};
    ghost use Rattle.bound_agree.specs.Span.{SpanEnds};
    ghost use Rattle.bound_agree.specs.Edges.{Kept};

    ghost Value = { List (Option SpanEnds) };

    ghost view = { λ b. b.spans.items };

    ghost invariant = { λ b. Kept b.spans.items b.count b.edges.entries };
}

fn slots(alloc: Global) -> Result<Vec<Option<Span>>, AllocError>
    ensures { IfOk result (λ spans. spans.items ≡ no_spans) }
{
    vec![in alloc; None; MOST_SERVERS as usize]
}

fn slot(spans: &[Option<Span>], place: usize) -> Option<Span>
    requires { place < length spans.now }
    ensures { result ≡ get_or spans.now place None }
{
    spans[place]
}

// How many spans there are besides that of a server, which has one or not.
fn others(count: u32, has_one: bool) -> u32
    requires { (if has_one then 1 else 0) ≤ count }
    ensures { result ≡ count - (if has_one then 1 else 0) }
{
    if has_one { count - 1 } else { count }
}

// The runs of the points that all but so many of these spans hold.
#[tactic(auto, using(crate::proofs::Agreed::answered, crate::proofs::Agreed::unanswered))]
fn runs(
    alloc: Global,
    spans: &Vec<Option<Span>>,
    count: u32,
    edges: &BTreeMap<i64, Counts>,
    most_false: u32,
) -> Result<Vec<Span>, AllocError>
    requires { Kept spans.now.items count edges.now.entries }
    ensures { IfOk result (λ runs. Agree spans.now.items most_false runs.items) }
{
    if count <= most_false {
        return Ok(Vec::new(alloc));
    }
    sweep(alloc, edges, count - most_false)
}

fn is_missed(span: Option<Span>, point: Point) -> bool
    ensures { result ≡ is_missed_by point.0 span }
{
    match span {
        Some(span) => !(span.earliest() <= point.0 && point.0 <= span.latest()),
        None => false,
    }
}

fn missed(spans: &[Option<Span>], point: Point) -> u32
    requires { length spans.now ≤ MOST_SERVERS }
    ensures { result ≡ missed_by spans.now point.0 }
{
    let mut count = 0;
    'spans: for span in spans {
        if is_missed(*span, point) {
            count += 1;
        }
    }
    count
}

impl Board {
    /// A board without spans.
    #[tactic(auto, using(crate::proofs::Holding::kept_none))]
    pub fn new(alloc: Global) -> Result<Board, Memory>
        ensures { IfOk result (λ board. board ≡ no_spans) }
    {
        Ok(Board {
            spans: slots(alloc)?,
            count: 0,
            edges: BTreeMap::new(alloc),
        })
    }

    /// How many spans there are.
    pub fn len(&self) -> u32
        ensures value { result ≡ spans_of self.now }
        ensures most { result ≤ MOST_SERVERS }
    {
        self.count
    }

    /// Gives a server, from 1 to 1,000, this span in place of the one that it has. After `Memory` nothing changed.
    /// Takes logarithmic time.
    #[tactic(auto, using(crate::proofs::Holding::kept, crate::proofs::Holding::still_kept, crate::proofs::Holding::small, crate::proofs::Holding::others_fit))]
    pub fn put(&mut self, server: u32, span: Span) -> Result<(), Memory>
        requires { (1 ≤ server) × (server ≤ MOST_SERVERS) }
        ensures done { OnOk result (self.new ≡ set self.old (server - 1) (Some span)) }
        ensures err { OnErr result (self.new ≡ self.old) }
    {
        let place = (server - 1) as usize;
        let old = slot(&self.spans, place);
        let others = others(self.count, old.is_some());
        add(&mut self.edges, span)?;
        remove(&mut self.edges, old);
        self.spans[place] = Some(span);
        self.count = others + 1;
        Ok(())
    }

    /// Removes the span of a server, from 1 to 1,000, and answers whether there was one. Takes logarithmic time and no
    /// memory.
    #[tactic(auto, using(crate::proofs::Holding::kept, crate::proofs::Holding::others_fit))]
    pub fn take(&mut self, server: u32) -> bool
        requires { (1 ≤ server) × (server ≤ MOST_SERVERS) }
        ensures found { result ≡ is_some (get_or self.old (server - 1) None) }
        ensures done { self.new ≡ set self.old (server - 1) None }
    {
        let place = (server - 1) as usize;
        let old = slot(&self.spans, place);
        let found = old.is_some();
        let others = others(self.count, found);
        remove(&mut self.edges, old);
        self.spans[place] = None;
        self.count = others;
        found
    }

    /// The maximal runs of neighbouring whole numbers that all but `most_false` of the spans hold, in ascending order.
    /// Empty where there are no more spans than `most_false`. Takes time linear in the number of different ends.
    #[tactic(auto, using(crate::proofs::Agreed::is_agreement, crate::proofs::Agreed::truth_found))]
    pub fn ask(&self, alloc: Global, most_false: u32) -> Result<List<Span>, Memory>
        ensures exact { IfOk result (λ runs. runs ≡ agreement_of self.now most_false) }
        ensures runs { IfOk result (λ runs. Agree self.now most_false runs) }
        // A point that no more spans miss than may be false lies in one of the runs.
        ensures truth { IfOk result (λ runs. most_false < spans_of self.now
            → (x : ℤ) → missed_by self.now x ≤ most_false → InSome x runs) }
    {
        Ok(List::from_vec(runs(alloc, &self.spans, self.count, &self.edges, most_false)?))
    }

    /// How many spans don't hold the truth. Takes no memory.
    pub fn misses(&self, truth: i64) -> u32
        ensures { result ≡ missed_by self.now truth }
    {
        missed(&self.spans, Point(truth))
    }
}
