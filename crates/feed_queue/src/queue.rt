ghost use Rattle.std.specs.Prelude.{◌≡◌, IfOk, true, false, []};
ghost use Rattle.crossbeam_queue.specs.Passes.{view, IsPassOf};
ghost use Rattle.feed_queue.specs.Ends.{new_end};
ghost use Rattle.feed_queue.specs.Queued.{hand};

use crate::feed::Feed;
use crate::feed_in::FeedIn;
use crate::feed_out::FeedOut;
use crate::rule::{Announced, Ends, Hand, InOrder};
use clock_gate::{List, Memory, PollRow};
use crossbeam_queue::{Pass, RuledArrayQueue};
use std::alloc::Global;
use std::marker::{Brand, Model};

pub(crate) type Ring = RuledArrayQueue<Feed, Hand, InOrder>;

// How many feeds the queue holds at most.
const ROOM: usize = 8;

/// A queue with room for eight feeds. Its two ends take it at each call. Contracts see which queue it is.
#[derive(Drop)]
pub struct FeedQueue {
    pub(crate) ring: Ring,
}

impl Model for FeedQueue {
    ghost use Rattle.std.specs.Prelude.{◌≡◌};
    ghost use Rattle.atomic_table.specs.Seated.{TableId};
    ghost use Rattle.crossbeam_queue.specs.Passes.{ruled_capacity};

    ghost Value = { TableId };

    ghost view = { λ q. q.ring.table.shared.table_id };

    ghost invariant = { λ q. ruled_capacity q.ring ≡ 8 };
}

// The pass of a new queue becomes its two ends, which know the polls.
fn part<A: Announced>(
    ring: &Ring,
    pass: &mut Pass<Feed, Hand>,
    _polls: &List<PollRow>,
) -> Pass<Feed, Hand>
    requires queue { IsPassOf ring.now pass.old }
    requires fresh { view pass.old ≡ hand true true [] 0 }
    ensures queue { IsPassOf ring.now pass.new × IsPassOf ring.now result }
    ensures ends { (view pass.new ≡ hand true false A.polls 0) × (view result ≡ hand false true A.polls 0) }
{
    ring.another::<Ends<A>>(pass)
}

impl FeedQueue {
    /// An empty queue for the feeds of these polls, with the end that puts and the end that takes.
    pub fn new(alloc: Global, polls: &List<PollRow>) -> Result<(FeedQueue, FeedIn, FeedOut), Memory>
        ensures put { IfOk result (λ q. q.1 ≡ new_end q.0 polls.now) }
        ensures taken { IfOk result (λ q. q.2 ≡ new_end q.0 polls.now) }
    {
        let (ring, mut first) = Ring::ruled(alloc, ROOM)?;
        let second = part::<Brand>(&ring, &mut first, polls);
        Ok((FeedQueue { ring }, FeedIn::new(first), FeedOut::new(second)))
    }
}
