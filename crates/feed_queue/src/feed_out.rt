ghost use Rattle.std.specs.Prelude.{◌≡◌, [], ◌∷◌, ◌++◌, true, false, IfSome, MatchOption};
ghost use Rattle.crossbeam_queue.specs.Fifo.{Held};
ghost use Rattle.feed_queue.specs.Ends.{end_of, counted, passed_by};
ghost use Rattle.feed_queue.specs.Feeds.{IsNext};
ghost use Rattle.feed_queue.specs.Queued.{hand_of, SeenByTaker};

use crate::feed::Feed;
use crate::queue::FeedQueue;
use crate::rule::{Hand, Taken};
use crossbeam_queue::Pass;
use std::marker::Model;
use std::sync::Wait;

/// The end of a queue that takes. There is one of each queue, and it can't be copied. Contracts see its queue, the polls whose
/// feeds go through, and how many of them it has taken.
#[derive(Drop)]
pub struct FeedOut {
    pass: Pass<Feed, Hand>,
    count: u32,
}

impl Model for FeedOut {
    ghost use Rattle.std.specs.Prelude.{◌≡◌, true, false, []};
    ghost use Rattle.feed_queue.specs.Queued.{hand_of};
    ghost use Rattle.feed_queue.specs.Ends.{End, end_of};

    ghost Value = { End };

    ghost view = { λ s. end_of s.pass };

    ghost invariant = { λ s. (s.pass.me.1 ≡ []) × ((hand_of s.pass).takes ≡ true) × ((hand_of s.pass).puts ≡ false)
        × (s.count ≡ (hand_of s.pass).count) };
}

impl FeedOut {
    pub(crate) fn new(pass: Pass<Feed, Hand>) -> FeedOut
        requires { (pass.me.1 ≡ []) × ((hand_of pass).takes ≡ true) × ((hand_of pass).puts ≡ false)
            × ((hand_of pass).count ≡ 0) }
        ensures { result ≡ end_of pass }
    {
        FeedOut { pass, count: 0 }
    }

    /// Takes the next feed of the polls from this end's own queue. `None` comes only where the queue was empty at a moment
    /// of this call, and then this call changed nothing.
    #[tactic(auto, using(crate::proofs::Feeds::numbered, crate::proofs::Feeds::one_passed))]
    pub fn take<R: Wait>(&mut self, rt: &R, queue: &FeedQueue) -> Option<Feed>
        requires { self.old.queue ≡ queue.now }
        ensures done { MatchOption result ((self.new ≡ self.old) × Held 0 (SeenByTaker self.old.polls self.old.count))
            (λ feed. IsNext self.old.polls self.old.count feed × (self.new ≡ counted self.old)) }
        // The feeds taken, in order, are the first so many of the polls.
        ensures order { IfSome result (λ feed. passed_by self.new ≡ passed_by self.old ++ feed ∷ []) }
    {
        let feed = queue.ring.pop_as::<Taken, R>(rt, &mut self.pass)?;
        self.count = feed.number;
        Some(feed)
    }

    /// How many feeds it has taken.
    pub fn count(&self) -> u32
        ensures { result ≡ self.now.count }
    {
        self.count
    }
}
