ghost use Rattle.std.specs.Prelude.{◌≡◌, [], ◌∷◌, ◌++◌, true, false, OnOk, MatchResult};
ghost use Rattle.crossbeam_queue.specs.Fifo.{Held};
ghost use Rattle.feed_queue.specs.Ends.{end_of, counted, passed_by};
ghost use Rattle.feed_queue.specs.Feeds.{IsNext};
ghost use Rattle.feed_queue.specs.Queued.{hand_of, SeenByPutter};

use crate::feed::Feed;
use crate::queue::FeedQueue;
use crate::rule::{Hand, Put};
use crossbeam_queue::Pass;
use std::marker::Model;
use std::sync::Wait;

/// The end of a queue that puts. There is one of each queue, and it can't be copied. Contracts see its queue, the polls whose
/// feeds go through, and how many of them it has put.
#[derive(Drop)]
pub struct FeedIn {
    pass: Pass<Feed, Hand>,
    count: u32,
}

impl Model for FeedIn {
    ghost use Rattle.std.specs.Prelude.{◌≡◌, true, false, []};
    ghost use Rattle.feed_queue.specs.Queued.{hand_of};
    ghost use Rattle.feed_queue.specs.Ends.{End, end_of};

    ghost Value = { End };

    ghost view = { λ s. end_of s.pass };

    ghost invariant = { λ s. (s.pass.me.1 ≡ []) × ((hand_of s.pass).puts ≡ true) × ((hand_of s.pass).takes ≡ false)
        × (s.count ≡ (hand_of s.pass).count) };
}

impl FeedIn {
    pub(crate) fn new(pass: Pass<Feed, Hand>) -> FeedIn
        requires { (pass.me.1 ≡ []) × ((hand_of pass).puts ≡ true) × ((hand_of pass).takes ≡ false)
            × ((hand_of pass).count ≡ 0) }
        ensures { result ≡ end_of pass }
    {
        FeedIn { pass, count: 0 }
    }

    /// Puts the next feed of the polls into this end's own queue. It comes back only where the queue held eight feeds at
    /// a moment of this call, and then this call changed nothing.
    #[tactic(auto, using(crate::proofs::Feeds::numbered, crate::proofs::Feeds::one_passed))]
    pub fn put<R: Wait>(&mut self, rt: &R, queue: &FeedQueue, feed: Feed) -> Result<(), Feed>
        requires queue { self.old.queue ≡ queue.now }
        requires next { IsNext self.old.polls self.old.count feed }
        ensures done { MatchResult result (λ _. self.new ≡ counted self.old)
            (λ back. (back ≡ feed) × (self.new ≡ self.old) × Held 8 (SeenByPutter self.old.polls self.old.count)) }
        ensures order { OnOk result (passed_by self.new ≡ passed_by self.old ++ feed ∷ []) }
    {
        let number = feed.number;
        queue.ring.push_as::<Put, R>(rt, &mut self.pass, feed)?;
        self.count = number;
        Ok(())
    }

    /// How many feeds it has put.
    pub fn count(&self) -> u32
        ensures { result ≡ self.now.count }
    {
        self.count
    }
}
