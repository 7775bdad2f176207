//! The poller: reads the replies ahead of the daemon.
ghost use Rattle.std.specs.Prelude.{◌≡◌, ◌≤◌, length};
ghost use Rattle.clock_gate.specs.declared.limits.TheConstants.{MOST_POLLS};
ghost use Rattle.feed_queue.specs.Feeds.{IsNext};

use crate::pause::Pause;
use clock_gate::{Gate, List, PollRow};
use feed_queue::{Feed, FeedIn, FeedQueue};
use status_machine::hear;
use std::sync::Wait;
use std::sync::atomic::{AtomicBool, Ordering};

const POLLER: u32 = 66;

/// The end of a queue that puts, with the polls whose feeds it puts.
#[derive(Drop)]
pub(crate) struct Poller<'a> {
    pub input: FeedIn,
    pub queue: &'a FeedQueue,
    pub polls: &'a List<PollRow>,
    pub ghost tied: { (input.queue ≡ queue.now) × (input.polls ≡ polls.now) },
    pub ghost few: { length polls.now ≤ MOST_POLLS },
}

impl<'a> Poller<'a> {
    // Whether each feed was put.
    fn is_done(&self) -> bool {
        self.input.count() as usize >= self.polls.len()
    }

    /// Puts the next feed, where there is one, as soon as there is room.
    #[tactic(auto, using(crate::proofs::DaemonLines::next_feed))]
    pub fn put_next<R: Wait, G: Gate>(&mut self, rt: &R, gate: &G) {
        let done = self.input.count();
        let polls = self.polls;
        let Some(poll) = polls.get(done as usize) else {
            return;
        };
        let number = done + 1;
        let feed = Feed {
            number,
            heard: hear(poll.reply.as_slice()),
            stop: poll.stop,
        };
        gate.pass(POLLER, 2 * number);
        self.put(rt, feed);
        gate.pass(POLLER, 2 * number + 1);
    }

    fn put<R: Wait>(&mut self, rt: &R, feed: Feed)
        requires { IsNext self.old.polls.now self.old.input.count feed }
    {
        let queue = self.queue;
        let mut pause = Pause::new();
        'putting: for _ in rt.forever() {
            if self.input.put(rt, queue, feed).is_ok() {
                break;
            }
            pause.rest();
        }
    }

    /// Puts all feeds; where `alone` says that no thread could be made for it, puts none and comes back.
    pub fn run<R: Wait, G: Gate>(self, rt: &R, alone: &AtomicBool, gate: &G) -> Option<Poller<'a>> {
        if alone.load(Ordering::SeqCst) {
            return Some(self);
        }
        let mut poller = self;
        'polls: for _ in rt.forever() {
            if poller.is_done() {
                break;
            }
            poller.put_next(rt, gate);
        }
        None
    }
}
