//! The publisher's loop, with the poller in a thread of its own or at hand.
ghost use Rattle.std.specs.Prelude.{◌≡◌, ◌≤◌, ◌<◌, length};
ghost use denote.Param.Send.{IsSync};
ghost use Rattle.clock_gate.specs.declared.limits.TheConstants.{MOST_POLLS};
ghost use Rattle.feed_queue.specs.Feeds.{IsNext};
ghost use Rattle.feed_queue.specs.Ends.{counted};
ghost use Rattle.live_run.specs.Publishing.{HasPublished, PublisherBegins, IsFed};

use crate::pause::Pause;
use crate::poller::Poller;
use crate::publisher::Publisher;
use clock_gate::{Gate, Trace};
use feed_queue::{Feed, FeedIn, FeedOut, FeedQueue};
use segment_rule::HostTable;
use std::sync::Wait;
use std::sync::atomic::{AtomicBool, Ordering};
use std::thread;
use std::thread::Threads;

const DAEMON: u32 = 1;

// The next feed, as soon as it is there.
fn take_next<R: Wait>(rt: &R, queue: &FeedQueue, output: &mut FeedOut) -> Feed
    requires { output.old.queue ≡ queue.now }
    ensures next { IsNext output.old.polls output.old.count result }
    ensures counted { output.new ≡ counted output.old }
{
    let mut pause = Pause::new();
    'taking: for _ in rt.forever() {
        if let Some(feed) = output.take(rt, queue) {
            return feed;
        }
        pause.rest();
    }
    unreachable!()
}

// Takes the feed of each poll and does it. Where it has the poller, it puts each feed itself just before.
fn publish<R: Wait, G: Gate>(
    rt: &R,
    table: &HostTable,
    trace: &Trace,
    queue: &FeedQueue,
    own: Option<Poller<'_>>,
    output: FeedOut,
    publisher: Publisher,
    gate: &G,
) -> Publisher
    requires queue { output.queue ≡ queue.now }
    requires fresh { (output.polls ≡ trace.now.polls) × (output.count ≡ 0) }
    requires begins { PublisherBegins trace.now table.now publisher }
    ensures { HasPublished trace.now table.now publisher result }
{
    let mut own = own;
    let mut output = output;
    let mut publisher = publisher;
    let polls = trace.polls.len() as u32;
    'polls: for done in 0..polls {
        gate.pass(DAEMON, 2 * (done + 1));
        if let Some(poller) = &mut own {
            poller.put_next(rt, gate);
        }
        let feed = take_next(rt, queue, &mut output);
        publisher.poll(table, trace, &feed);
        gate.pass(DAEMON, 2 * (done + 1) + 1);
    }
    publisher
}

/// Does all polls, fed by a poller in a thread of its own, or where none can be made by the poller at hand.
pub(crate) fn publish_fed<R: Threads + Wait + Sync, G: Gate + Sync>(
    rt: &R,
    table: &HostTable,
    trace: &Trace,
    queue: &FeedQueue,
    input: FeedIn,
    output: FeedOut,
    publisher: Publisher,
    gate: &G,
) -> Publisher
    requires fed { IsFed trace.now queue.now input output }
    requires begins { PublisherBegins trace.now table.now publisher }
    ensures { HasPublished trace.now table.now publisher result }
{
    let alone = AtomicBool::new(false);
    let flag = &alone;
    thread::scope(
        thread::scope_env(),
        rt,
        move |scope| -> Publisher
            requires { IsSync R.row × IsSync G.row × IsFed trace.now queue.now input output × PublisherBegins trace.now table.now publisher }
            ensures { HasPublished trace.entry.now table.entry.now publisher result }
        {
            let polls = &trace.polls;
            let poller = Poller {
                input,
                queue,
                polls,
            };
            match scope.spawn(move || poller.run(rt, flag, gate)) {
                Ok(_) => publish(rt, table, trace, queue, None, output, publisher, gate),
                Err(refused) => {
                    flag.store(true, Ordering::SeqCst);
                    let own = (refused.value)();
                    publish(rt, table, trace, queue, own, output, publisher, gate)
                }
            }
        },
    )
}
