ghost use Rattle.std.specs.Prelude.{IfSome};
ghost use Rattle.feed_queue.specs.Feeds.{IsNext};

use crate::{Feed, FeedQueue};
use clock_gate::{List, PollRow};
use status_machine::{Heard, hear};
use std::alloc::{AllocError, Global};
use std::test::Fail;

// Polls without a reply, of which each has a stop of its own.
fn polls_without_reply(alloc: Global, count: u8) -> Result<List<PollRow>, AllocError> {
    let mut rows = Vec::new(alloc);
    for stop in 0..count {
        let reply: List<u8> = List::from_vec(Vec::new(alloc));
        rows.push(PollRow {
            reply,
            stop: Some(stop),
        })?;
    }
    Ok(List::from_vec(rows))
}

// The feed of the poll after so many.
#[tactic(auto, using(crate::proofs::Feeds::next_of))]
fn feed_after(polls: &List<PollRow>, count: u32) -> Option<Feed>
    ensures { IfSome result (IsNext polls.now count) }
{
    let number = count.checked_add(1)?;
    let poll = polls.get(count as usize)?;
    let heard = hear(poll.reply.as_slice());
    let stop = poll.stop;
    Some(Feed {
        number,
        heard,
        stop,
    })
}

fn missing(number: u32, stop: u8) -> Option<Feed> {
    Some(Feed {
        number,
        heard: Heard::Missing,
        stop: Some(stop),
    })
}

#[test]
fn what_was_put_is_taken(rt: HostRuntime) -> Result<(), Fail> {
    let alloc: Global = rt.alloc();
    let polls = polls_without_reply(alloc, 2)?;
    let (queue, mut input, mut output) = FeedQueue::new(alloc, &polls).ok().expect(&rt, "memory");
    assert_eq!(rt; output.take(&rt, &queue), None, "empty at the start");
    let first = feed_after(&polls, input.count()).expect(&rt, "first poll");
    assert_eq!(rt; input.put(&rt, &queue, first), Ok(()));
    assert_eq!(rt; (input.count(), output.count()), (1, 0));
    assert_eq!(rt; output.take(&rt, &queue), missing(1, 0));
    assert_eq!(rt; output.take(&rt, &queue), None, "empty again");
    let second = feed_after(&polls, input.count()).expect(&rt, "second poll");
    assert_eq!(rt; input.put(&rt, &queue, second), Ok(()));
    assert_eq!(rt; output.take(&rt, &queue), missing(2, 1));
    assert_eq!(rt; (input.count(), output.count()), (2, 2));
    Ok(())
}

#[test]
fn eight_feeds_fit_and_the_ninth_comes_back(rt: HostRuntime) -> Result<(), Fail> {
    let alloc: Global = rt.alloc();
    let polls = polls_without_reply(alloc, 9)?;
    let (queue, mut input, mut output) = FeedQueue::new(alloc, &polls).ok().expect(&rt, "memory");
    'puts: for _ in 0..8u32 {
        let feed = feed_after(&polls, input.count()).expect(&rt, "one of eight polls");
        assert_eq!(rt; input.put(&rt, &queue, feed), Ok(()));
    }
    let ninth = feed_after(&polls, input.count()).expect(&rt, "ninth poll");
    assert_eq!(rt; input.put(&rt, &queue, ninth), Err(ninth), "no room");
    assert_eq!(rt; (input.count(), output.count()), (8, 0));
    assert_eq!(rt;
        output.take(&rt, &queue),
        missing(1, 0),
        "the oldest comes first"
    );
    assert_eq!(rt; input.put(&rt, &queue, ninth), Ok(()), "room again");
    assert_eq!(rt; (input.count(), output.count()), (9, 1));
    Ok(())
}
