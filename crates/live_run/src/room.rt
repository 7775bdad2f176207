//! All memory of a run.
ghost use Rattle.std.specs.Prelude.{◌≤◌, IfOk};
ghost use Rattle.clock_gate.specs.declared.limits.TheConstants.{MOST_CLIENTS};
ghost use Rattle.clock_gate.specs.Trace.{IsLawfulTrace};
ghost use Rattle.live_run.specs.Room.{IsRoomFor};

use crate::clients::ClientWorker;
use crate::workers::{Plan, idle_workers, plans};
use clock_gate::{List, Memory, Trace};
use feed_queue::{FeedIn, FeedOut, FeedQueue};
use interval_now::Answer;
use live_report::Line;
use segment_rule::ClientSeat;
use std::alloc::Global;

/// Room for all that a run gives, and for what its workers hold meanwhile.
#[derive(Drop)]
pub(crate) struct Room {
    pub plans: Vec<Plan>,
    pub workers: Vec<ClientWorker>,
    pub lines: Vec<Line>,
    pub answers: Vec<List<Answer>>,
    pub seats: Vec<ClientSeat>,
    pub queue: FeedQueue,
    pub input: FeedIn,
    pub output: FeedOut,
}

/// Room for the run of this trace with at most so many workers for its clients.
pub(crate) fn room_for(alloc: Global, trace: &Trace, workers: u32) -> Result<Room, Memory>
    requires lawful { IsLawfulTrace trace.now }
    requires some { 1 ≤ workers }
    requires most { workers ≤ MOST_CLIENTS }
    ensures { IfOk result (IsRoomFor trace.now) }
{
    let clients = trace.clients as usize;
    let plans = plans(alloc, trace.calls.as_slice(), trace.clients)?;
    let workers = idle_workers(alloc, workers.min(trace.clients), clients)?;
    let mut lines = Vec::new(alloc);
    lines.reserve(2 * trace.polls.len())?;
    let mut answers = Vec::new(alloc);
    answers.reserve(clients)?;
    let mut seats = Vec::new(alloc);
    seats.reserve(clients)?;
    let (queue, input, output) = FeedQueue::new(alloc, &trace.polls)?;
    Ok(Room {
        plans,
        workers,
        lines,
        answers,
        seats,
        queue,
        input,
        output,
    })
}
