//! The daemon between two polls, on its seat.
ghost use Rattle.std.specs.Prelude.{◌≡◌, ◌+◌, ◌*◌, ◌≤◌, ◌<◌, length, vec_len, vec_capacity, Some, None, IfSome, true, is_some};
ghost use Rattle.clock_gate.specs.declared.limits.TheConstants.{MOST_STORES};
ghost use Rattle.clock_gate.specs.Trace.{IsLawfulTrace};
ghost use Rattle.writer_reopen.specs.PollMachine.{DaemonFits, PolledFits};
ghost use Rattle.segment_rule.specs.Polls.{Polls, order_for, SupportAfter};
ghost use Rattle.feed_queue.specs.Feeds.{IsNext};
ghost use Rattle.live_report.specs.DaemonCalls.{base_left, base_opened, goes_on, unless_stopped};
ghost use Rattle.live_report.specs.LiveRun.{setup_of};
ghost use Rattle.live_run.specs.Publishing.{CanPoll, Publishes};

use crate::lines::{opened_line, polled_line, say};
use clock_gate::Trace;
use feed_queue::Feed;
use live_report::Line;
use segment_rule::{DaemonSeat, HostTable};
use status_machine::Daemon;
use writer_reopen::Polled;

/// The daemon: its seat, how many polls it has done, what it holds for the next one while it runs, the poll that gave as-of and bound of
/// its last publication, and its lines.
#[derive(Drop)]
pub(crate) struct Publisher {
    pub seat: DaemonSeat,
    pub polled: u32,
    pub running: Option<Daemon>,
    pub base: u32,
    pub lines: Vec<Line>,
}

// The poll that gave as-of and bound of the last publication, after an opening.
fn base_opened(moved: Option<u32>, base: u32) -> u32
    ensures { result ≡ base_opened moved base }
{
    match moved {
        None => base,
        Some(_) => 0,
    }
}

// And after a poll.
fn base_left(base: u32, polled: &Polled) -> u32
    ensures { result ≡ base_left base polled.now }
{
    match polled {
        Polled::Published { publication, .. } => publication.base,
        Polled::Skipped { .. } | Polled::Stopped { .. } => base,
    }
}

// After a finished publication with a stop the daemon is stopped.
fn unless_stopped(stop: Option<u8>, daemon: &Daemon) -> Option<Daemon>
    ensures { result ≡ unless_stopped stop daemon.now }
{
    match stop {
        None => Some(*daemon),
        Some(_) => None,
    }
}

// What the daemon goes on with after a poll with this stop.
fn goes_on(stop: Option<u8>, before: &Daemon, polled: &Polled) -> Option<Daemon>
    ensures { result ≡ goes_on stop before.now polled.now }
{
    match polled {
        Polled::Published { daemon, .. } => unless_stopped(stop, daemon),
        Polled::Skipped { .. } => Some(*before),
        Polled::Stopped { .. } => None,
    }
}

impl Publisher {
    // The daemon runs: where it is stopped, it opens the segment first.
    fn start(&mut self, table: &HostTable, trace: &Trace)
        requires lawful { IsLawfulTrace trace.now }
        requires publishes { Publishes trace.now table.now self.old }
        requires due { self.old.polled < length trace.now.polls }
        requires room { vec_len self.old.lines + 1 ≤ vec_capacity self.old.lines }
        ensures publishes { Publishes trace.now table.now self.new }
        ensures running { is_some self.new.running ≡ true }
        ensures same { self.new.polled ≡ self.old.polled }
        ensures room { (vec_len self.new.lines ≤ vec_len self.old.lines + 1) × (vec_capacity self.new.lines ≡ vec_capacity self.old.lines) }
    {
        if self.running.is_some() {
            return;
        }
        self.open(table, trace);
    }

    fn open(&mut self, table: &HostTable, trace: &Trace)
        requires lawful { IsLawfulTrace trace.now }
        requires publishes { Publishes trace.now table.now self.old }
        requires stopped { self.old.running ≡ None }
        requires due { self.old.polled < length trace.now.polls }
        requires room { vec_len self.old.lines + 1 ≤ vec_capacity self.old.lines }
        ensures publishes { Publishes trace.now table.now self.new }
        ensures running { is_some self.new.running ≡ true }
        ensures same { self.new.polled ≡ self.old.polled }
        ensures room { (vec_len self.new.lines ≤ vec_len self.old.lines + 1) × (vec_capacity self.new.lines ≡ vec_capacity self.old.lines) }
    {
        let opening = self.seat.reopen(table);
        let base = base_opened(opening.moved, self.base);
        self.base = base;
        self.running = Some(Daemon::resume(
            &opening.start,
            trace.drift,
            trace.page.is_some(),
            base,
        ));
        let line = opened_line(self.polled + 1, &opening);
        say(&mut self.lines, line);
    }

    // The steps of the poll, with its stop or without.
    #[tactic(auto, using(crate::proofs::DaemonLines::clock_rows))]
    fn step(&mut self, table: &HostTable, trace: &Trace, daemon: &Daemon, feed: &Feed) -> Polled
        requires lawful { IsLawfulTrace trace.now }
        requires publishes { Publishes trace.now table.now self.old }
        requires running { self.old.running ≡ Some daemon.now }
        requires stop { IfSome feed.now.stop (λ stores. stores ≤ MOST_STORES) }
        ensures polls { Polls trace.now.clock (order_for self.old.seat.view daemon.now feed.now.number feed.now.heard feed.now.stop trace.now.tries) self.old.seat.view result self.new.seat.view }
        ensures table { self.new.seat.table ≡ self.old.seat.table }
        ensures running { IfSome (goes_on feed.now.stop daemon.now result) (CanPoll trace.now self.new.seat) }
        ensures same { (self.new.polled ≡ self.old.polled) × (self.new.base ≡ self.old.base) × (self.new.lines ≡ self.old.lines) }
    {
        let clock = trace.clock.as_slice();
        match feed.stop {
            None => self.seat.poll(table, *daemon, feed.number, feed.heard, clock, trace.tries),
            Some(stores) => self.seat.stop_after(
                table,
                *daemon,
                feed.number,
                feed.heard,
                clock,
                trace.tries,
                stores,
            ),
        }
    }

    // One poll, with its lines.
    pub(crate) fn poll(&mut self, table: &HostTable, trace: &Trace, feed: &Feed)
        requires lawful { IsLawfulTrace trace.now }
        requires publishes { Publishes trace.now table.now self.old }
        requires next { IsNext trace.now.polls self.old.polled feed.now }
        requires room { vec_len self.old.lines + 2 ≤ vec_capacity self.old.lines }
        ensures publishes { Publishes trace.now table.now self.new }
        ensures polled { self.new.polled ≡ self.old.polled + 1 }
        ensures room { (vec_len self.new.lines ≤ vec_len self.old.lines + 2) × (vec_capacity self.new.lines ≡ vec_capacity self.old.lines) }
    {
        self.start(table, trace);
        let Some(daemon) = self.running else {
            return;
        };
        let polled = self.step(table, trace, &daemon, feed);
        self.running = goes_on(feed.stop, &daemon, &polled);
        self.base = base_left(self.base, &polled);
        self.polled = feed.number;
        let line = polled_line(feed.number, &polled);
        say(&mut self.lines, line);
    }
}
