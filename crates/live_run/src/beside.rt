//! All workers side by side.
ghost use Rattle.std.specs.Prelude.{◌≡◌, ◌<◌, length, All, vec_len};
ghost use denote.Param.Send.{IsSync};
ghost use Rattle.live_run.specs.Host.{HostBegins, HostEnds};
ghost use Rattle.live_run.specs.Publishing.{HasPublished, PublisherBegins, IsFed};
ghost use Rattle.live_run.specs.Work.{IsWorker, WorkersDone};

use crate::clients::ClientWorker;
use crate::feeding::publish_fed;
use crate::host::host_all;
use crate::publisher::Publisher;
use clock_gate::{ClockRow, Gate, Trace};
use feed_queue::{FeedIn, FeedOut, FeedQueue};
use segment_rule::{HostSeat, HostTable};
use std::sync::Wait;
use std::thread::{Threads, for_each_mut, join};

fn clients_run<R: Threads + Wait + Sync, G: Gate + Sync>(
    rt: &R,
    table: &HostTable,
    clock: &[ClockRow],
    workers: &mut [ClientWorker],
    gate: &G,
)
    requires some { 0 < length workers.old }
    requires work { All (IsWorker table.now clock.now) workers.old }
    ensures { WorkersDone clock.now workers.old workers.new }
{
    let threads = workers.len();
    for_each_mut(
        rt,
        workers,
        threads,
        &|_, worker: &mut ClientWorker| worker.work(rt, table, clock, gate),
    );
}

// All calls of all clients, by so many workers side by side.
fn clients_all<R: Threads + Wait + Sync, G: Gate + Sync>(
    rt: &R,
    table: &HostTable,
    clock: &[ClockRow],
    workers: Vec<ClientWorker>,
    gate: &G,
) -> Vec<ClientWorker>
    requires some { 0 < vec_len workers }
    requires work { All (IsWorker table.now clock.now) workers.items }
    ensures len { vec_len result ≡ vec_len workers }
    ensures done { WorkersDone clock.now workers.items result.items }
{
    let mut workers = workers;
    clients_run(rt, table, clock, workers.as_mut_slice(), gate);
    workers
}

// The clients, and beside them the daemon.
fn clients_and_daemon<R: Threads + Wait + Sync, G: Gate + Sync>(
    rt: &R,
    table: &HostTable,
    trace: &Trace,
    queue: &FeedQueue,
    input: FeedIn,
    output: FeedOut,
    publisher: Publisher,
    workers: Vec<ClientWorker>,
    gate: &G,
) -> (Vec<ClientWorker>, Publisher)
    requires fed { IsFed trace.now queue.now input output }
    requires begins { PublisherBegins trace.now table.now publisher }
    requires some { 0 < vec_len workers }
    requires work { All (IsWorker table.now trace.now.clock) workers.items }
    ensures done { WorkersDone trace.now.clock workers.items result.0.items }
    ensures published { HasPublished trace.now table.now publisher result.1 }
{
    let clock = trace.clock.as_slice();
    join(
        rt,
        move || -> Vec<ClientWorker>
            requires { IsSync R.row × IsSync G.row × (0 < vec_len workers) × All (IsWorker table.now clock.now) workers.items }
            ensures { WorkersDone clock.entry.now workers.items result.items }
        { clients_all(rt, table, clock, workers, gate) },
        move || -> Publisher
            requires { IsSync R.row × IsSync G.row × IsFed trace.now queue.now input output × PublisherBegins trace.now table.now publisher }
            ensures { HasPublished trace.entry.now table.entry.now publisher result }
        { publish_fed(rt, table, trace, queue, input, output, publisher, gate) },
    )
}

/// The host, and beside it all others.
pub(crate) fn all_run<R: Threads + Wait + Sync, G: Gate + Sync>(
    rt: &R,
    table: &HostTable,
    trace: &Trace,
    queue: &FeedQueue,
    input: FeedIn,
    output: FeedOut,
    host: HostSeat,
    publisher: Publisher,
    workers: Vec<ClientWorker>,
    gate: &G,
) -> (HostSeat, (Vec<ClientWorker>, Publisher))
    requires host { host.table ≡ table.now.id }
    requires rows { HostBegins trace.now.host host.view }
    requires fed { IsFed trace.now queue.now input output }
    requires begins { PublisherBegins trace.now table.now publisher }
    requires some { 0 < vec_len workers }
    requires work { All (IsWorker table.now trace.now.clock) workers.items }
    ensures host { result.0.table ≡ host.table }
    ensures rows { HostEnds trace.now.host host.view result.0.view }
    ensures done { WorkersDone trace.now.clock workers.items result.1.0.items }
    ensures published { HasPublished trace.now table.now publisher result.1.1 }
{
    join(
        rt,
        move || -> HostSeat
            requires { IsSync G.row × (host.table ≡ table.now.id) × HostBegins trace.now.host host.view }
            ensures { (result.table ≡ host.table) × HostEnds trace.entry.now.host host.view result.view }
        { host_all(table, host, trace.host.as_slice(), gate) },
        move || -> (Vec<ClientWorker>, Publisher)
            requires { IsSync R.row × IsSync G.row × IsFed trace.now queue.now input output × PublisherBegins trace.now table.now publisher × (0 < vec_len workers) × All (IsWorker table.now trace.now.clock) workers.items }
            ensures { WorkersDone trace.entry.now.clock workers.items result.0.items × HasPublished trace.entry.now table.entry.now publisher result.1 }
        {
            clients_and_daemon(
                rt, table, trace, queue, input, output, publisher, workers, gate,
            )
        },
    )
}
