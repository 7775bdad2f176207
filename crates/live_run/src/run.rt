//! The whole run of a trace.
ghost use Rattle.std.specs.List.{range_with_len};
ghost use Rattle.std.specs.Prelude.{◌≡◌, ◌≤◌, ◌<◌, ◌++◌, true, false, length, map, All, IfOk};
ghost use Rattle.clock_gate.specs.declared.limits.TheConstants.{MOST_CLIENTS};
ghost use Rattle.generation_word.specs.Layout.{period_of};
ghost use Rattle.abstract_run.specs.Given.{IsGiven};
ghost use Rattle.lawful_report.specs.Lawful.{IsLawfulReport};
ghost use Rattle.live_report.specs.ClientCalls.{client_first, client_lines};
ghost use Rattle.live_report.specs.DaemonCalls.{daemon_first};
ghost use Rattle.live_report.specs.LiveReport.{report_of};
ghost use Rattle.live_report.specs.LiveRun.{setup_of, host_first, IsRunOf};
ghost use Rattle.live_run.specs.Room.{IsRoomFor};

use crate::beside::all_run;
use crate::gather::{Gathered, gather};
use crate::publisher::Publisher;
use crate::room::{Room, room_for};
use crate::workers::dealt;
use clock_gate::{Gate, List, Memory, Trace};
use live_report::{Lines, live_laws};
use segment_rule::{ClientSeat, DaemonSeat, HostSeat, HostTable};
use std::alloc::Global;
use std::sync::Wait;
use std::thread::Threads;

/// What a run gave: its lines, and the seats that made it. The clients' stand in the order of their numbers.
#[derive(Drop)]
pub struct Ran {
    pub lines: Lines,
    pub host: HostSeat,
    pub daemon: DaemonSeat,
    pub clients: List<ClientSeat>,
}

// The run, in memory that was found before.
fn run_in<R: Threads + Wait + Sync, G: Gate + Sync>(
    rt: &R,
    trace: &Trace,
    table: &HostTable,
    host: HostSeat,
    daemon: DaemonSeat,
    client: ClientSeat,
    room: Room,
    gate: &G,
) -> Gathered
    requires trace { IsGiven trace.now }
    requires setup { table.now.setup ≡ setup_of trace.now }
    requires host { (host.table ≡ table.now.id) × (host.view ≡ host_first table.now.setup) }
    requires daemon { (daemon.table ≡ table.now.id) × (daemon.view ≡ daemon_first table.now.setup) }
    requires client { (client.table ≡ table.now.id) × (client.view ≡ client_first table.now.setup) }
    requires first { (client.is_first ≡ true) × (client.splits ≡ 0) × (client.in_hand ≡ false) }
    requires room { IsRoomFor trace.now room }
    ensures tables { (result.host.table ≡ table.now.id) × (result.daemon.table ≡ table.now.id) }
    ensures clients { All (λ c. c.table ≡ table.now.id) result.clients.items }
    ensures few { length result.answers.items ≤ MOST_CLIENTS }
    ensures run { IsRunOf trace.now (result.lines.items ++ client_lines (range_with_len 1 (length result.answers.items)) result.answers.items) result.host.view result.daemon.view (map (λ c. c.view) result.clients.items) }
{
    let Room {
        plans,
        workers,
        lines,
        answers,
        seats,
        queue,
        input,
        output,
    } = room;
    let publisher = Publisher {
        seat: daemon,
        polled: 0,
        running: None,
        base: 0,
        lines,
    };
    let workers = dealt(table, trace, client, plans, workers);
    let (host, (workers, publisher)) = all_run(
        rt, table, trace, &queue, input, output, host, publisher, workers, gate,
    );
    let Publisher { seat, lines, .. } = publisher;
    let gathered = Gathered {
        host,
        daemon: seat,
        lines,
        answers,
        clients: seats,
    };
    gather(table, trace, workers, gathered)
}

/// Runs a trace's jobs on the shared words: the host does its rows in order, a poller reads the replies ahead and the daemon takes them
/// in order, and each client makes its calls, whose steps at most `workers` workers take in turn. All run side by side in threads of
/// their own; what no thread can be made for is run by its caller, and the poller's work then by the daemon's thread, a reply at a time.
/// When all have ended, each client's seat is settled.
///
/// The table was made of the trace, and the seats are as it gave them. `workers` are from 1 to 64. `Memory` comes before the first step
/// on the words, and then the seats are gone. It may wait, so no clause says that it returns.
pub fn run_workers<R: Threads + Wait + Sync, G: Gate + Sync>(
    rt: &R,
    alloc: Global,
    trace: &Trace,
    table: &HostTable,
    host: HostSeat,
    daemon: DaemonSeat,
    client: ClientSeat,
    workers: u32,
    gate: &G,
) -> Result<Ran, Memory>
    requires trace { IsGiven trace.now }
    requires setup { table.now.setup ≡ setup_of trace.now }
    requires host { (host.table ≡ table.now.id) × (host.view ≡ host_first table.now.setup) }
    requires daemon { (daemon.table ≡ table.now.id) × (daemon.view ≡ daemon_first table.now.setup) }
    requires client { (client.table ≡ table.now.id) × (client.view ≡ client_first table.now.setup) }
    requires first { (client.is_first ≡ true) × (client.splits ≡ 0) × (client.in_hand ≡ false) }
    requires some { 1 ≤ workers }
    requires most { workers ≤ MOST_CLIENTS }
    // The seats that it gives back are of its table.
    ensures host { IfOk result (λ ran. ran.host.table ≡ table.now.id) }
    ensures daemon { IfOk result (λ ran. ran.daemon.table ≡ table.now.id) }
    ensures clients { IfOk result (λ ran. All (λ c. c.table ≡ table.now.id) ran.clients) }
    // Its lines are those of the calls that its seats made, in their order, and all have made all of theirs.
    ensures run { IfOk result (λ ran. IsRunOf trace.now ran.lines ran.host.view ran.daemon.view (map (λ c. c.view) ran.clients)) }
    // So the report of its lines is lawful.
    ensures lawful { length trace.now.polls < period_of trace.now.layout → IfOk result (λ ran. IsLawfulReport trace.now (report_of trace.now ran.lines)) }
{
    live_laws();
    // All memory is taken here, where no seat is at hand.
    let room = room_for(alloc, trace, workers)?;
    let Gathered {
        host,
        daemon,
        lines,
        answers,
        clients,
    } = run_in(rt, trace, table, host, daemon, client, room, gate);
    Ok(Ran {
        lines: Lines::new(List::from_vec(lines), List::from_vec(answers)),
        host,
        daemon,
        clients: List::from_vec(clients),
    })
}

/// Makes the table of a trace, and runs the trace on it as `run_workers` does.
#[tactic(auto, using(crate::proofs::Begins::rows_some, crate::proofs::Begins::rows_few, crate::proofs::Begins::clients_some, crate::proofs::Begins::clients_few))]
pub fn run_trace<R: Threads + Wait + Sync, G: Gate + Sync>(
    rt: &R,
    alloc: Global,
    trace: &Trace,
    workers: u32,
    gate: &G,
) -> Result<(HostTable, Ran), Memory>
    requires trace { IsGiven trace.now }
    requires some { 1 ≤ workers }
    requires most { workers ≤ MOST_CLIENTS }
    ensures table { IfOk result (λ r. r.0.setup ≡ setup_of trace.now) }
    ensures seats { IfOk result (λ r. (r.1.host.table ≡ r.0.id) × (r.1.daemon.table ≡ r.0.id) × All (λ c. c.table ≡ r.0.id) r.1.clients) }
    ensures run { IfOk result (λ r. IsRunOf trace.now r.1.lines r.1.host.view r.1.daemon.view (map (λ c. c.view) r.1.clients)) }
    ensures lawful { length trace.now.polls < period_of trace.now.layout → IfOk result (λ r. IsLawfulReport trace.now (report_of trace.now r.1.lines)) }
{
    let rows = trace.clock.len() as u32;
    let (table, host, daemon, client) = HostTable::new(
        alloc,
        trace.layout,
        &trace.image,
        trace.page,
        rows,
        trace.clients,
    )?;
    let ran = run_workers(
        rt, alloc, trace, &table, host, daemon, client, workers, gate,
    )?;
    Ok((table, ran))
}
