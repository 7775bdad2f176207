//! Clients are dealt out to workers, and gathered again.
ghost use Rattle.std.specs.Prelude.{◌≡◌, ℕ, ◌+◌, ◌*◌, ◌≤◌, ◌<◌, [], ◌∷◌, List, true, false, All, length, vec_len, vec_capacity, Some, IfOk, sum_by};
ghost use Rattle.clock_gate.specs.declared.limits.TheConstants.{MOST_CALLS, MOST_CLIENTS};
ghost use Rattle.clock_gate.specs.declared.clock_row.ClockRow.{ClockRow};
ghost use Rattle.clock_gate.specs.declared.trace.CallRow.{CallRow as Row};
ghost use Rattle.clock_gate.specs.declared.trace.Trace.{Trace as Given};
ghost use Rattle.clock_gate.specs.Trace.{IsLawfulTrace};
ghost use Rattle.segment_rule.specs.Ruled.{TableView};
ghost use Rattle.live_report.specs.ClientCalls.{client_first};
ghost use Rattle.live_report.specs.LiveRun.{setup_of};
ghost use Rattle.live_run.specs.Work.{CanTurn, IsWorker};
ghost use Rattle.live_run.specs.Dealt.{stacks_of, Stacked, HasPlaces, IsOfClients, ArePlanned, ArePlans, CanSit, IsReady, IsDealt};

use crate::clients::{Client, ClientWorker};
use clock_gate::{CallRow, Trace};
use interval_now::Answer;
use segment_rule::{ClientSeat, HostTable};
use std::alloc::{AllocError, Global};

/// A client's calls before it has its seat: how often each tries, and room for their answers.
#[derive(Drop)]
pub(crate) struct Plan {
    pub calls: Vec<u16>,
    pub answers: Vec<Answer>,
}

// Plans of so many clients, of which no call is known yet.
fn bare_plans(alloc: Global, clients: u32) -> Result<Vec<Plan>, AllocError>
    ensures len { IfOk result (λ plans. vec_len plans ≡ clients) }
    ensures planned { (rows : List Row) → IfOk result (λ plans. ArePlanned rows rows plans.items) }
{
    let mut plans = Vec::new(alloc);
    'clients: for _ in 0..clients {
        plans.push(Plan {
            calls: Vec::new(alloc),
            answers: Vec::new(alloc),
        })?;
    }
    Ok(plans)
}

// Each call goes to the plan of its client.
fn with_calls(plans: Vec<Plan>, rows: &[CallRow]) -> Result<Vec<Plan>, AllocError>
    requires clients { All (IsOfClients (vec_len plans)) rows.now }
    requires planned { ArePlanned rows.now rows.now plans.items }
    ensures len { IfOk result (λ all. vec_len all ≡ vec_len plans) }
    ensures planned { IfOk result (λ all. ArePlanned rows.now [] all.items) }
{
    let mut plans = plans;
    'rows: for row in rows {
        plans[row.client as usize - 1].calls.push(row.tries)?;
    }
    Ok(plans)
}

// Each plan has room for as many answers as calls.
fn with_room(plans: Vec<Plan>) -> Result<Vec<Plan>, AllocError>
    ensures len { IfOk result (λ all. vec_len all ≡ vec_len plans) }
    ensures plans { (rows : List Row) → ArePlanned rows [] plans.items → IfOk result (λ all. ArePlans rows 1 all.items) }
{
    let mut plans = plans;
    'plans: for place in 0..plans.len() {
        let calls = plans[place].calls.len();
        plans[place].answers.reserve(calls)?;
    }
    Ok(plans)
}

/// The plans of all clients, in their order.
pub(crate) fn plans(alloc: Global, rows: &[CallRow], clients: u32) -> Result<Vec<Plan>, AllocError>
    requires { All (IsOfClients clients) rows.now }
    ensures plans { IfOk result (λ plans. ArePlans rows.now 1 plans.items) }
    ensures len { IfOk result (λ plans. vec_len plans ≡ clients) }
{
    let bare = bare_plans(alloc, clients)?;
    let planned = with_calls(bare, rows)?;
    with_room(planned)
}

/// So many workers without clients, each with room for all of them.
pub(crate) fn idle_workers(
    alloc: Global,
    count: u32,
    clients: usize,
) -> Result<Vec<ClientWorker>, AllocError>
    requires { (count ≤ MOST_CLIENTS) × (clients ≤ MOST_CLIENTS) }
    ensures len { IfOk result (λ workers. vec_len workers ≡ count) }
    ensures idle { (table : TableView) (clock : List ClockRow) → IfOk result (λ workers. All (IsWorker table clock) workers.items) }
    ensures places { IfOk result (λ workers. All (HasPlaces clients) workers.items) }
{
    let mut workers = Vec::new(alloc);
    'workers: for _ in 0..count {
        let mut mine = Vec::new(alloc);
        mine.reserve(clients)?;
        workers.push(ClientWorker { clients: mine })?;
    }
    Ok(workers)
}

// The client of the last plan takes its seat.
fn seated(plans: &mut Vec<Plan>, seat: ClientSeat) -> Client
    requires some { 0 < vec_len plans.old }
    requires few { vec_len plans.old ≤ MOST_CLIENTS }
    ensures ready { (table : TableView) (trace : Given) → CanSit table trace (vec_len plans.old) seat → ArePlans trace.calls 1 plans.old.items → IsReady table trace (vec_len plans.old) result }
    ensures len { vec_len plans.new + 1 ≡ vec_len plans.old }
    ensures plans { (rows : List Row) → ArePlans rows 1 plans.old.items → ArePlans rows 1 plans.new.items }
{
    let number = plans.len() as u32;
    match plans.pop() {
        Some(plan) => {
            let Plan { calls, answers } = plan;
            Client {
                number,
                seat,
                calls,
                answers,
            }
        }
        None => unreachable!(),
    }
}

// The client of this place goes to the worker whose turn it is.
fn deal(workers: &mut Vec<ClientWorker>, place: usize, client: Client)
    requires some { 0 < vec_len workers.old }
    requires places { All (HasPlaces (place + 1)) workers.old.items }
    ensures len { vec_len workers.new ≡ vec_len workers.old }
    ensures places { All (HasPlaces place) workers.new.items }
    ensures stacked { (clients : List Client) → Stacked (place + 1) (stacks_of workers.old.items) clients → Stacked place (stacks_of workers.new.items) (client ∷ clients) }
    ensures work { (table : TableView) (clock : List ClockRow) → All (IsWorker table clock) workers.old.items → CanTurn table clock client → All (IsWorker table clock) workers.new.items }
{
    let worker = place % workers.len();
    workers[worker].clients.push_reserved(client);
}

/// The client of this place, from the worker that has it.
pub(crate) fn take(workers: &mut Vec<ClientWorker>, place: usize) -> Option<Client>
    requires some { 0 < vec_len workers.old }
    ensures len { vec_len workers.new ≡ vec_len workers.old }
    ensures stacked { (client : Client) (clients : List Client) → Stacked place (stacks_of workers.old.items) (client ∷ clients) → (result ≡ Some client) × Stacked (place + 1) (stacks_of workers.new.items) clients }
{
    let worker = place % workers.len();
    workers[worker].clients.pop()
}

/// Each client takes its seat at its worker: of w workers, each has every w-th client. The last one comes first, so that each worker has
/// its first client at the end.
pub(crate) fn dealt(
    table: &HostTable,
    trace: &Trace,
    client: ClientSeat,
    plans: Vec<Plan>,
    workers: Vec<ClientWorker>,
) -> Vec<ClientWorker>
    requires lawful { IsLawfulTrace trace.now }
    requires table { client.table ≡ table.now.id }
    requires setup { table.now.setup ≡ setup_of trace.now }
    requires view { client.view ≡ client_first (setup_of trace.now) }
    requires first { (client.is_first ≡ true) × (client.splits ≡ 0) × (client.in_hand ≡ false) }
    requires plans { ArePlans trace.now.calls 1 plans.items }
    requires clients { (vec_len plans ≡ trace.now.clients) × (1 ≤ trace.now.clients) × (trace.now.clients ≤ MOST_CLIENTS) }
    requires some { 0 < vec_len workers }
    requires places { All (HasPlaces (vec_len plans)) workers.items }
    requires idle { All (IsWorker table.now trace.now.clock) workers.items }
    ensures len { vec_len result ≡ vec_len workers }
    ensures work { All (IsWorker table.now trace.now.clock) result.items }
    ensures dealt { IsDealt table.now trace.now result.items }
{
    let mut first = client;
    let mut plans = plans;
    let mut workers = workers;
    let clients = plans.len();
    'dealing: for _ in 1..clients {
        let seat = first.split(table);
        let further = seated(&mut plans, seat);
        deal(&mut workers, plans.len(), further);
    }
    let first = seated(&mut plans, first);
    deal(&mut workers, 0, first);
    workers
}
