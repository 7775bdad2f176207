//! When all workers have ended: the clients' answers and seats in their order, and what is settled.
ghost use Rattle.std.specs.Prelude.{◌≡◌, ℕ, ◌+◌, ◌≤◌, ◌<◌, false, [], ◌++◌, length, vec_len, vec_capacity, map, All};
ghost use Rattle.std.specs.List.{range_with_len};
ghost use Rattle.clock_gate.specs.declared.limits.TheConstants.{MOST_CLIENTS};
ghost use Rattle.live_report.specs.ClientCalls.{client_lines};
ghost use Rattle.live_report.specs.LiveRun.{IsRunOf};
ghost use Rattle.live_run.specs.Dealt.{IsWorkedOff};
ghost use Rattle.live_run.specs.Gathered.{Gathering, WasGathered};

use crate::clients::{Client, ClientWorker};
use crate::workers::take;
use clock_gate::{List, Trace};
use interval_now::Answer;
use live_report::Line;
use segment_rule::{ClientSeat, DaemonSeat, HostSeat, HostTable};

/// What the workers of a run have given so far: the daemon's lines, and each client's answers and seat.
#[derive(Drop)]
pub(crate) struct Gathered {
    pub host: HostSeat,
    pub daemon: DaemonSeat,
    pub lines: Vec<Line>,
    pub answers: Vec<List<Answer>>,
    pub clients: Vec<ClientSeat>,
}

impl Gathered {
    // Settles a client's seat and takes its answers.
    fn add(&mut self, table: &HostTable, client: Client)
        requires table { (self.old.host.table ≡ table.now.id) × (self.old.daemon.table ≡ table.now.id) × (client.seat.table ≡ table.now.id) }
        requires hand { client.seat.in_hand ≡ false }
        requires answers { vec_len self.old.answers < vec_capacity self.old.answers }
        requires place { vec_len self.old.clients < vec_capacity self.old.clients }
        ensures added { WasGathered client self.old self.new }
    {
        let Client { seat, answers, .. } = client;
        let mut seat = seat;
        table.settle(&mut self.host, &mut self.daemon, &mut seat);
        self.answers.push_reserved(List::from_vec(answers));
        self.clients.push_reserved(seat);
    }
}

/// All clients in their order.
pub(crate) fn gather(
    table: &HostTable,
    trace: &Trace,
    workers: Vec<ClientWorker>,
    gathered: Gathered,
) -> Gathered
    requires some { 0 < vec_len workers }
    requires off { IsWorkedOff table.now trace.now workers.items }
    requires gathering { Gathering table.now trace.now gathered }
    ensures tables { (result.host.table ≡ table.now.id) × (result.daemon.table ≡ table.now.id) }
    ensures clients { All (λ c. c.table ≡ table.now.id) result.clients.items }
    ensures few { length result.answers.items ≤ MOST_CLIENTS }
    ensures run { IsRunOf trace.now (result.lines.items ++ client_lines (range_with_len 1 (length result.answers.items)) result.answers.items) result.host.view result.daemon.view (map (λ c. c.view) result.clients.items) }
{
    let mut workers = workers;
    let mut gathered = gathered;
    let clients = trace.clients as usize;
    'clients: for place in 0..clients {
        if let Some(client) = take(&mut workers, place) {
            gathered.add(table, client);
        }
    }
    gathered
}
