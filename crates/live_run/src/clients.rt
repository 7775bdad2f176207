//! Clients that take turns on one worker.
ghost use Rattle.std.specs.Prelude.{◌≡◌, ℕ, ◌≤◌, ◌<◌, true, false, All, length, vec_len, slice_index_or};
ghost use Rattle.clock_gate.specs.declared.clock_row.ClockRow.{ClockRow};
ghost use Rattle.clock_gate.specs.ClockRow.{IsClock};
ghost use Rattle.live_run.specs.Work.{CanTurn, TurnedFrom, Worked, WorkerDone, IsWorker};

use clock_gate::{ClockRow, Gate};
use interval_now::Answer;
use segment_rule::{ClientSeat, HostTable};
use std::sync::Wait;

/// A client: its seat, how often each of its calls tries, and its answers so far.
#[derive(Drop)]
pub(crate) struct Client {
    pub number: u32,
    pub seat: ClientSeat,
    pub calls: Vec<u16>,
    pub answers: Vec<Answer>,
}

impl Client {
    // One step of the call in hand, or of the next one; the whole of the next one where no other client waits for its turn. Whether
    // calls are left.
    fn turn<G: Gate>(
        &mut self,
        table: &HostTable,
        clock: &[ClockRow],
        alone: bool,
        gate: &G,
    ) -> bool
        requires can { CanTurn table.now clock.now self.old }
        ensures turned { TurnedFrom clock.now self.old self.new }
        ensures can { CanTurn table.now clock.now self.new }
        ensures done { result ≡ false → vec_len self.new.answers ≡ vec_len self.new.calls }
    {
        if self.answers.len() >= self.calls.len() {
            return false;
        }
        if self.seat.in_hand() {
            return self.step(table, clock, gate);
        }
        if alone {
            return self.call(table, clock, gate);
        }
        self.begin(table, clock, gate)
    }

    // Makes the next call from its first step to its last.
    fn call<G: Gate>(&mut self, table: &HostTable, clock: &[ClockRow], gate: &G) -> bool
        requires can { CanTurn table.now clock.now self.old }
        requires hand { self.old.seat.in_hand ≡ false }
        requires left { vec_len self.old.answers < vec_len self.old.calls }
        ensures turned { TurnedFrom clock.now self.old self.new }
        ensures can { CanTurn table.now clock.now self.new }
        ensures done { result ≡ false → vec_len self.new.answers ≡ vec_len self.new.calls }
    {
        let done = self.answers.len();
        gate.pass(1 + self.number, 2 * (done as u32 + 1));
        let most = self.calls[done];
        let answer = self.seat.now(table, clock, most);
        self.answers.push_reserved(answer);
        gate.pass(1 + self.number, 2 * (done as u32 + 1) + 1);
        done + 1 < self.calls.len()
    }

    // Takes the next call in hand, and makes its first step.
    fn begin<G: Gate>(&mut self, table: &HostTable, clock: &[ClockRow], gate: &G) -> bool
        requires can { CanTurn table.now clock.now self.old }
        requires hand { self.old.seat.in_hand ≡ false }
        requires left { vec_len self.old.answers < vec_len self.old.calls }
        ensures turned { TurnedFrom clock.now self.old self.new }
        ensures can { CanTurn table.now clock.now self.new }
        ensures done { result ≡ false → vec_len self.new.answers ≡ vec_len self.new.calls }
    {
        let done = self.answers.len();
        gate.pass(1 + self.number, 2 * (done as u32 + 1));
        let tries = self.calls[done];
        self.seat.begin(table, tries);
        self.step(table, clock, gate)
    }

    fn step<G: Gate>(&mut self, table: &HostTable, clock: &[ClockRow], gate: &G) -> bool
        requires can { CanTurn table.now clock.now self.old }
        requires hand { self.old.seat.in_hand ≡ true }
        ensures turned { TurnedFrom clock.now self.old self.new }
        ensures can { CanTurn table.now clock.now self.new }
        ensures done { result ≡ false → vec_len self.new.answers ≡ vec_len self.new.calls }
    {
        match self.seat.step(table, clock) {
            None => true,
            Some(answer) => {
                self.answers.push_reserved(answer);
                let done = self.answers.len();
                gate.pass(1 + self.number, 2 * done as u32 + 1);
                done < self.calls.len()
            }
        }
    }
}

/// A worker with the clients that it carries.
#[derive(Drop)]
pub(crate) struct ClientWorker {
    pub clients: Vec<Client>,
}

impl ClientWorker {
    // One turn for each client.
    fn round<G: Gate>(&mut self, table: &HostTable, clock: &[ClockRow], gate: &G) -> bool
        requires { All (CanTurn table.now clock.now) self.old.clients.items }
        ensures len { vec_len self.new.clients ≡ vec_len self.old.clients }
        ensures turned { (k : ℕ) (d : Client) → k < vec_len self.old.clients → TurnedFrom clock.now (slice_index_or self.old.clients.items k d) (slice_index_or self.new.clients.items k d) }
        ensures can { All (CanTurn table.now clock.now) self.new.clients.items }
        ensures done { result ≡ false → (k : ℕ) (d : Client) → k < vec_len self.old.clients → vec_len (slice_index_or self.new.clients.items k d).answers ≡ vec_len (slice_index_or self.new.clients.items k d).calls }
    {
        let alone = self.clients.len() == 1;
        let mut busy = false;
        'clients: for place in 0..self.clients.len() {
            if self.clients[place].turn(table, clock, alone, gate) {
                busy = true;
            }
        }
        busy
    }

    /// One step in turn for each client that has a call left, until none has. A client alone makes whole calls.
    #[tactic(auto, using(crate::proofs::Turns::turned_none, crate::proofs::Turns::turned_on, crate::proofs::Turns::turned_done))]
    pub fn work<R: Wait, G: Gate>(
        &mut self,
        rt: &R,
        table: &HostTable,
        clock: &[ClockRow],
        gate: &G,
    )
        requires { IsWorker table.now clock.now self.old }
        ensures { WorkerDone clock.now self.old self.new }
    {
        'rounds: for _ in rt.forever() {
            if !self.round(table, clock, gate) {
                return;
            }
        }
        unreachable!()
    }
}
