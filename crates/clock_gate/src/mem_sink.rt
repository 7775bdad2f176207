ghost use Rattle.std.specs.Prelude.{◌≡◌, ◌-◌, ◌<◌, ◌≤◌, min, ◌||◌, ◌==◌, length, Some, is_err, IfOk, OnErr};
ghost use Rattle.clock_gate.specs.Outside.{HasCause, Puts};
ghost use Rattle.clock_gate.specs.Memory.{one_more, is_told_to_fail};

use crate::list::List;
use crate::outside::{Failed, Memory, Sink};
use std::alloc::Global;
use std::marker::Model;

/// A sink in memory, which tells what it holds and fails where it is told to, and once it is full.
///
/// Contracts see the bytes that it holds, the most that it can hold, the most that one call takes, the numbers of
/// the calls that fail, and how many calls and faults there were.
#[derive(Debug, Drop)]
pub struct MemSink {
    bytes: Vec<u8>,
    room: usize,
    most: usize,
    fails: List<u64>,
    calls: u64,
    faults: u64,
}

impl Model for MemSink {
    ghost use Rattle.std.specs.Prelude.{◌≤◌, vec_len, vec_capacity};
    ghost use Rattle.clock_gate.specs.Memory.{MemSinkState};

    ghost Value = { MemSinkState };

    ghost view = { λ s. record { held = s.bytes.items; room = s.room; most = s.most; fails = s.fails; calls = s.calls; faults = s.faults } };

    ghost invariant = { λ s. (vec_len s.bytes ≤ s.room) × (s.room ≤ vec_capacity s.bytes) × (1 ≤ s.most) };
}

impl MemSink {
    ghost use Rattle.std.specs.Prelude.{[]};

    /// An empty sink with room for `room` bytes, which are reserved at once. It takes at most `most` bytes in one
    /// call, and fails the calls whose numbers, from 1, stand in `fails`, and each call once it is full.
    pub fn new(alloc: Global, room: usize, most: usize, fails: List<u64>) -> Result<MemSink, Memory>
        requires { 1 ≤ most }
        ensures { IfOk result (λ s. s ≡ record { held = []; room = room; most = most; fails = fails; calls = 0; faults = 0 }) }
    {
        let bytes = Vec::with_capacity(alloc, room)?;
        Ok(MemSink {
            bytes,
            room,
            most,
            fails,
            calls: 0,
            faults: 0,
        })
    }

    /// All that was put into it.
    pub fn bytes(&self) -> &[u8]
        ensures { result.now ≡ self.now.held }
    {
        self.bytes.as_slice()
    }
}

impl Sink for MemSink {
    ghost held = { λ s. Some s.held };

    ghost faults = { λ s. s.faults };

    fn put(&mut self, piece: &[u8]) -> Result<usize, Failed>
        requires { 0 < length piece.now }
        ensures within { IfOk result (λ n. (1 ≤ n) × (n ≤ length piece.now)) }
        ensures given { IfOk result (λ n. Puts n (Some self.old.held) (Some self.new.held) piece.now) }
        ensures refused { OnErr result (self.new.held ≡ self.old.held) }
        ensures cause { HasCause self.old.faults self.new.faults result }

        // Which calls fail, and how much the others take.
        ensures fails { is_err result ≡ (is_told_to_fail self.old.fails self.old.calls || (length self.old.held == self.old.room)) }
        ensures count { IfOk result (λ n. n ≡ min self.old.most (min (length piece.now) (self.old.room - length self.old.held))) }
        ensures calls { self.new.calls ≡ one_more self.old.calls }
        ensures same { (self.new.room ≡ self.old.room) × (self.new.most ≡ self.old.most) × (self.new.fails ≡ self.old.fails) }
    {
        self.calls = self.calls.saturating_add(1);
        let number = self.calls;
        if self.fails.as_slice().contains(&number) {
            self.faults = self.faults.saturating_add(1);
            return Err(Failed);
        }
        let free = self.room - self.bytes.len();
        if free == 0 {
            self.faults = self.faults.saturating_add(1);
            return Err(Failed);
        }
        let count = self.most.min(piece.len()).min(free);
        let (front, _) = piece.split_at(count);
        self.bytes.extend_from_slice(front).unwrap();
        Ok(count)
    }
}
