ghost use Rattle.std.specs.Prelude.{◌≡◌, ◌<◌, ◌≤◌, min, length, Some, is_err, IfOk, OnErr};
ghost use Rattle.clock_gate.specs.Outside.{HasCause, Takes};
ghost use Rattle.clock_gate.specs.Memory.{one_more, is_told_to_fail};

use crate::list::List;
use crate::outside::{Failed, Source};
use std::marker::Model;

/// A source in memory, which tells what it has left and fails where it is told to.
///
/// Contracts see the bytes that are left, the most that one call gives, the numbers of the calls that fail, and
/// how many calls and faults there were.
#[derive(Debug, Drop)]
pub struct MemSource {
    bytes: List<u8>,
    at: usize,
    most: usize,
    fails: List<u64>,
    calls: u64,
    faults: u64,
}

impl Model for MemSource {
    ghost use Rattle.std.specs.Prelude.{◌≤◌, drop, length};
    ghost use Rattle.clock_gate.specs.Memory.{MemSourceState};

    ghost Value = { MemSourceState };

    ghost view = { λ s. record { left = drop s.at s.bytes; most = s.most; fails = s.fails; calls = s.calls; faults = s.faults } };

    ghost invariant = { λ s. (s.at ≤ length s.bytes) × (1 ≤ s.most) };
}

impl MemSource {
    /// A source of these bytes. It gives at most `most` of them in one call, and fails the calls whose numbers,
    /// from 1, stand in `fails`.
    pub fn new(bytes: List<u8>, most: usize, fails: List<u64>) -> MemSource
        requires { 1 ≤ most }
        ensures { result ≡ record { left = bytes; most = most; fails = fails; calls = 0; faults = 0 } }
    {
        MemSource {
            bytes,
            at: 0,
            most,
            fails,
            calls: 0,
            faults: 0,
        }
    }
}

impl Source for MemSource {
    ghost left = { λ s. Some s.left };

    ghost faults = { λ s. s.faults };

    fn take(&mut self, buf: &mut [u8]) -> Result<usize, Failed>
        requires { 0 < length buf.old }
        ensures within { IfOk result (λ n. n ≤ length buf.old) }
        ensures given { IfOk result (λ n. Takes n (Some self.old.left) (Some self.new.left) buf.old buf.new) }
        ensures refused { OnErr result (self.new.left ≡ self.old.left) }
        ensures cause { HasCause self.old.faults self.new.faults result }

        // Which calls fail, and how much the others give.
        ensures fails { is_err result ≡ is_told_to_fail self.old.fails self.old.calls }
        ensures count { IfOk result (λ n. n ≡ min self.old.most (min (length buf.old) (length self.old.left))) }
        ensures calls { self.new.calls ≡ one_more self.old.calls }
        ensures same { (self.new.most ≡ self.old.most) × (self.new.fails ≡ self.old.fails) }
    {
        self.calls = self.calls.saturating_add(1);
        let number = self.calls;
        if self.fails.as_slice().contains(&number) {
            self.faults = self.faults.saturating_add(1);
            return Err(Failed);
        }
        let (_, left) = self.bytes.as_slice().split_at(self.at);
        let count = self.most.min(buf.len()).min(left.len());
        let (next, _) = left.split_at(count);
        buf[..count].copy_from_slice(next);
        self.at += count;
        Ok(count)
    }
}
