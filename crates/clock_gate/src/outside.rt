ghost use Rattle.std.specs.Prelude.{◌≡◌, ◌<◌, ◌≤◌, ℕ, List, length, Option, is_some, IfOk, OnErr};
ghost use Rattle.clock_gate.specs.Outside.{HasCause, Takes, Puts};

use std::alloc::AllocError;

/// A call on the outside failed.
#[derive(Clone, Copy, Debug, PartialEq, Eq, Hash)]
pub struct Failed;

/// No memory was found.
#[derive(Clone, Copy, Debug, PartialEq, Eq, Hash)]
pub struct Memory;

impl From<AllocError> for Memory {
    fn from(_error: AllocError) -> Memory {
        Memory
    }
}

/// Where bytes come from.
///
/// What a source has left is told by some sources (`left` is `Some`) and not by others, as a terminal. No call
/// changes whether it is told. Each source counts its faults; the count never falls.
pub trait Source {
    /// The bytes that are left, where the source tells them.
    ghost left: { Self → Option (List ℕ) };

    /// How often it has failed.
    ghost faults: { Self → ℕ };

    /// Puts the next bytes in front of the buffer and answers how many. It is 0 exactly at the end, where the
    /// source tells its bytes; a caller takes 0 for the end in any case. Fails only where the count of faults
    /// rose, and then what is left is unchanged.
    fn take(&mut self, buf: &mut [u8]) -> Result<usize, Failed>
        requires { 0 < length buf.old }
        ensures within { IfOk result (λ n. n ≤ length buf.old) }
        ensures told { is_some (left self.new) ≡ is_some (left self.old) }
        ensures given { IfOk result (λ n. Takes n (left self.old) (left self.new) buf.old buf.new) }
        ensures refused { OnErr result (left self.new ≡ left self.old) }
        ensures cause { HasCause (faults self.old) (faults self.new) result };
}

/// Where bytes go.
///
/// What a sink holds is told by some sinks (`held` is `Some`) and not by others, as a terminal. No call changes
/// whether it is told. Each sink counts its faults; the count never falls.
pub trait Sink {
    /// The bytes that were given to it, where the sink tells them.
    ghost held: { Self → Option (List ℕ) };

    /// How often it has failed.
    ghost faults: { Self → ℕ };

    /// Appends the first bytes of the piece, one at least, and answers how many. Fails only where the count of
    /// faults rose, and then nothing was appended.
    fn put(&mut self, piece: &[u8]) -> Result<usize, Failed>
        requires { 0 < length piece.now }
        ensures within { IfOk result (λ n. (1 ≤ n) × (n ≤ length piece.now)) }
        ensures told { is_some (held self.new) ≡ is_some (held self.old) }
        ensures given { IfOk result (λ n. Puts n (held self.old) (held self.new) piece.now) }
        ensures refused { OnErr result (held self.new ≡ held self.old) }
        ensures cause { HasCause (faults self.old) (faults self.new) result };
}
