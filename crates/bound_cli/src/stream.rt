//! All that a source gives, and all of a text into a sink.
ghost use Rattle.std.specs.Prelude.{◌≡◌, ◌<◌, ◌≤◌, length, IfOk, OnOk, OnErr, IsErrOf, vec_len};
ghost use Rattle.clock_gate.specs.Outside.{Rose, HasCause};
ghost use Rattle.clock_gate.specs.declared.limits.TheConstants.{INPUT_LIMIT};
ghost use Rattle.bound_cli.specs.declared.stream.ReadError.TheVariants.{Memory};
ghost use Rattle.bound_cli.specs.Stream.{TakenWhole, TookTooMuch, Appended, AppendedFront};

use clock_gate::{Failed, INPUT_LIMIT, Sink, Source};
use std::alloc::{AllocError, Global};

// So many bytes are asked for at once: 64 KiB. The block stands in the heap, so that the stack stays as small as it is at the start.
const BLOCK: usize = 65_536;

/// Why a source was not read to its end.
#[derive(Clone, Copy, Debug, PartialEq, Eq)]
pub enum ReadError {
    Failed,
    TooLong,
    Memory,
}

impl From<AllocError> for ReadError {
    ghost from_gives = { λ _ e. e ≡ Memory };

    fn from(_error: AllocError) -> ReadError {
        ReadError::Memory
    }
}

// A block to read into, of zeros.
fn block(alloc: Global) -> Result<Vec<u8>, AllocError>
    ensures { IfOk result (λ block. 0 < vec_len block) }
{
    vec![in alloc; 0_u8; BLOCK]
}

// All bytes of a source, which come through this block.
fn read_through<S: Source>(
    alloc: Global,
    source: &mut S,
    block: &mut [u8],
) -> Result<Vec<u8>, ReadError>
    requires { 0 < length block.old }
    ensures whole { IfOk result (λ v. TakenWhole (S.left source.old) (S.left source.new) v.items) }
    ensures short { IfOk result (λ v. vec_len v ≤ INPUT_LIMIT) }
    ensures too_long { IsErrOf result ReadError.TooLong → TookTooMuch (S.left source.old) (S.left source.new) }
    ensures later { S.faults source.old ≤ S.faults source.new }
    ensures failed { IsErrOf result ReadError.Failed → Rose (S.faults source.old) (S.faults source.new) }
{
    let mut bytes = Vec::new(alloc);
    'reading: while bytes.len() <= INPUT_LIMIT {
        match source.take(block) {
            Err(Failed) => return Err(ReadError::Failed),
            Ok(0) => return Ok(bytes),
            Ok(count) => bytes.extend_from_slice(&block[..count])?,
        }
    }
    Err(ReadError::TooLong)
}

/// All bytes of a source. `TooLong` comes as soon as one byte more than the limit was taken, `Failed` only where the
/// source failed.
pub fn read_all<S: Source>(alloc: Global, source: &mut S) -> Result<Vec<u8>, ReadError>
    ensures whole { IfOk result (λ v. TakenWhole (S.left source.old) (S.left source.new) v.items) }
    ensures short { IfOk result (λ v. vec_len v ≤ INPUT_LIMIT) }
    ensures too_long { IsErrOf result ReadError.TooLong → TookTooMuch (S.left source.old) (S.left source.new) }
    ensures later { S.faults source.old ≤ S.faults source.new }
    ensures failed { IsErrOf result ReadError.Failed → Rose (S.faults source.old) (S.faults source.new) }
{
    let mut block = block(alloc)?;
    read_through(alloc, source, &mut block)
}

/// Puts a whole text into a sink. After a failure some front of it was put.
pub fn write_all<K: Sink>(sink: &mut K, text: &[u8]) -> Result<(), Failed>
    ensures whole { OnOk result (Appended (K.held sink.old) (K.held sink.new) text.now) }
    ensures front { OnErr result (AppendedFront (K.held sink.old) (K.held sink.new) text.now) }
    ensures cause { HasCause (K.faults sink.old) (K.faults sink.new) result }
{
    let mut at = 0;
    'writing: while at < text.len() {
        let (_, rest) = text.split_at(at);
        at += sink.put(rest)?;
    }
    Ok(())
}
