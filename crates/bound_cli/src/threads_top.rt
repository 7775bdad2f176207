//! The top call of `threads`.
ghost use Rattle.std.specs.Prelude.{◌≡◌, ◌≤◌, ◌↔◌, ◌⊎◌, ℕ, [], map, Some, Ok, Err, IsErr, IsNone, IsSome, IfOk, IfSome};
ghost use Rattle.std.specs.String.{string_bytes};
ghost use Rattle.clock_gate.specs.Outside.{Rose};
ghost use Rattle.bound_cli.specs.Serve.{IsSilent};
ghost use Rattle.bound_cli.specs.ServeThreads.{AllowsRun, HasRun, IsReadable, IsRunIn, WritesReport};
ghost use Rattle.bound_cli.specs.Stream.{TookTooMuch};
ghost use Rattle.bound_cli.specs.Workers.{workers_of};

use crate::run_text::{Made, run_of_text};
use crate::status::Status;
use crate::stream::{ReadError, read_all, write_all};
use crate::workers::workers_named;
use clock_gate::{Gate, Sink, Source};
use csv_records::TraceError;
use live_run::Ran;
use segment_rule::HostTable;
use std::alloc::Global;
use std::sync::Wait;
use std::thread::Threads;

/// How `threads` ended, and its run, which is there where the whole report or a front of it was written.
#[derive(Drop)]
pub struct Served {
    pub status: Status,
    /// The shared words.
    pub table: Option<HostTable>,
    /// The lines, and the seats that made them.
    pub ran: Option<Ran>,
}

fn without_run(status: Status) -> Served
    ensures { (result.status ≡ status) × IsNone result.table × IsNone result.ran }
{
    Served {
        status,
        table: None,
        ran: None,
    }
}

/// Does what `threads` says: reads the source to its end, runs the trace by threads over one table of shared words, makes the whole report
/// in memory, and writes it into the sink. It may wait, so no clause says that it returns.
///
/// `words` are `threads`, and then nothing or `--workers` and a number from 1 to 64: the most threads that the clients' calls take. Without
/// it each client has one. Refusals come in the order of the work, as those of `serve` do; `Memory` can come at any place before the first
/// byte is written. All passes of the workers go through `gate`.
pub fn serve_threads<R: Threads + Wait + Sync, S: Source, K: Sink, G: Gate + Sync>(
    rt: &R,
    alloc: Global,
    words: &Vec<String>,
    source: &mut S,
    sink: &mut K,
    gate: &G,
) -> Served
    // The words: which one is refused, and that the source isn't asked then.
    ensures usage { (n : ℕ) → (result.status ≡ Status.Usage n) ↔ (workers_of (map string_bytes words.now.items) ≡ Err n) }
    ensures unread { IsErr (workers_of (map string_bytes words.now.items)) → S.left source.new ≡ S.left source.old }
    ensures untouched { IsErr (workers_of (map string_bytes words.now.items)) → S.faults source.new ≡ S.faults source.old }

    // What is answered, by the bytes that the source had.
    ensures answer { IfOk (workers_of (map string_bytes words.now.items)) (λ _. IfSome (S.left source.old) (λ bytes. AllowsRun bytes result.status)) }
    ensures to_end { result.status ≡ Status.Ok → IfSome (S.left source.old) (λ _. S.left source.new ≡ Some []) }
    ensures too_long { result.status ≡ Status.TooLong → TookTooMuch (S.left source.old) (S.left source.new) }

    // The run, where there is one: of the trace that was read, by seats of its own table, and its report is lawful.
    ensures table { IsSome result.table ↔ HasRun result.status }
    ensures ran { IsSome result.ran ↔ HasRun result.status }
    ensures run { IfSome (S.left source.old) (λ bytes. IfSome result.table (λ table. IfSome result.ran (λ ran. IsRunIn bytes table ran))) }

    // What is written: the report of its lines.
    ensures written { IfSome (S.left source.old) (λ bytes. IfSome result.ran (λ ran. WritesReport bytes (K.held sink.old) (K.held sink.new) ran result.status)) }
    ensures silent { IsSilent result.status → K.held sink.new ≡ K.held sink.old }

    // Completeness: where it returns, a trace has its report, unless the outside fails or memory runs out.
    ensures complete { IfOk (workers_of (map string_bytes words.now.items)) (λ _. IfSome (S.left source.old) (λ bytes. IsReadable bytes
        → ¬ (Rose (S.faults source.old) (S.faults source.new)) → ¬ (Rose (K.faults sink.old) (K.faults sink.new))
        → (result.status ≡ Status.Ok) ⊎ (result.status ≡ Status.Memory))) }

    // The outside alone is the cause of its faults.
    ensures read { result.status ≡ Status.Read → Rose (S.faults source.old) (S.faults source.new) }
    ensures write { result.status ≡ Status.Write → Rose (K.faults sink.old) (K.faults sink.new) }
    ensures later { (S.faults source.old ≤ S.faults source.new) × (K.faults sink.old ≤ K.faults sink.new) }
{
    let workers = match workers_named(words.as_slice()) {
        Ok(workers) => workers,
        Err(word) => return without_run(Status::Usage(word)),
    };
    let bytes = match read_all(alloc, source) {
        Ok(bytes) => bytes,
        Err(ReadError::Failed) => return without_run(Status::Read),
        Err(ReadError::TooLong) => return without_run(Status::TooLong),
        Err(ReadError::Memory) => return without_run(Status::Memory),
    };
    let Made { table, ran, text } = match run_of_text(rt, alloc, bytes, workers, gate) {
        Ok(made) => made,
        Err(TraceError::Refused(fault)) => {
            return without_run(Status::Trace {
                line: fault.line,
                reason: fault.reason,
            });
        }
        Err(TraceError::Memory) => return without_run(Status::Memory),
    };
    let status = match write_all(sink, text.as_slice()) {
        Ok(()) => Status::Ok,
        Err(_) => Status::Write,
    };
    Served {
        status,
        table: Some(table),
        ran: Some(ran),
    }
}
