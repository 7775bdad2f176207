//! A run of a text's trace by threads, with its report.
ghost use Rattle.std.specs.Prelude.{◌≡◌, ◌≤◌, IfOk, IfSome};
ghost use Rattle.clock_gate.specs.declared.limits.TheConstants.{MOST_CLIENTS};
ghost use Rattle.abstract_run.specs.Given.{IsGiven};
ghost use Rattle.live_report.specs.LiveReport.{report_of};
ghost use Rattle.bound_cli.specs.ServeThreads.{IsRunBy, MakesRun};

use clock_gate::{Gate, List, Memory, Trace};
use csv_records::TraceError;
use live_report::{live_laws, report};
use live_run::{Ran, run_trace};
use read_runs::read_runs_laws;
use segment_rule::HostTable;
use std::alloc::Global;
use std::sync::Wait;
use std::thread::Threads;
use trace_reader::read_trace;

/// The shared words of a run, what it gave, and the report of its lines.
#[derive(Drop)]
pub struct Made {
    pub table: HostTable,
    pub ran: Ran,
    pub text: List<u8>,
}

// The run of a trace, and its report.
fn run_and_report<R: Threads + Wait + Sync, G: Gate + Sync>(
    rt: &R,
    alloc: Global,
    trace: &Trace,
    workers: u32,
    gate: &G,
) -> Result<Made, Memory>
    requires trace { IsGiven trace.now }
    requires some { 1 ≤ workers }
    requires most { workers ≤ MOST_CLIENTS }
    ensures run { IfOk result (λ made. IsRunBy trace.now made.table made.ran) }
    ensures text { IfOk result (λ made. made.text ≡ report_of trace.now made.ran.lines) }
{
    live_laws();
    let (table, ran) = run_trace(rt, alloc, trace, workers, gate)?;
    let text = report(alloc, trace, &ran.lines)?;
    Ok(Made { table, ran, text })
}

// As many workers as are told, or one for each client.
#[tactic(auto, using(live_report::proofs::Clients::clients_within))]
fn workers_taken(workers: Option<u32>, trace: &Trace) -> u32
    requires trace { IsGiven trace.now }
    requires some { IfSome workers (λ number. 1 ≤ number) }
    requires most { IfSome workers (λ number. number ≤ MOST_CLIENTS) }
    ensures some { 1 ≤ result }
    ensures most { result ≤ MOST_CLIENTS }
{
    match workers {
        Some(workers) => workers,
        None => trace.clients,
    }
}

/// The run of a text's trace with its report, or the fault of its first refused line. The text is given up before the run, so that the run
/// has its memory.
pub fn run_of_text<R: Threads + Wait + Sync, G: Gate + Sync>(
    rt: &R,
    alloc: Global,
    bytes: Vec<u8>,
    workers: Option<u32>,
    gate: &G,
) -> Result<Made, TraceError>
    requires some { IfSome workers (λ number. 1 ≤ number) }
    requires most { IfSome workers (λ number. number ≤ MOST_CLIENTS) }
    ensures { MakesRun bytes.items result }
{
    read_runs_laws();
    let trace = read_trace(alloc, bytes.as_slice())?;
    drop(bytes);
    let workers = workers_taken(workers, &trace);
    match run_and_report(rt, alloc, &trace, workers, gate) {
        Ok(made) => Ok(made),
        Err(Memory) => Err(TraceError::Memory),
    }
}
