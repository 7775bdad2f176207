//! A trace in, stamps and leases by its answers out.
ghost use Rattle.std.specs.Prelude.{◌≡◌, ◌≤◌, vec_items, length, IfOk};
ghost use Rattle.bound_order.specs.declared.lease.TheConstants.{LONGEST_LEASE};
ghost use Rattle.abstract_run.specs.declared.limits.TheConstants.{MOST_EVENTS};
ghost use Rattle.abstract_run.specs.RunWhole.{run_of};
ghost use Rattle.abstract_run.specs.Given.{CanRun};
ghost use Rattle.csv_records.specs.TraceError.{Gives};
ghost use Rattle.bound_cli.specs.Order.{order_report, ordering_text};

use crate::premises_line::put_premises;
use crate::report::premises_of;
use abstract_run::{Event, given};
use clock_gate::{Memory, Trace};
use csv_records::TraceError;
use order_text::put_order;
use ordered_runs::ordered_laws;
use std::alloc::{AllocError, Global};
use step_core::{World, words_show};
use trace_reader::read_trace;

// Room for the two lines of an answer: most are shorter, and a text grows where they aren't.
const ANSWER_ROOM: usize = 64;

// Of a run of this trace with these events.
#[tactic(auto, unfolding(crate::specs::Order::ordering_text))]
fn ordering(
    alloc: Global,
    lease: u64,
    trace: &Trace,
    events: &[Event],
) -> Result<Vec<u8>, AllocError>
    requires short { lease ≤ LONGEST_LEASE }
    requires few { length events.now ≤ MOST_EVENTS }
    requires can { CanRun trace.now }
    requires run { events.now ≡ (run_of trace.now).events }
    ensures report { IfOk result (λ text. vec_items text ≡ ordering_text lease trace.now events.now) }
{
    given(trace);
    ordered_laws();
    let premises = premises_of(alloc, trace, events)?;
    let mut text = Vec::with_capacity(alloc, ANSWER_ROOM * (events.len() + 2))?;
    put_order(alloc, &mut text, trace.clock.as_slice(), events, lease)?;
    put_premises(&mut text, &premises)?;
    Ok(text)
}

// Of a trace's run.
fn ordering_of_run(alloc: Global, length: u64, trace: &Trace) -> Result<Vec<u8>, AllocError>
    requires short { length ≤ LONGEST_LEASE }
    requires can { CanRun trace.now }
    ensures report { IfOk result (λ text. vec_items text ≡ ordering_text length trace.now (run_of trace.now).events) }
{
    given(trace);
    words_show();
    let mut world = match World::new(alloc, trace) {
        Ok(world) => world,
        Err(Memory) => return Err(AllocError),
    };
    world.run();
    ordering(alloc, length, trace, world.events())
}

/// The stamps and leases by the answers of a text's trace, or the fault of its first refused line. `length` is that of a lease, in
/// nanoseconds.
#[tactic(auto, unfolding(crate::specs::Order::order_report))]
pub fn ordered(alloc: Global, length: u64, bytes: &[u8]) -> Result<Vec<u8>, TraceError>
    requires { length ≤ LONGEST_LEASE }
    ensures report { Gives vec_items result (order_report length bytes.now) }
{
    let trace = read_trace(alloc, bytes)?;
    Ok(ordering_of_run(alloc, length, &trace)?)
}
