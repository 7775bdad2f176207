//! The day as a trace.
ghost use Rattle.std.specs.Prelude.{◌≡◌, ◌≤◌, IfOk, IsOk};
ghost use Rattle.clock_gate.specs.Trace.{IsLawfulTrace};
ghost use Rattle.drill_day.specs.Day.{day_of};
ghost use Rattle.drill_day.specs.Seconds.{start_words};
ghost use Rattle.segment_layout.specs.Image.{image_of};
ghost use Rattle.vmclock_page.specs.Rows.{ArePageRows, IsStartPage};

use crate::lists::{calls_of, clock_of, host_of, order_of, polls_of};
use crate::schedule::schedule_of;
use crate::seconds::marked_page;
use clock_gate::{List, Memory, Trace, USUAL_DRIFT, USUAL_TRIES};
use generation_word::Layout;
use std::alloc::{AllocError, Global};
use vmclock_page::to_words;

fn start_words() -> [u64; 13]
    ensures { result ≡ start_words }
{
    to_words(&marked_page(7))
}

fn day_of(alloc: Global, seed: u64, polls: u32) -> Result<Trace, AllocError>
    requires { polls ≤ 20000 }
    ensures { IfOk result (λ trace. trace ≡ day_of seed polls) }
{
    let clock = clock_of(alloc, seed, polls)?;
    let host = host_of(alloc, polls)?;
    let rows = polls_of(alloc, seed, polls)?;
    let calls = calls_of(alloc, polls)?;
    let turns = schedule_of(alloc, seed, polls)?;
    let order = order_of(alloc, polls)?;
    Ok(Trace {
        drift: USUAL_DRIFT,
        tries: USUAL_TRIES,
        clients: 3,
        layout: Layout::Two,
        image: [0; 10],
        page: Some(start_words()),
        clock: List::from_vec(clock),
        host: List::from_vec(host),
        polls: List::from_vec(rows),
        calls: List::from_vec(calls),
        turns: List::from_vec(turns),
        order: List::from_vec(order),
    })
}

/// The trace of the day with this seed and this number of polls, one in each second. `Memory` where memory runs out.
///
/// The day has a row of the clock and a call of each of three clients in each second, one disruption of the counter that
/// the page tells, and one stop of the daemon. Seed 0 does the jobs in their order; any other seed has 40 lines of the
/// schedule for each second, drawn after everything else. The rules are this project's own.
pub fn drill_trace(alloc: Global, seed: u64, polls: u32) -> Result<Trace, Memory>
    requires few { 6 ≤ polls }
    requires many { polls ≤ 20000 }
    // The trace is that of the day.
    ensures exact { IfOk result (λ trace. trace ≡ day_of seed polls) }
    // It may be run.
    ensures lawful { IfOk result IsLawfulTrace }
    // A daemon of the trace's layout can go on with the segment.
    ensures image { IfOk result (λ trace. IsOk (image_of trace.layout trace.image)) }
    // The start page is one, and each page row is one of the same clock.
    ensures page { IfOk result (λ trace. IsStartPage trace.page) }
    ensures rows { IfOk result (λ trace. ArePageRows trace.page trace.host) }
{
    match day_of(alloc, seed, polls) {
        Ok(trace) => Ok(trace),
        Err(_) => Err(Memory),
    }
}
