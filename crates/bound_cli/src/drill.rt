//! A generated day: what its report comes to.
ghost use Rattle.std.specs.Prelude.{◌≡◌, ◌≤◌, ◌++◌, [], vec_items, IfOk, OnOk};
ghost use Rattle.drill_day.specs.declared.limits.TheConstants.{FEWEST_DAY_POLLS, MOST_DAY_POLLS};
ghost use Rattle.drill_day.specs.Day.{day_of};
ghost use Rattle.abstract_run.specs.Given.{CanRun};
ghost use Rattle.bound_cli.specs.Drill.{drill_line, drill_report, summary_of};

use crate::report::put_summary;
use abstract_run::given;
use backward_line::BackwardLine;
use clock_gate::{Memory, Trace};
use drill_day::drill_trace;
use std::alloc::{AllocError, Global};
use step_core::{World, words_show};

// Room for three lines.
const ROOM: usize = 192;

#[tactic(auto, unfolding(crate::specs::Drill::drill_line))]
fn put_drill_text(line: &mut BackwardLine, seed: u64, polls: u32)
    requires { line.old ≡ [] }
    ensures { line.new ≡ drill_line seed polls }
{
    line.put_byte(b'\n');
    line.put_number(u64::from(polls));
    line.put_byte(b',');
    line.put_number(seed);
    line.put_word(b"drill,".as_slice());
}

fn put_drill(text: &mut Vec<u8>, seed: u64, polls: u32) -> Result<(), AllocError>
    ensures { OnOk result (vec_items text.new ≡ vec_items text.old ++ drill_line seed polls) }
{
    let mut line = BackwardLine::new();
    put_drill_text(&mut line, seed, polls);
    text.extend_from_slice(line.as_slice())
}

// The end of the report of a trace's run.
fn put_summary_of(alloc: Global, text: &mut Vec<u8>, trace: &Trace) -> Result<(), AllocError>
    requires { CanRun trace.now }
    ensures { OnOk result (vec_items text.new ≡ vec_items text.old ++ summary_of trace.now) }
{
    given(trace);
    words_show();
    let mut world = match World::new(alloc, trace) {
        Ok(world) => world,
        Err(Memory) => return Err(AllocError),
    };
    world.run();
    put_summary(alloc, text, trace, world.events())
}

fn day(alloc: Global, seed: u64, polls: u32) -> Result<Trace, AllocError>
    requires few { FEWEST_DAY_POLLS ≤ polls }
    requires many { polls ≤ MOST_DAY_POLLS }
    ensures day { IfOk result (λ trace. trace ≡ day_of seed polls) }
    ensures can { IfOk result CanRun }
{
    match drill_trace(alloc, seed, polls) {
        Ok(trace) => Ok(trace),
        Err(Memory) => Err(AllocError),
    }
}

/// What is told of the day with this seed and this number of polls: the two numbers, the counts of its report, and whether its promises
/// were kept.
#[tactic(auto, unfolding(crate::specs::Drill::drill_report))]
pub fn drilled(alloc: Global, seed: u64, polls: u32) -> Result<Vec<u8>, AllocError>
    requires few { FEWEST_DAY_POLLS ≤ polls }
    requires many { polls ≤ MOST_DAY_POLLS }
    ensures { IfOk result (λ text. vec_items text ≡ drill_report seed polls) }
{
    let trace = day(alloc, seed, polls)?;
    let mut text = Vec::with_capacity(alloc, ROOM)?;
    put_drill(&mut text, seed, polls)?;
    put_summary_of(alloc, &mut text, &trace)?;
    Ok(text)
}
