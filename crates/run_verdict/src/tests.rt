//! The verdicts of worked runs: each run's whole schedule, judged by walking back and by tables.
ghost use Rattle.std.specs.Prelude.{◌≡◌, ◌≤◌, length};
ghost use Rattle.abstract_run.specs.RunWhole.{run_of};
ghost use Rattle.abstract_run.specs.Given.{CanRun};
ghost use Rattle.abstract_run.specs.declared.limits.TheConstants.{MOST_EVENTS};

use crate::{judged_run, premises};
use abstract_run::{Event, given};
use clock_gate::{Memory, Trace};
use promise_judge::Why;
use run_promises::{Premises, any_run};
use std::alloc::{AllocError, Global};
use std::test::Fail;
use step_core::{World, words_show};
use trace_reader::{TraceError, read_trace};

// A tracking reply: its bound is 244,142 ns.
const REPLY: &[u8] =
    b"06020000002100050000000000000000000000010000000000000000a9fea97ba9fea97b0000000000000000000000000001000000040000000000006500000000000000f7ffffff0000000000000000000000000000000000000000ec800000ea80000000000000";

// The same with no correction, delay and dispersion: its bound is 0.
const SHARP: &[u8] =
    b"06020000002100050000000000000000000000010000000000000000a9fea97ba9fea97b00000000000000000000000000010000000400000000000065000000000000000000000000000000000000000000000000000000000000000000000000000000000000000000";

// A page with sequence count 2 and marker 7.
const PAGE: &[u8] =
    b"56434c4b68000000010001000200000007000000000000000000000000000000000000000000000000000000000000000000000000000000000000000000000000000000000000000000000000000000000000000000000000000000000000000000000000000000";

// Images of layout 2: a record under generation 65,534, and one whose writer stopped at 65,535.
const IMAGE: &[u8] =
    b"4e5a4d4100024243500000000200feff01000000000000000000000000000000e9030000000000000000000000000000aeb9030000000000000000000000000050c30000010000000000000000000000";

const TORN: &[u8] =
    b"4e5a4d4100024243500000000200ffff01000000000000000000000000000000e9030000000000000000000000000000aeb9030000000000000000000000000050c30000010000000000000000000000";

// Appends lines in which `A` stands for the reply, `C` for the sharp one, `P` for the page, `I` and `T` for the images, and `R` for
// an instant.
fn spell(text: &mut Vec<u8>, lines: &[u8]) -> Result<(), AllocError> {
    for byte in lines {
        match byte {
            b'A' => text.extend_from_slice(REPLY)?,
            b'C' => text.extend_from_slice(SHARP)?,
            b'P' => text.extend_from_slice(PAGE)?,
            b'I' => text.extend_from_slice(IMAGE)?,
            b'T' => text.extend_from_slice(TORN)?,
            b'R' => text.extend_from_slice(b"1700000000000000000")?,
            other => text.push(*other)?,
        }
    }
    Ok(())
}

// The verdict on the events of a trace's whole run, where both ways give the same.
fn verdict_on(
    alloc: Global,
    trace: &Trace,
    events: &[Event],
) -> Result<Option<Premises>, AllocError>
    requires can { CanRun trace.now }
    requires few { length events.now ≤ MOST_EVENTS }
    requires run { events.now ≡ (run_of trace.now).events }
{
    any_run();
    match judged_run(alloc, trace, events) {
        Ok(verdict) => Ok((premises(trace, events) == verdict).then_some(verdict)),
        Err(Memory) => Err(AllocError),
    }
}

fn verdict_of_run(alloc: Global, trace: &Trace) -> Result<Option<Premises>, AllocError>
    requires { CanRun trace.now }
{
    given(trace);
    words_show();
    let mut world = match World::new(alloc, trace) {
        Ok(world) => world,
        Err(Memory) => return Err(AllocError),
    };
    world.run();
    verdict_on(alloc, trace, world.events())
}

// Of the run of a text; `None` too where the text is refused.
fn verdict_of_text(alloc: Global, text: &[u8]) -> Result<Option<Premises>, AllocError> {
    match read_trace(alloc, text) {
        Ok(trace) => verdict_of_run(alloc, &trace),
        Err(TraceError::Refused(_)) => Ok(None),
        Err(TraceError::Memory) => Err(AllocError),
    }
}

// Of a header and these lines.
fn verdict(alloc: Global, lines: &[u8]) -> Result<Option<Premises>, AllocError> {
    let mut text = Vec::from_slice(alloc, b"clockbound-trace,1\n")?;
    spell(&mut text, lines)?;
    verdict_of_text(alloc, text.as_slice())
}

fn failed(call: u32, why: Why, at: u64) -> Option<Premises> {
    Some(Premises::Failed {
        client: 1,
        call,
        why,
        at,
    })
}

// A synchronized answer over rows whose truth is told.
const KEPT: &[u8] = b"clock,1000000000,R,1700000000000100000
poll,A
clock,3500000000,1700000002500000000,1700000002500100000
call,1
";

// The image alone is read; and then no row has a truth.
const OF_THE_IMAGE: &[u8] = b"image,I
clock,2000000000,1700000001000000000
call,1
poll,A
call,1
";

// Busy at an odd number, and then a time.
const AFTER_A_STOP: &[u8] = b"image,T
clock,2000000000,1700000001000000000
call,1,2
poll,A
call,1
";

// Busy while the image's record is moved, and then a time by the poll.
const AFTER_A_MOVE: &[u8] = b"set,layout,3
image,I
clock,2000000000,1700000001000000000
call,1,1
poll,A
call,1
run,c1,3
run,d,11
do,c1,1
";

// The answer is disrupted: it is not looked at.
const DISRUPTED: &[u8] = b"page,P
clock,1000000000,R
mark,8
poll,A
call,1
run,d,8
do,h,1
";

// The page is in the middle of an update.
const PAGE_BUSY: &[u8] = b"set,tries,1
page,P
clock,1000000000,R
mark,8
poll,A
poll,A
call,1
do,d,1
run,h,1
do,c1,1
do,d,1
";

const NOTHING_THERE: &[u8] = b"clock,1000000000,R
call,1
poll,A
";

// A disruption that no page row tells before the call.
const UNTOLD_DISRUPTION: &[u8] = b"page,P
clock,1000000000,R,R
poll,A
disrupt
clock,2000000000,1700000001000000000,1700000001005000000
call,1
mark,8
";

// The same, told before the call.
const TOLD_DISRUPTION: &[u8] = b"page,P
clock,1000000000,R,R
poll,A
disrupt
clock,2000000000,1700000001000000000,1700000001005000000
mark,8
call,1
";

// A disruption that the base poll knew of excuses no drift.
const KNOWN_DISRUPTION: &[u8] = b"page,P
clock,1000000000,R,R
disrupt
mark,8
poll,A
clock,2000000000,1700000001000000000,1700000001005000000
call,1
";

#[test]
fn the_first_answer_that_is_not_kept_is_named(rt: HostRuntime) -> Result<(), Fail> {
    let held = Some(Premises::Held);
    assert_eq!(rt; verdict(rt.alloc(), KEPT)?, held);
    assert_eq!(rt;
        verdict(rt.alloc(), OF_THE_IMAGE)?,
        failed(1, Why::Image, 0)
    );
    assert_eq!(rt;
        verdict(rt.alloc(), AFTER_A_STOP)?,
        failed(2, Why::Untold, 1)
    );
    assert_eq!(rt;
        verdict(rt.alloc(), AFTER_A_MOVE)?,
        failed(2, Why::Untold, 1)
    );
    assert_eq!(rt;
        verdict(rt.alloc(), UNTOLD_DISRUPTION)?,
        failed(1, Why::Mark, 2)
    );
    assert_eq!(rt;
        verdict(rt.alloc(), KNOWN_DISRUPTION)?,
        failed(1, Why::Drift, 2)
    );
    Ok(())
}

#[test]
fn answers_that_claim_nothing_are_not_looked_at(rt: HostRuntime) -> Result<(), Fail> {
    let held = Some(Premises::Held);
    assert_eq!(rt; verdict(rt.alloc(), DISRUPTED)?, held);
    assert_eq!(rt; verdict(rt.alloc(), PAGE_BUSY)?, held);
    assert_eq!(rt; verdict(rt.alloc(), NOTHING_THERE)?, held);
    assert_eq!(rt; verdict(rt.alloc(), TOLD_DISRUPTION)?, held);
    Ok(())
}

// A read with so many publications inside it: those of polls without a reply and of a last one with a reply.
fn verdict_around(
    alloc: Global,
    silent: u32,
    turns: &[u8],
) -> Result<Option<Premises>, AllocError> {
    let mut text = Vec::from_slice(alloc, b"clockbound-trace,1\n")?;
    spell(
        &mut text,
        b"clock,1000000000,R\nclock,2000000000,1700000001000000000\npoll,A\n",
    )?;
    for _ in 0..silent {
        text.extend_from_slice(b"poll,\n")?;
    }
    spell(&mut text, b"poll,C\ncall,1,2\ndo,d,1\nrun,c1,5\ndo,h,1\n")?;
    text.extend_from_slice(turns)?;
    verdict_of_text(alloc, text.as_slice())
}

#[test]
fn a_whole_period_inside_a_read_wraps(rt: HostRuntime) -> Result<(), Fail> {
    let wraps = verdict_around(rt.alloc(), 32_766, b"do,d,32767\n")?;
    assert_eq!(rt; wraps, failed(1, Why::Wrap, 32_767));
    let tries_again = verdict_around(rt.alloc(), 32_765, b"do,d,32766\n")?;
    assert_eq!(rt; tries_again, failed(1, Why::Untold, 2));
    Ok(())
}
