//! The trace of a text.
ghost use Rattle.std.specs.Prelude.{IfOk, IsOk};
ghost use Rattle.clock_gate.specs.Trace.{IsLawfulTrace};
ghost use Rattle.vmclock_page.specs.Rows.{ArePageRows, IsStartPage};
ghost use Rattle.segment_layout.specs.Image.{image_of};
ghost use Rattle.csv_records.specs.TraceError.{Answers};
ghost use Rattle.trace_reader.specs.Grammar.{trace_in};

use crate::held::Held;
use clock_gate::Trace;
use csv_records::{Records, TraceError, roomy_row};
use std::alloc::Global;

fn read_records(alloc: Global, bytes: &[u8]) -> Result<Trace, TraceError>
    ensures { Answers result (trace_in bytes.now) }
{
    let mut records = Records::new(alloc, bytes);
    let mut row = roomy_row(alloc)?;
    let mut held = Held::new(alloc);
    'reading: while records.read(&mut row)? {
        held.take(alloc, &row)?;
    }
    held.finish()
}

/// The trace that a text says, or its first refused record and the first reason against that one.
///
/// Each record passes, in order, the tests of `Reason`: those of itself, its kind, its number of fields, and its numbers
/// and hexadecimal digits from the left; and then those by the lines before it, its place, the clock, the page, the
/// image and the limits. A text without records is refused as `Kind` at line 1, one without a row of the clock as
/// `NoClock` at the line after its last. The format is this project's own.
pub fn read_trace(alloc: Global, bytes: &[u8]) -> Result<Trace, TraceError>
    // The trace is the one that the records of the text say, and the refusal their first.
    ensures answer { Answers result (trace_in bytes.now) }
    // What was read may be run.
    ensures lawful { IfOk result IsLawfulTrace }
    // A daemon of the trace's layout can go on with the segment.
    ensures image { IfOk result (λ trace. IsOk (image_of trace.layout trace.image)) }
    // The start page is one, and each page row is one of the same clock.
    ensures page { IfOk result (λ trace. IsStartPage trace.page) }
    ensures rows { IfOk result (λ trace. ArePageRows trace.page trace.host) }
{
    read_records(alloc, bytes)
}
