//! A trace and a report of it in, the verdict out.
ghost use Rattle.audit_text.specs.Audited.{reported_after, reported_in, Judges};

use crate::line::verdict_line;
use crate::missing::refusal;
use crate::parts::cut;
use clock_gate::{List, Memory};
use report_audit::audit;
use std::alloc::Global;
use trace_reader::{TraceError, read_trace};

// The verdict on a report of the trace that a text is.
fn judged(alloc: Global, text: &[u8], report: &[u8]) -> Result<List<u8>, TraceError>
    ensures { Judges result (reported_after text.now report.now) }
{
    let trace = match read_trace(alloc, text) {
        Ok(trace) => trace,
        Err(error) => return Err(error),
    };
    let verdict = match audit(alloc, &trace, report) {
        Ok(verdict) => verdict,
        Err(Memory) => return Err(TraceError::Memory),
    };
    match verdict_line(alloc, verdict) {
        Ok(line) => Ok(line),
        Err(_) => Err(TraceError::Memory),
    }
}

/// The output of the command `audit` for a text.
///
/// A text is a trace, a line `report`, and a report of threads on that trace, of any bytes. It is cut at its first line that is exactly
/// `report`, a line being the bytes up to a line feed. The output is `lawful` where the report is lawful, and else `unlawful,LINE` with the
/// number of the report's first unlawful line, counted from 1; each with a line feed.
///
/// `Refused` is the first record of the trace that is refused, with its first reason, and, where the trace is read and no line `report`
/// follows, `Kind` at the line after its last record.
#[tactic(auto, unfolding(crate::specs::Audited::reported_in))]
pub fn audited(alloc: Global, bytes: &[u8]) -> Result<List<u8>, TraceError>
    ensures { Judges result (reported_in bytes.now) }
{
    match cut(bytes) {
        Some((text, report)) => judged(alloc, text, report),
        None => Err(refusal(alloc, bytes)),
    }
}
