//! The audit of a report.
ghost use Rattle.std.specs.Prelude.{◌≡◌, ◌↔◌, ℕ, IfOk, IsTrue};
ghost use Rattle.clock_gate.specs.Trace.{IsLawfulTrace};
ghost use Rattle.lawful_report.specs.Lawful.{IsLawfulReport, IsFirstUnlawful, standing_start};
ghost use Rattle.report_audit.specs.Auditor.{KnowsTrace, StartIsSmall};
ghost use Rattle.report_audit.specs.NextLine.{ShowsStanding};
ghost use Rattle.report_audit.specs.Verdicts.{IsVerdict};
ghost use Rattle.report_audit.specs.declared.verdict.Verdict.TheVariants.{Lawful, Unlawful};

use crate::auditor::{Auditor, auditor_of};
use crate::beginning::known_of;
use crate::known::Known;
use crate::verdict::Verdict;
use clock_gate::{Memory, Trace};
use std::alloc::Global;

// Takes line after line.
fn judge(trace: &Trace, known: &Known, begun: Auditor, report: &[u8]) -> Result<Verdict, Memory>
    requires lawful { IsLawfulTrace trace.now }
    requires knows { KnowsTrace trace.now known.now }
    requires small { StartIsSmall trace.now }
    requires shows { ShowsStanding known.now (standing_start trace.now) begun }
    ensures { IfOk result (IsVerdict trace.now report.now) }
{
    let mut auditor = begun;
    let mut rest = report;
    let mut number: u32 = 1;
    'lines: loop {
        if auditor.is_finished() {
            if rest.is_empty() {
                return Ok(Verdict::Lawful);
            }
            return Ok(Verdict::Unlawful(number));
        }
        let Some(later) = auditor.next(trace, known, rest)? else {
            return Ok(Verdict::Unlawful(number));
        };
        rest = later;
        number += 1;
    }
}

/// Judges a report of threads against its trace.
///
/// `Lawful` exactly where the report is lawful, and `Unlawful(n)` exactly where line n is its first unlawful one. Any bytes are a
/// report: a line must be equal byte for byte to one that may stand there, and a report that ends too early or goes on after its
/// counts is unlawful at the line after. The trace is lawful. The error is want of memory alone.
pub fn audit(alloc: Global, trace: &Trace, report: &[u8]) -> Result<Verdict, Memory>
    requires lawful { IsLawfulTrace trace.now }
    ensures lawful { IfOk result (λ verdict. (verdict ≡ Lawful) ↔ IsLawfulReport trace.now report.now) }
    ensures unlawful { IfOk result (λ verdict. (number : ℕ) → (verdict ≡ Unlawful number) ↔ IsFirstUnlawful trace.now report.now number) }
{
    let known = known_of(alloc, trace)?;
    let begun = auditor_of(alloc, trace)?;
    judge(trace, &known, begun, report)
}
