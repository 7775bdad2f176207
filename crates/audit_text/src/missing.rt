//! Why a text without a line `report` is refused.
ghost use Rattle.std.specs.Prelude.{◌≡◌, ◌≤◌, ◌<◌, ◌-◌, ◌^◌, length, IfOk};
ghost use Rattle.csv_records.specs.Records.{records_of};
ghost use Rattle.csv_records.specs.TraceError.{Refuses};
ghost use Rattle.audit_text.specs.Audited.{no_report, unreported};

use csv_records::{Records, roomy_row};
use std::alloc::{AllocError, Global};
use trace_reader::{Reason, TraceError, TraceFault, read_trace};

// How many records a text has.
fn count_records(alloc: Global, bytes: &[u8]) -> Result<usize, AllocError>
    ensures count { IfOk result (λ count. count ≡ length (records_of bytes.now)) }
    ensures most { IfOk result (λ count. count ≤ length bytes.now) }
{
    let mut records = Records::new(alloc, bytes);
    let mut row = roomy_row(alloc)?;
    let mut count = 0;
    'counting: while records.read(&mut row)? {
        count += 1;
    }
    Ok(count)
}

// The line after the last record of a text that is a trace, where a line `report` is missing.
fn after_the_last(alloc: Global, bytes: &[u8]) -> TraceError
    requires { length (records_of bytes.now) < 2 ^ 32 - 1 }
    ensures { Refuses result (no_report bytes.now) }
{
    match count_records(alloc, bytes) {
        Ok(count) => TraceError::Refused(TraceFault {
            line: count as u32 + 1,
            reason: Reason::Kind,
        }),
        Err(_) => TraceError::Memory,
    }
}

/// The fault of a text without a line `report`: that of its trace, or that the line is missing after the last record.
#[tactic(auto, using(crate::proofs::FewRecords::few_records))]
pub fn refusal(alloc: Global, bytes: &[u8]) -> TraceError
    ensures { Refuses result (unreported bytes.now) }
{
    match read_trace(alloc, bytes) {
        Ok(_) => after_the_last(alloc, bytes),
        Err(error) => error,
    }
}
