ghost use Rattle.std.specs.Prelude.{◌≡◌, [], IfErr, IfOk};
ghost use Rattle.csv_records.specs.declared.trace_error.TraceError.TheVariants.{Memory};
ghost use Rattle.csv_records.specs.TraceError.{Gives};
ghost use Rattle.csv_records.specs.Records.{records_of};
ghost use Rattle.agree_text.specs.Session.{session_of};
ghost use Rattle.agree_text.specs.Agreement.{agreement_text, session_in, HasFault, IsOutput};

use crate::session::Session;
use clock_gate::List;
use csv_records::{Reason, Records, TraceError, TraceFault, roomy_row};
use std::alloc::Global;

fn begun(alloc: Global) -> Result<Session, TraceError>
    ensures value { IfOk result (λ session. session ≡ session_of []) }
    ensures err { IfErr result (λ e. e ≡ Memory) }
{
    match Session::new(alloc) {
        Ok(session) => Ok(session),
        Err(_) => Err(TraceError::Memory),
    }
}

fn session(alloc: Global, bytes: &[u8]) -> Result<Session, TraceError>
    ensures { Gives (λ session. session) result (session_in bytes.now) }
{
    let mut ahead = Records::new(alloc, bytes);
    let mut row = roomy_row(alloc)?;
    let mut session = begun(alloc)?;
    'reading: while ahead.read(&mut row)? {
        session.take(alloc, &row)?;
    }
    if session.is_empty() {
        return Err(TraceError::Refused(TraceFault {
            line: 1,
            reason: Reason::Kind,
        }));
    }
    Ok(session)
}

/// The output of the command `agree` for a text.
///
/// A text is `agree-trace,1` and then lines `set,SERVER,E,L`, which gives a server the span from E to L, `drop,SERVER`,
/// which removes its span, and `ask,F` or `ask,F,TRUTH`. A server is a number from 1 to 1,000, F one from 0 to 1,000. E, L and
/// TRUTH are whole numbers within 2^62 either way, of 1 to 20 digits with or without a minus. Records are those of `Records`.
///
/// The output is `agree-report,1`, and for each question `agree,N` with the number of spans, followed by the two ends
/// of each run of points that all but F of them hold. Where there is a truth, `misses,M` follows with the number of spans
/// that don't hold it.
///
/// `Refused` is the first record for which there is a reason, and the first of these reasons: Kind, no such first field;
/// Fields, another number of fields; Number, a field is no number in its range, or E exceeds L; Order, the header isn't
/// first, or comes again; Limit, one more than 300,000 records after the header or than 1,000 questions. A text without
/// records is of Kind at line 1.
#[tactic(auto, using(crate::proofs::Laws::output_of, crate::proofs::Laws::fault_in), unfolding(crate::specs::Agreement::agreement_text))]
pub fn agree(alloc: Global, bytes: &[u8]) -> Result<List<u8>, TraceError>
    ensures value { Gives (λ text. text) result (agreement_text bytes.now) }
    // What Ok and an error say of the records.
    ensures output { IfOk result (IsOutput (records_of bytes.now)) }
    ensures refused { IfErr result (HasFault (records_of bytes.now)) }
{
    let session = session(alloc, bytes)?;
    Ok(List::from_vec(session.into_text().into_bytes()))
}
