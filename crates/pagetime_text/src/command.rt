//! The command.
ghost use Rattle.csv_records.specs.TraceError.{Gives};
ghost use Rattle.pagetime_text.specs.Text.{pagetime_text};

use crate::reading::told;
use clock_gate::List;
use csv_records::TraceError;
use std::alloc::Global;

/// What is written of a text of pages and readings of their counters: a line for each reading, with the interval that the
/// last page before it tells or why it tells none, and a last line that names the first reading whose true time breaks what
/// its page promises.
///
/// A text that says no such rows is refused by its first refused record and the first reason to refuse that. The reasons
/// are, in order, `Kind`, `Fields`, `Number` and `Hex` from the left, `Order`, `Page` and `Limit`; a text without records
/// is of no kind at line 1.
pub fn pagetime(alloc: Global, bytes: &[u8]) -> Result<List<u8>, TraceError>
    ensures { Gives (λ text. text) result (pagetime_text bytes.now) }
{
    let text = told(alloc, bytes)?;
    Ok(List::from_vec(text))
}
