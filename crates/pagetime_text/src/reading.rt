//! What is told of a text.
ghost use Rattle.std.specs.Prelude.{vec_items};
ghost use Rattle.csv_records.specs.TraceError.{Gives};
ghost use Rattle.pagetime_text.specs.Text.{pagetime_text};

use crate::held::Held;
use csv_records::{Records, TraceError, roomy_row};
use std::alloc::Global;

/// The report of the rows that a text says, or its first refused record with the first reason to refuse it. Each read is told as
/// it is read.
pub fn told(alloc: Global, bytes: &[u8]) -> Result<Vec<u8>, TraceError>
    ensures { Gives vec_items result (pagetime_text bytes.now) }
{
    let mut ahead = Records::new(alloc, bytes);
    let mut row = roomy_row(alloc)?;
    let mut held = Held::new(alloc)?;
    'reading: loop {
        if !ahead.read(&mut row)? {
            return held.finish();
        }
        held.take(alloc, &row)?;
    }
}
