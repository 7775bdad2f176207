//! The offset of a clock from true time.
ghost use Rattle.std.specs.Prelude.{◌≡◌, ◌≤◌, ◌<◌, ◌^◌, ◌-◌, ◌≤ℤ◌, neg_ℤ, pos};
ghost use Rattle.clock_gate.specs.ClockRow.{row_at};
ghost use Rattle.promise_judge.specs.Offsets.{breaks_drift as is_drift_broken, breaks_drift_at, is_untold as is_untold_at, offset as offset_of, offset_change, offset_size as size_of_offset, or_zero as is_or_zero};

use clock_gate::ClockRow;

// The clock row with this number; where there is none, a row of zeros without truth.
pub(crate) fn row(clock: &[ClockRow], number: u64) -> ClockRow
    ensures { result ≡ row_at clock.now number }
{
    match clock.get(number.saturating_sub(1) as usize) {
        Some(row) => *row,
        None => ClockRow {
            mono: 0,
            real: 0,
            truth: None,
        },
    }
}

fn or_zero(truth: Option<u64>) -> u64
    ensures { result ≡ is_or_zero truth }
{
    match truth {
        None => 0,
        Some(moment) => moment,
    }
}

fn offset(row: ClockRow) -> i128
    ensures value { result ≡ offset_of row }
    ensures low { neg_ℤ (pos (2 ^ 64)) ≤ℤ result }
    ensures high { result ≤ℤ pos (2 ^ 64) }
{
    i128::from(row.real) - i128::from(or_zero(row.truth))
}

// The absolute value of the offset, in nanoseconds.
pub(crate) fn offset_size(row: ClockRow) -> u128
    ensures { result ≡ size_of_offset row }
{
    offset(row).unsigned_abs()
}

fn change(before: ClockRow, after: ClockRow) -> u128
    ensures value { result ≡ offset_change before after }
    ensures most { result ≤ 2 ^ 65 }
{
    (offset(after) - offset(before)).unsigned_abs()
}

fn passed(before: ClockRow, after: ClockRow) -> u64
    ensures { result ≡ after.mono - before.mono }
{
    after.mono.saturating_sub(before.mono)
}

// Whether the offset changes by more than the drift of the monotonic time that goes by.
pub(crate) fn breaks_drift(drift: u32, before: ClockRow, after: ClockRow) -> bool
    ensures { result ≡ is_drift_broken drift before after }
{
    u128::from(drift) * u128::from(passed(before, after)) < change(before, after) * 1_000_000_000
}

// The same, from the row before this one to this one.
pub(crate) fn breaks_at(drift: u32, clock: &[ClockRow], number: u64) -> bool
    ensures { result ≡ breaks_drift_at drift clock.now number }
{
    breaks_drift(
        drift,
        row(clock, number.saturating_sub(1)),
        row(clock, number),
    )
}

// Whether the clock row with this number tells no truth.
pub(crate) fn is_untold(clock: &[ClockRow], number: u64) -> bool
    ensures { result ≡ is_untold_at clock.now number }
{
    row(clock, number).truth.is_none()
}
