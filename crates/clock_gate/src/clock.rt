ghost use Rattle.std.specs.Prelude.{◌≡◌, ◌≤◌, length};
ghost use Rattle.clock_gate.specs.ClockRow.{IsReadingOf, reading_at, IsClock};
ghost use Rattle.clock_gate.specs.declared.limits.TheConstants.{LAST_MOMENT, MOST_HOST_ROWS};

use crate::clock_row::{ClockRow, Reading};

/// The reading of a clock at one of its rows, counted from 1.
pub fn reading(clock: &[ClockRow], row: u64) -> Reading
    requires first { 1 ≤ row }
    requires last { row ≤ length clock.now }
    requires limited { length clock.now ≤ MOST_HOST_ROWS }
    ensures row { IsReadingOf clock.now row result }
    ensures exact { result ≡ reading_at clock.now row }
    ensures moments { IsClock clock.now → (result.mono ≤ LAST_MOMENT) × (result.real ≤ LAST_MOMENT) }
{
    let found = clock[row as usize - 1];
    Reading {
        row: row as u32,
        mono: found.mono,
        real: found.real,
    }
}
