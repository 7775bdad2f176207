//! The schedule of a day.
ghost use Rattle.std.specs.Prelude.{◌≡◌, ◌≤◌, ◌*◌, IfOk};
ghost use Rattle.drill_day.specs.Day.{lines_of, schedule_of};

use crate::draws::{after_rounds, after_two, draw_of, second_draw_of};
use crate::seconds::turn_of;
use clock_gate::Turn;
use std::alloc::{AllocError, Global};

/// The number of a schedule's lines.
pub fn lines_of(seed: u64, polls: u32) -> u32
    requires { polls ≤ 20000 }
    ensures exact { result ≡ lines_of seed polls }
    ensures few { result ≤ 40 * polls }
{
    if seed == 0 { 0 } else { 40 * polls }
}

/// The lines of the schedule.
pub fn schedule_of(alloc: Global, seed: u64, polls: u32) -> Result<Vec<Turn>, AllocError>
    requires { polls ≤ 20000 }
    ensures { IfOk result (λ turns. turns.items ≡ schedule_of seed polls) }
{
    let count = lines_of(seed, polls);
    let mut turns = Vec::with_capacity(alloc, count as usize)?;
    let mut x = after_rounds(seed, polls);
    'lines: for _line in 0..count {
        turns.push(turn_of(draw_of(x), second_draw_of(x)))?;
        x = after_two(x);
    }
    Ok(turns)
}
