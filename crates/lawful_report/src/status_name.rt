//! The names of the clock statuses.
ghost use Rattle.std.specs.Prelude.{◌≡◌, ◌≤◌, ◌+◌, ◌++◌, length};
ghost use Rattle.clock_gate.specs.ClockStatus.{name_of};

use backward_line::BackwardLine;
use clock_gate::ClockStatus;

/// A status's name before what a line has.
#[tactic(auto, unfolding(clock_gate::specs::ClockStatus::name_of))]
pub fn put_status(line: &mut BackwardLine, status: ClockStatus)
    requires { length line.old ≤ 300 }
    ensures text { line.new ≡ name_of status ++ line.old }
    ensures room { length line.new ≤ length line.old + 12 }
{
    match status {
        ClockStatus::Unknown => line.put_word(b"unknown".as_slice()),
        ClockStatus::Synchronized => line.put_word(b"synchronized".as_slice()),
        ClockStatus::FreeRunning => line.put_word(b"freerunning".as_slice()),
        ClockStatus::Disrupted => line.put_word(b"disrupted".as_slice()),
    }
}
