//! What a poll publishes.
ghost use Rattle.std.specs.Prelude.{◌≡◌, ℕ, ◌≤◌, length, is_some, IfSome};
ghost use Rattle.clock_gate.specs.ClockRow.{IsClock};
ghost use Rattle.clock_gate.specs.declared.limits.TheConstants.{MOST_HOST_ROWS};
ghost use Rattle.clock_gate.specs.declared.trace.PollRow.{PollRow};
ghost use Rattle.clock_gate.specs.declared.trace.Trace.{Trace};
ghost use Rattle.status_machine.specs.Poll.{BaseFits};
ghost use Rattle.status_machine.specs.Base.{base_number};
ghost use Rattle.lawful_report.specs.Course.{Course, Life};
ghost use Rattle.report_audit.specs.FoundLines.{KnowsPoll, Polled};

use clock_gate::{ClockRow, reading};
use segment_layout::Record;
use status_machine::{Base, Daemon, Heard, Poll};

fn base_number(base: &Option<Base>) -> u32
    ensures { result ≡ base_number base.now }
{
    match base {
        Some(base) => base.poll,
        None => 0,
    }
}

/// The record that a poll publishes and the number of the poll that gave its bound, where the poll was asked at this row of the
/// clock.
pub fn poll_at(
    clock: &[ClockRow],
    daemon: &mut Daemon,
    number: u32,
    asked: u32,
    marker: Option<u64>,
    heard: Heard,
) -> (Record, u32)
    requires first { 1 ≤ asked }
    requires last { asked ≤ length clock.now }
    requires rows { length clock.now ≤ MOST_HOST_ROWS }
    requires clock { IsClock clock.now }
    requires marker { is_some marker ≡ daemon.old.support }
    requires base { IfSome daemon.old.base BaseFits }
    requires drift { daemon.old.drift ≤ 1000000000 }
    ensures polled { (trace : Trace) (course : Course) (life : Life) (row : PollRow) (page : ℕ) → KnowsPoll trace course life row page clock.now number heard marker daemon.old → Polled trace course life row asked page result.0 result.1 daemon.new }
    ensures base { IfSome daemon.new.base BaseFits }
{
    let poll = Poll {
        number,
        reading: reading(clock, u64::from(asked)),
        marker,
        heard,
    };
    let rec = daemon.step(&poll);
    (rec, base_number(&daemon.base))
}
