//! Where rows stand among the host's rows.
ghost use Rattle.std.specs.Prelude.{◌≡◌, ℕ, ◌+◌, ◌<◌, ◌≤◌, List, IfOk, OnOk, length, slice_index_or};
ghost use Rattle.clock_gate.specs.Trace.{IsHostOf, clock_numbers};
ghost use Rattle.clock_gate.specs.declared.limits.TheConstants.{MOST_HOST_ROWS};
ghost use Rattle.clock_gate.specs.declared.trace.HostRow.{HostRow as Row};
ghost use Rattle.clock_gate.specs.declared.trace.HostRow.TheVariants.{Clock as IsClock};
ghost use Rattle.promise_judge.specs.Positions.{host_row, is_clock as is_clock_row, is_disrupt as is_disruption, is_disrupt_at as is_disrupted_at, position_of as position_by};
ghost use Rattle.promise_judge.specs.Shown.{ArePositions};
ghost use Rattle.promise_judge.specs.Telling.{clock_at};

use clock_gate::HostRow;
use std::alloc::{AllocError, Global};

// The row at a host position; where there is none, a clock row of no number.
pub(crate) fn row_at(host: &[HostRow], position: u64) -> HostRow
    ensures { result ≡ host_row host.now position }
{
    match host.get(position.saturating_sub(1) as usize) {
        Some(row) => *row,
        None => HostRow::Clock(0),
    }
}

fn is_disrupt(row: HostRow) -> bool
    ensures { result ≡ is_disruption row }
{
    match row {
        HostRow::Disrupt => true,
        HostRow::Clock(_) => false,
        HostRow::Page(_) => false,
    }
}

pub(crate) fn is_disrupt_at(host: &[HostRow], position: u64) -> bool
    ensures { result ≡ is_disrupted_at host.now position }
{
    is_disrupt(row_at(host, position))
}

fn is_clock(row: HostRow, number: u64) -> bool
    ensures { result ≡ is_clock_row number row }
{
    match row {
        HostRow::Clock(other) => u64::from(other) == number,
        HostRow::Page(_) => false,
        HostRow::Disrupt => false,
    }
}

// The host position of the clock row with this number, past the end where there is none; by walking.
#[tactic(auto, using(crate::proofs::Walking::position_here, crate::proofs::Walking::position_next, crate::proofs::Walking::position_begin, crate::proofs::Walking::position_end))]
pub(crate) fn position_of(host: &[HostRow], number: u64) -> u64
    ensures value { result ≡ position_by host.now number }
    ensures most { result ≤ length host.now + 1 }
{
    let mut done = 0usize;
    'rows: while done < host.len() {
        if is_clock(host[done], number) {
            return done as u64 + 1;
        }
        done += 1;
    }
    done as u64 + 1
}

// The positions of the clock rows, with one host row more.
fn push_position(positions: &mut Vec<u32>, row: &HostRow, at: u32) -> Result<(), AllocError>
    ensures { (host : List Row) (count done : ℕ) → IsHostOf count host → done < length host → row.now ≡ slice_index_or host done (IsClock 0) → at ≡ done + 1
        → ArePositions host (clock_at host done) positions.old.items → OnOk result (ArePositions host (clock_at host (done + 1)) positions.new.items) }
{
    match row {
        HostRow::Clock(_) => {
            positions.push(at)?;
            Ok(())
        }
        HostRow::Page(_) => Ok(()),
        HostRow::Disrupt => Ok(()),
    }
}

// The host positions of the clock rows.
#[tactic(auto, using(crate::proofs::Placing::positions_end))]
pub(crate) fn position_table(alloc: Global, host: &[HostRow]) -> Result<Vec<u32>, AllocError>
    requires few { length host.now ≤ MOST_HOST_ROWS }
    requires lawful { IsHostOf (length (clock_numbers host.now)) host.now }
    ensures { IfOk result (λ table. ArePositions host.now (length (clock_numbers host.now)) table.items) }
{
    let mut positions = vec![in alloc; 0u32]?;
    let mut at = 0u32;
    'rows: for row in host {
        at += 1;
        push_position(&mut positions, row, at)?;
    }
    Ok(positions)
}
