//! Tables of next numbers, filled from the back.
ghost use Rattle.std.specs.Prelude.{◌≡◌, ℕ, ◌+◌, ◌<◌, ◌≤◌, ◌^◌, Bool, IfOk, length, if◌then◌else◌};
ghost use Rattle.clock_gate.specs.Trace.{IsHostOf};
ghost use Rattle.clock_gate.specs.declared.limits.TheConstants.{MOST_HOST_ROWS};
ghost use Rattle.promise_judge.specs.Disruptions.{is_drifting};
ghost use Rattle.promise_judge.specs.Offsets.{is_untold as is_untold_at};
ghost use Rattle.promise_judge.specs.Positions.{is_disrupt_at as is_disrupted_at};
ghost use Rattle.promise_judge.specs.Searching.{AreNext};
ghost use Rattle.promise_judge.specs.Shown.{ArePositions};

use crate::drift::drifts;
use crate::offsets::is_untold;
use crate::positions::is_disrupt_at;
use clock_gate::{ClockRow, HostRow, Trace};
use std::alloc::{AllocError, Global};

// A table in which no number passes below this limit, whatever the test: it holds of the limit alone.
#[tactic(auto, using(crate::proofs::Filling::next_at_limit))]
fn limits(alloc: Global, limit: u32) -> Result<Vec<u32>, AllocError>
    requires { limit < 2 ^ 31 }
    ensures { IfOk result (λ table. (test : ℕ → Bool) → AreNext test limit limit table.items) }
{
    let table = vec![in alloc; limit; limit as usize + 1]?;
    Ok(table)
}

fn next_of(passes: bool, n: u32, later: u32) -> u32
    ensures { result ≡ if passes then n else later }
{
    if passes { n } else { later }
}

// The table holds of one number more.
fn put_next(table: &mut Vec<u32>, n: u32, passes: bool)
    requires { n + 1 < length table.old.items }
    ensures { (test : ℕ → Bool) (from limit : ℕ) → from ≡ n + 1 → AreNext test from limit table.old.items → passes ≡ test n → AreNext test n limit table.new.items }
{
    let later = table[n as usize + 1];
    table[n as usize] = next_of(passes, n, later);
}

// To each clock row the next one that tells no truth.
#[tactic(auto, using(crate::proofs::Filling::next_from))]
pub(crate) fn untold_table(alloc: Global, clock: &[ClockRow]) -> Result<Vec<u32>, AllocError>
    requires { length clock.now ≤ MOST_HOST_ROWS }
    ensures { IfOk result (λ table. AreNext (is_untold_at clock.now) 1 (length clock.now + 1) table.items) }
{
    let limit = clock.len() as u32 + 1;
    let mut table = limits(alloc, limit)?;
    let mut n = limit;
    'rows: while 1 < n {
        n -= 1;
        put_next(&mut table, n, is_untold(clock, u64::from(n)));
    }
    Ok(table)
}

// To each host position the next disruption.
#[tactic(auto, using(crate::proofs::Filling::next_from))]
pub(crate) fn disrupt_table(alloc: Global, host: &[HostRow]) -> Result<Vec<u32>, AllocError>
    requires { length host.now ≤ MOST_HOST_ROWS }
    ensures { IfOk result (λ table. AreNext (is_disrupted_at host.now) 1 (length host.now + 1) table.items) }
{
    let limit = host.len() as u32 + 1;
    let mut table = limits(alloc, limit)?;
    let mut n = limit;
    'rows: while 1 < n {
        n -= 1;
        put_next(&mut table, n, is_disrupt_at(host, u64::from(n)));
    }
    Ok(table)
}

// To each clock row from the second on the next one that drifts from the row before it, with no disruption between.
#[tactic(auto, using(crate::proofs::Filling::next_from, crate::proofs::Places::rows_within))]
pub(crate) fn drifting_table(
    alloc: Global,
    trace: &Trace,
    positions: &Vec<u32>,
    disrupt: &Vec<u32>,
) -> Result<Vec<u32>, AllocError>
    requires few { length trace.now.clock ≤ MOST_HOST_ROWS }
    requires host { IsHostOf (length trace.now.clock) trace.now.host }
    requires positions { ArePositions trace.now.host (length trace.now.clock) positions.now.items }
    requires disrupt { AreNext (is_disrupted_at trace.now.host) 1 (length trace.now.host + 1) disrupt.now.items }
    ensures { IfOk result (λ table. AreNext (is_drifting trace.now.drift trace.now.clock trace.now.host 0) 2 (length trace.now.clock + 1) table.items) }
{
    let limit = trace.clock.len() as u32 + 1;
    let mut table = limits(alloc, limit)?;
    let mut n = limit;
    'rows: while 2 < n {
        n -= 1;
        put_next(
            &mut table,
            n,
            drifts(trace, positions, disrupt, 0, u64::from(n)),
        );
    }
    Ok(table)
}
