//! Tables of the rows of a trace.
ghost use Rattle.std.specs.Prelude.{IfOk};
ghost use Rattle.clock_gate.specs.Trace.{IsLawfulTrace};
ghost use Rattle.promise_judge.specs.Shown.{ShowsRows};

use crate::markers::start_marker;
use crate::nexts::{disrupt_table, drifting_table, untold_table};
use crate::paging::PageTables;
use crate::positions::position_table;
use clock_gate::{Memory, Trace};
use std::alloc::{AllocError, Global};

/// What is found once of all rows of a trace, so that each claim is judged in constant time.
#[derive(Debug, Drop)]
pub struct Tables {
    pub(crate) untold: Vec<u32>,
    pub(crate) drifting: Vec<u32>,
    pub(crate) positions: Vec<u32>,
    pub(crate) disrupt: Vec<u32>,
    pub(crate) changed: Vec<u32>,
    pub(crate) repeat: u32,
}

impl Tables {
    /// Makes the tables of a lawful trace, in time linear in its rows but for the page rows, whose markers are kept in order.
    /// `Memory` is the one refusal.
    pub fn new(alloc: Global, trace: &Trace) -> Result<Tables, Memory>
        requires lawful { IsLawfulTrace trace.now }
        ensures shows { IfOk result (λ tables. ShowsRows trace.now tables) }
    {
        let tables = tables_of(alloc, trace)?;
        Ok(tables)
    }
}

#[tactic(auto, using(crate::proofs::Whole::host_counts, crate::proofs::Whole::counted_positions, crate::proofs::Whole::clock_rows_few, crate::proofs::Whole::first_repeat))]
fn tables_of(alloc: Global, trace: &Trace) -> Result<Tables, AllocError>
    requires lawful { IsLawfulTrace trace.now }
    ensures { IfOk result (λ tables. ShowsRows trace.now tables) }
{
    let untold = untold_table(alloc, trace.clock.as_slice())?;
    let positions = position_table(alloc, trace.host.as_slice())?;
    let disrupt = disrupt_table(alloc, trace.host.as_slice())?;
    let drifting = drifting_table(alloc, trace, &positions, &disrupt)?;
    let pages = PageTables::of(alloc, start_marker(trace), trace.host.as_slice())?;
    Ok(Tables {
        untold,
        drifting,
        positions,
        disrupt,
        changed: pages.changed,
        repeat: pages.repeat,
    })
}
