//! Tables of the pages, filled row by row.
ghost use Rattle.std.specs.Prelude.{◌≡◌, ◌≤◌, ◌<◌, ◌+◌, ◌^◌, ◌++◌, ◌∷◌, [], ℕ, List, Option, length, IfOk, OnOk, if◌then◌else◌, min, ◌&&◌, slice_index_or};
ghost use Rattle.clock_gate.specs.declared.limits.TheConstants.{MOST_HOST_ROWS};
ghost use Rattle.clock_gate.specs.declared.trace.HostRow.{HostRow as Row};
ghost use Rattle.clock_gate.specs.declared.trace.HostRow.TheVariants.{Clock as IsClock};
ghost use Rattle.promise_judge.specs.Markers.{brings_back, changes, marker_after};
ghost use Rattle.promise_judge.specs.Paging.{ArePageTables, AreSeen};

use crate::markers::marker_in;
use clock_gate::HostRow;
use std::alloc::{AllocError, Global};
use std::collections::BTreeSet;

// The markers of the pages so far: the last one, and all of them.
#[derive(Drop)]
pub(crate) struct MarkersSeen {
    last: Option<u64>,
    all: BTreeSet<u64>,
}

impl MarkersSeen {
    fn new(alloc: Global, start: Option<u64>) -> Result<MarkersSeen, AllocError>
        ensures { IfOk result (λ markers. AreSeen start [] markers) }
    {
        let mut all = BTreeSet::new(alloc);
        if let Some(marker) = start {
            all.insert(marker)?;
        }
        Ok(MarkersSeen { last: start, all })
    }

    // One row more: whether its marker differs from the last one, and whether it stood before.
    fn take(&mut self, row: &HostRow) -> Result<(bool, bool), AllocError>
        ensures told { (start : Option ℕ) (rows : List Row) → AreSeen start rows self.old →
            IfOk result (λ found. (found.0 ≡ changes (marker_after start rows) row.now) × (found.1 ≡ brings_back start rows row.now)) }
        ensures seen { (start : Option ℕ) (rows : List Row) → AreSeen start rows self.old →
            OnOk result (AreSeen start (rows ++ row.now ∷ []) self.new) }
    {
        match row {
            HostRow::Page(words) => {
                let marker = marker_in(*words);
                let changes = self.last != Some(marker);
                let stood = self.all.contains(&marker);
                self.all.insert(marker)?;
                self.last = Some(marker);
                Ok((changes, stood))
            }
            HostRow::Clock(_) => Ok((false, false)),
            HostRow::Disrupt => Ok((false, false)),
        }
    }
}

// The last row that changed the marker, to each position; and the first that brought back an earlier one.
#[derive(Drop)]
pub(crate) struct PageTables {
    markers: MarkersSeen,
    pub(crate) changed: Vec<u32>,
    latest: u32,
    pub(crate) repeat: u32,
    done: u32,
}

impl PageTables {
    fn push_row(&mut self, row: &HostRow) -> Result<(), AllocError>
        requires { self.old.done < 2 ^ 31 }
        ensures { (start : Option ℕ) (host : List Row) (done : ℕ) → ArePageTables start host done self.old → done < length host →
            row.now ≡ slice_index_or host done (IsClock 0) → OnOk result (ArePageTables start host (done + 1) self.new) }
    {
        let found = self.markers.take(row)?;
        self.latest = latest_change(found.0, self.done + 1, self.latest);
        self.repeat = first_repeat(found.0, found.1, self.done + 1, self.repeat);
        self.changed.push(self.latest)?;
        self.done += 1;
        Ok(())
    }

    // The tables of all rows.
    pub(crate) fn of(
        alloc: Global,
        start: Option<u64>,
        host: &[HostRow],
    ) -> Result<PageTables, AllocError>
        requires { length host.now ≤ MOST_HOST_ROWS }
        ensures { IfOk result (λ tables. ArePageTables start host.now (length host.now) tables) }
    {
        let mut tables = PageTables {
            markers: MarkersSeen::new(alloc, start)?,
            changed: vec![in alloc; 0u32]?,
            latest: 0,
            repeat: host.len() as u32 + 1,
            done: 0,
        };
        'rows: for row in host {
            tables.push_row(row)?;
        }
        Ok(tables)
    }
}

fn latest_change(changes: bool, at: u32, latest: u32) -> u32
    ensures { result ≡ if changes then at else latest }
{
    if changes { at } else { latest }
}

fn first_repeat(changes: bool, stood: bool, at: u32, repeat: u32) -> u32
    ensures { result ≡ if changes && stood then min at repeat else repeat }
{
    if changes && stood && at < repeat {
        at
    } else {
        repeat
    }
}
