//! The host's worker: all rows after the first, in their order.
ghost use Rattle.std.specs.Prelude.{◌≡◌, ◌≤◌};
ghost use Rattle.clock_gate.specs.declared.limits.TheConstants.{MOST_HOST_ROWS};
ghost use Rattle.vmclock_page.specs.Rows.{IsRowOf};
ghost use Rattle.segment_rule.specs.Hosts.{MayDoRow, part_after};
ghost use Rattle.live_run.specs.Host.{HostBegins, HostEnds};

use clock_gate::{Gate, HostRow};
use segment_rule::{HostSeat, HostTable};

const HOST: u32 = 0;

// One row.
fn do_row(table: &HostTable, host: &mut HostSeat, row: &HostRow)
    requires table { host.old.table ≡ table.now.id }
    requires row { IsRowOf host.old.view.setup.page row.now }
    requires may { MayDoRow row.now host.old.view }
    requires rows { host.old.view.setup.rows ≤ MOST_HOST_ROWS }
    ensures table { host.new.table ≡ host.old.table }
    ensures view { host.new.view ≡ record host.old.view { host_part = part_after row.now host.old.view.host_part } }
{
    match row {
        HostRow::Clock(_) => {
            host.advance(table);
        }
        HostRow::Page(words) => host.write_page(table, words),
        HostRow::Disrupt => {}
    }
}

/// Does all rows after the first.
pub(crate) fn host_all<G: Gate>(
    table: &HostTable,
    host: HostSeat,
    rows: &[HostRow],
    gate: &G,
) -> HostSeat
    requires table { host.table ≡ table.now.id }
    requires begins { HostBegins rows.now host.view }
    ensures table { result.table ≡ host.table }
    ensures ends { HostEnds rows.now host.view result.view }
{
    let mut host = host;
    'rows: for done in 1..rows.len() {
        gate.pass(HOST, 2 * done as u32);
        do_row(table, &mut host, &rows[done]);
        gate.pass(HOST, 2 * done as u32 + 1);
    }
    host
}
