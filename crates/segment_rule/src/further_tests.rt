// Seats of two clients on one table, and seats that are settled between calls.
ghost use Rattle.std.specs.Prelude.{◌≡◌, true, false};
ghost use Rattle.segment_views.specs.Views.{Begins};

use super::*;
use crate::client_tests::{
    a_second_later, at_once, begun, busy, finished, next_number, now, seated,
};
use crate::tests::{clock, image};
use generation_word::Layout;
use interval_now::Answer;
use std::alloc::Global;

// The seat of the further client, which has seen what the first one has.
fn further(client: &mut ClientSeat, table: &HostTable) -> ClientSeat
    requires table { client.old.table ≡ table.now.id }
    requires first { (client.old.is_first ≡ true) × (client.old.splits ≡ 0) × (client.old.view.setup.clients ≡ 2) }
    requires hand { client.old.in_hand ≡ false }
    ensures table { (client.new.table ≡ client.old.table) × (result.table ≡ client.old.table) }
    ensures setup { (client.new.view.setup ≡ client.old.view.setup) × (result.view.setup ≡ client.old.view.setup) }
    ensures hand { (client.new.in_hand ≡ false) × (result.in_hand ≡ false) }
    ensures seen { result.view.seen ≡ client.old.view.seen }
{
    client.split(table)
}

// A further client makes whole calls while a call of one try is in hand at the first seat, and a publication falls between: what the
// further one answers before and after, whether calls are in hand then, and what becomes of the call.
fn split_apart(
    alloc: Global,
    layout: Layout,
) -> Option<(Answer, (bool, bool), Answer, (u32, Answer))> {
    let (table, mut host, mut daemon, mut client) = seated(alloc, &image(0), layout)?;
    let opening = daemon.reopen(&table);
    let _number = next_number(&mut daemon, &table, &opening.start)?;
    let mut second = further(&mut client, &table);
    let clock = clock();
    let (made, answer) = begun(&mut client, &table, &clock, 1, 5);
    let before = now(&mut second, &table, 1);
    let hands = (client.in_hand(), second.in_hand());
    host.advance(&table);
    let _number = next_number(&mut daemon, &table, &opening.start)?;
    let after = now(&mut second, &table, 1);
    let call = finished(&mut client, &table, &clock, made, answer)?;
    Some((before, hands, after, call))
}

#[test]
fn a_further_client_answers_by_itself(rt: HostRuntime) {
    for layout in [Layout::Two, Layout::Three] {
        assert_eq!(rt;
            split_apart(rt.alloc(), layout),
            Some((
                at_once(2, 1),
                (true, false),
                at_once(4, 2),
                (10, busy(1, 2, 4))
            )),
            "{layout:?}"
        );
    }
}

// Settles this client's seat.
fn settle(table: &HostTable, host: &mut HostSeat, daemon: &mut DaemonSeat, client: &mut ClientSeat)
    requires tables { (host.old.table ≡ table.now.id) × (daemon.old.table ≡ table.now.id) × (client.old.table ≡ table.now.id) }
    requires hand { client.old.in_hand ≡ false }
    ensures tables { (host.new.table ≡ host.old.table) × (daemon.new.table ≡ daemon.old.table) }
    ensures daemon { (daemon.new.is_open ≡ daemon.old.is_open) × (daemon.new.view.setup ≡ daemon.old.view.setup) }
    ensures client { client.new ≡ client.old }
    ensures history { Begins client.new.view.seen.history daemon.new.view.daemon_part.segment.history }
{
    table.settle(host, daemon, client);
}

// Two clients are settled between their calls, and a publication falls between: two answers before it, and two after it.
fn settled(alloc: Global, layout: Layout) -> Option<[Answer; 4]> {
    let (table, mut host, mut daemon, mut client) = seated(alloc, &image(0), layout)?;
    let opening = daemon.reopen(&table);
    let _number = next_number(&mut daemon, &table, &opening.start)?;
    host.advance(&table);
    let mut second = further(&mut client, &table);
    let first = now(&mut client, &table, 1);
    settle(&table, &mut host, &mut daemon, &mut client);
    settle(&table, &mut host, &mut daemon, &mut second);
    let again = now(&mut client, &table, 1);
    let _number = next_number(&mut daemon, &table, &opening.start)?;
    let next = now(&mut second, &table, 1);
    settle(&table, &mut host, &mut daemon, &mut second);
    let last = now(&mut client, &table, 1);
    Some([first, again, next, last])
}

#[test]
fn settling_changes_no_answer(rt: HostRuntime) {
    for layout in [Layout::Two, Layout::Three] {
        assert_eq!(rt;
            settled(rt.alloc(), layout),
            Some([
                a_second_later(2),
                a_second_later(2),
                at_once(4, 2),
                at_once(4, 2)
            ]),
            "{layout:?}"
        );
    }
}
