//! Calls, alone and beside a daemon that publishes.
ghost use Rattle.std.specs.Prelude.{◌≡◌, false, is_some};

use crate::words::{clock, seated};
use interval_now::{Answer, Timed};
use segment_rule::{ClientSeat, DaemonSeat, HostTable};
use status_machine::{Daemon, hear};
use std::alloc::Global;
use std::thread::{self, Threads};
use std::time::{Clock, Instant};
use writer_reopen::Polled;

// The tries of each read.
const TRIES: u16 = 10;

// A reply that is good: its leap is 0, its bound 244,142 ns.
const REPLY: [u8; 104] = [
    6, 2, 0, 0, 0, 0x21, 0, 5, 0, 0, 0, 0, 0, 0, 0, 0, 0, 0, 0, 1, 0, 0, 0, 0, 0, 0, 0, 0, 0xa9,
    0xfe, 0xa9, 0x7b, 0xa9, 0xfe, 0xa9, 0x7b, 0, 0, 0, 0, 0, 0, 0, 0, 0, 0, 0, 0, 0, 1, 0, 0, 0, 4,
    0, 0, 0, 0, 0, 0, 0x65, 0, 0, 0, 0, 0, 0, 0, 0xf7, 0xff, 0xff, 0xff, 0, 0, 0, 0, 0, 0, 0, 0, 0,
    0, 0, 0, 0, 0, 0, 0, 0, 0, 0, 0, 0xec, 0x80, 0, 0, 0xea, 0x80, 0, 0, 0, 0, 0, 0,
];

/// So many calls: how many answered a time, a sum of all that these told, so that each is made whole, how many nanoseconds they took, 0
/// without a clock, and how often the daemon published meanwhile.
#[derive(Clone, Copy, Debug, PartialEq, Eq)]
pub struct Made {
    pub times: u32,
    pub sum: u64,
    pub nanos: u128,
    pub published: u32,
}

// The fields of an answer in one number.
fn summed(timed: &Timed) -> u64 {
    let read = u64::from(timed.generation) ^ u64::from(timed.row) ^ u64::from(timed.sequence);
    let earliest = u64::try_from(timed.interval.earliest).unwrap_or(0);
    let latest = u64::try_from(timed.interval.latest).unwrap_or(0);
    read ^ earliest ^ latest ^ (timed.interval.status.code() as u64)
}

// Makes so many calls: how many answered a time, and the sum of these.
fn called(client: &mut ClientSeat, table: &HostTable, count: u32) -> (u32, u64)
    requires table { client.old.table ≡ table.now.id }
    requires rows { client.old.view.setup.rows ≡ 2 }
    requires hand { client.old.in_hand ≡ false }
{
    let clock = clock();
    let mut times: u32 = 0;
    let mut sum: u64 = 0;
    'calling: for _ in 0..count {
        if let Answer::Time(timed) = client.now(table, &clock, TRIES) {
            times = times.saturating_add(1);
            sum = sum.rotate_left(1) ^ summed(&timed);
        }
    }
    (times, sum)
}

fn measured<R: Clock>(rt: &R, mut client: ClientSeat, table: &HostTable, count: u32) -> Made
    requires table { client.table ≡ table.now.id }
    requires rows { client.view.setup.rows ≡ 2 }
    requires hand { client.in_hand ≡ false }
{
    let begun = Instant::now(rt);
    let (times, sum) = called(&mut client, table, count);
    let nanos = match begun {
        Ok(begun) => match begun.elapsed(rt) {
            Ok(spent) => spent.as_nanos(),
            Err(_) => 0,
        },
        Err(_) => 0,
    };
    Made {
        times,
        sum,
        nanos,
        published: 0,
    }
}

// Opens, and publishes so often: how often it did.
fn published(mut daemon: DaemonSeat, table: &HostTable, support: bool, count: u32) -> u32
    requires table { daemon.table ≡ table.now.id }
    requires setup { (daemon.view.setup.rows ≡ 2) × (is_some daemon.view.setup.page ≡ support) }
{
    let clock = clock();
    let opening = daemon.reopen(table);
    let mut state = Daemon::resume(&opening.start, 50_000, support, 0);
    'polling: for made in 0..count {
        match daemon.poll(table, state, made + 1, hear(&REPLY), &clock, TRIES) {
            Polled::Published { daemon: next, .. } => state = next,
            Polled::Skipped { .. } | Polled::Stopped { .. } => return made,
        }
    }
    count
}

/// So many calls on words that nobody writes. `None` where memory is wanting.
pub fn alone<R: Clock>(rt: &R, alloc: Global, support: bool, count: u32) -> Option<Made> {
    let (table, _daemon, client) = seated(alloc, support)?;
    Some(measured(rt, client, &table, count))
}

/// The same beside a daemon that publishes as often in another thread.
pub fn beside<R: Clock + Threads + Sync>(
    rt: &R,
    alloc: Global,
    support: bool,
    count: u32,
) -> Option<Made> {
    let (table, daemon, client) = seated(alloc, support)?;
    let shared = &table;
    let (made, published) = thread::join(
        rt,
        move || -> Made
            requires { (client.table ≡ shared.now.id) × (client.view.setup.rows ≡ 2) × (client.in_hand ≡ false) }
        { measured(rt, client, shared, count) },
        move || -> u32
            requires { (daemon.table ≡ shared.now.id) × (daemon.view.setup.rows ≡ 2) × (is_some daemon.view.setup.page ≡ support) }
        { published(daemon, shared, support, count) },
    );
    Some(Made { published, ..made })
}
