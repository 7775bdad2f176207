ghost use Rattle.std.specs.Prelude.{◌≡◌, ◌≤◌, true, false, Some, None, length, is_some, IfSome};
ghost use Rattle.clock_gate.specs.ClockRow.{IsClock};
ghost use Rattle.writer_reopen.specs.Poll.{AreRows};
ghost use Rattle.writer_reopen.specs.PollMachine.{DaemonFits};

use super::*;
use clock_gate::ClockRow;
use generation_word::{Layout, word1};
use segment_layout::{MAGIC, Publication, Start, admit};
use status_machine::{Daemon, hear};
use std::alloc::Global;
use std::test::Fail;
use vmclock_page::{from_words, has_constants_of};
use writer_reopen::Polled;

// A reply that is good: its leap is 0, its bound 244,142 ns.
pub(crate) const REPLY: [u8; 104] = [
    6, 2, 0, 0, 0, 0x21, 0, 5, 0, 0, 0, 0, 0, 0, 0, 0, 0, 0, 0, 1, 0, 0, 0, 0, 0, 0, 0, 0, 0xa9,
    0xfe, 0xa9, 0x7b, 0xa9, 0xfe, 0xa9, 0x7b, 0, 0, 0, 0, 0, 0, 0, 0, 0, 0, 0, 0, 0, 1, 0, 0, 0, 4,
    0, 0, 0, 0, 0, 0, 0x65, 0, 0, 0, 0, 0, 0, 0, 0xf7, 0xff, 0xff, 0xff, 0, 0, 0, 0, 0, 0, 0, 0, 0,
    0, 0, 0, 0, 0, 0, 0, 0, 0, 0, 0, 0xec, 0x80, 0, 0, 0xea, 0x80, 0, 0, 0, 0, 0, 0,
];

// As-of 1 s, void-after 1,001 s, bound 244,142 ns, marker 0, drift 50,000, synchronized, without support.
const OLD: [u64; 8] = [1, 0, 1_001, 0, 244_142, 0, 0x0000_0001_0000_c350, 0];

// A clock at 2 s and at 3 s.
pub(crate) fn clock() -> [ClockRow; 2]
    ensures rows { AreRows result }
    ensures two { length result ≡ 2 }
    ensures moments { IsClock result }
{
    [
        ClockRow {
            mono: 2_000_000_000,
            real: 1_700_000_001_000_000_000,
            truth: None,
        },
        ClockRow {
            mono: 3_000_000_000,
            real: 1_700_000_002_000_000_000,
            truth: None,
        },
    ]
}

// An image with this header and an old record; without a header nothing was published.
pub(crate) fn image(header: u64) -> [u64; 10] {
    let mut words = [0; 10];
    if header != 0 {
        words[0] = MAGIC;
    }
    words[1] = header;
    words[2..10].copy_from_slice(&OLD);
    words
}

// A page with sequence count 2 and this marker.
pub(crate) fn page(marker: u64) -> [u64; 13] {
    let mut words = [0; 13];
    words[0] = 0x0000_0068_4b4c_4356;
    words[1] = 0x0000_0002_0001_0001;
    words[2] = marker;
    words
}

// The kind of a start.
pub(crate) fn kind(start: &Start) -> &'static str {
    match start {
        Start::Fresh => "fresh",
        Start::Kept(_, _) => "kept",
        Start::Torn(_) => "torn",
    }
}

// A table without a page, of an image with this header, and its daemon's seat.
pub(crate) fn started(alloc: Global, header: u64, layout: Layout) -> Option<(HostTable, DaemonSeat)>
    ensures table { IfSome result (λ r. r.1.table ≡ r.0.id) }
    ensures setup { IfSome result (λ r. (r.1.view.setup.rows ≡ 2) × (r.1.view.setup.page ≡ None)) }
{
    let words = image(header);
    if admit(&words, layout).is_err() {
        return None;
    }
    let (table, _host, daemon, _client) = HostTable::new(alloc, layout, &words, None, 2, 1).ok()?;
    Some((table, daemon))
}

// A poll that is published: the daemon after it, and what it publishes.
pub(crate) fn published(
    seat: &mut DaemonSeat,
    table: &HostTable,
    state: Daemon,
    number: u32,
) -> Option<(Daemon, Publication)>
    requires table { seat.old.table ≡ table.now.id }
    requires open { seat.old.is_open ≡ true }
    requires setup { (seat.old.view.setup.rows ≡ 2) × (seat.old.view.setup.page ≡ None) }
    requires state { (state.support ≡ false) × DaemonFits state }
    ensures table { seat.new.table ≡ seat.old.table }
    ensures open { seat.new.is_open ≡ true }
    ensures setup { seat.new.view.setup ≡ seat.old.view.setup }
    ensures state { IfSome result (λ r. (r.0.support ≡ false) × DaemonFits r.0) }
{
    let clock = clock();
    match seat.poll(table, state, number, hear(&REPLY), &clock, 1) {
        Polled::Published {
            daemon,
            publication,
        } => Some((daemon, publication)),
        Polled::Skipped { .. } | Polled::Stopped { .. } => None,
    }
}

// The first poll of a daemon that began with this: the number that it publishes.
pub(crate) fn next_number(seat: &mut DaemonSeat, table: &HostTable, start: &Start) -> Option<u32>
    requires table { seat.old.table ≡ table.now.id }
    requires open { seat.old.is_open ≡ true }
    requires setup { (seat.old.view.setup.rows ≡ 2) × (seat.old.view.setup.page ≡ None) }
{
    let state = Daemon::resume(start, 50_000, false, 0);
    match published(seat, table, state, 1) {
        Some((_, publication)) => Some(publication.generation),
        None => None,
    }
}

// The first poll of a daemon that began with this, with this stop: the stores that it tells.
pub(crate) fn stores_told(
    seat: &mut DaemonSeat,
    table: &HostTable,
    start: &Start,
    stop: u8,
) -> Option<u8>
    requires table { seat.old.table ≡ table.now.id }
    requires open { seat.old.is_open ≡ true }
    requires setup { (seat.old.view.setup.rows ≡ 2) × (seat.old.view.setup.page ≡ None) }
    requires stop { stop ≤ 10 }
    ensures table { seat.new.table ≡ seat.old.table }
    ensures setup { seat.new.view.setup ≡ seat.old.view.setup }
{
    let state = Daemon::resume(start, 50_000, false, 0);
    let clock = clock();
    match seat.stop_after(table, state, 1, hear(&REPLY), &clock, 1, stop) {
        Polled::Published { .. } => Some(10),
        Polled::Stopped { stores } => Some(stores),
        Polled::Skipped { .. } => None,
    }
}

// So many polls, each published: the number of the last, and of one more.
pub(crate) fn last_and_next(
    seat: &mut DaemonSeat,
    table: &HostTable,
    start: &Start,
    polls: u32,
) -> Option<(u32, u32)>
    requires table { seat.old.table ≡ table.now.id }
    requires open { seat.old.is_open ≡ true }
    requires setup { (seat.old.view.setup.rows ≡ 2) × (seat.old.view.setup.page ≡ None) }
{
    let mut state = Daemon::resume(start, 50_000, false, 0);
    let mut last = 0;
    'polls: for number in 0..polls {
        match published(seat, table, state, number) {
            Some((next, publication)) => {
                state = next;
                last = publication.generation;
            }
            None => return None,
        }
    }
    match published(seat, table, state, polls) {
        Some((_, publication)) => Some((last, publication.generation)),
        None => None,
    }
}

// What an opening of this image finds and moves, and the number of the next publication.
fn opened(
    alloc: Global,
    header: u64,
    layout: Layout,
) -> Option<(&'static str, u32, Option<u32>, u32)> {
    let (table, mut seat) = started(alloc, header, layout)?;
    let opening = seat.reopen(&table);
    let next = next_number(&mut seat, &table, &opening.start)?;
    Some((
        kind(&opening.start),
        opening.start.generation(),
        opening.moved,
        next,
    ))
}

#[test]
fn each_kind_of_image_is_opened(rt: HostRuntime) {
    for (layout, number, found) in [
        (Layout::Two, 0, ("fresh", 0, None, 2)),
        (Layout::Two, 7, ("torn", 7, None, 8)),
        (Layout::Two, 8, ("kept", 8, None, 10)),
        (Layout::Three, 0, ("fresh", 0, None, 2)),
        (Layout::Three, 65_537, ("torn", 65_537, None, 65_538)),
        (Layout::Three, 65_536, ("kept", 65_536, None, 65_538)),
    ] {
        let header = word1(layout, number);
        assert_eq!(rt;
            opened(rt.alloc(), header, layout),
            Some(found),
            "{number} in {layout:?}"
        );
    }
}

#[test]
fn words_without_a_header_are_opened_as_new_ones(rt: HostRuntime) {
    for layout in [Layout::Two, Layout::Three] {
        assert_eq!(rt;
            opened(rt.alloc(), 0, layout),
            Some(("fresh", 0, None, 2)),
            "{layout:?}"
        );
    }
}

#[test]
fn an_old_segment_is_moved_where_it_has_a_record(rt: HostRuntime) {
    for (number, found) in [
        (0, ("fresh", 0, None, 2)),
        (7, ("torn", 7, None, 8)),
        (8, ("kept", 8, Some(10), 12)),
        (65_534, ("kept", 65_534, Some(65_536), 65_538)),
        (65_535, ("torn", 65_535, None, 65_536)),
    ] {
        let header = word1(Layout::Two, number);
        assert_eq!(rt;
            opened(rt.alloc(), header, Layout::Three),
            Some(found),
            "{number}"
        );
    }
}

#[test]
fn the_number_after_the_last_is_the_first_in_layout_two_alone(rt: HostRuntime) -> Result<(), Fail> {
    for (layout, numbers) in [
        (Layout::Two, (65_534, 2)),
        (Layout::Three, (65_534, 65_536)),
    ] {
        let (table, mut seat) = started(rt.alloc(), word1(layout, 65_532), layout).ok_or(
            "there is a table",
        )?;
        let opening = seat.reopen(&table);
        assert_eq!(rt;
            last_and_next(&mut seat, &table, &opening.start, 1),
            Some(numbers),
            "{layout:?}"
        );
    }
    Ok(())
}

#[test]
fn a_whole_period_of_publications_ends_at_the_last_number(rt: HostRuntime) -> Result<(), Fail> {
    for (layout, numbers) in [
        (Layout::Two, (65_534, 2)),
        (Layout::Three, (65_534, 65_536)),
    ] {
        let (table, mut seat) = started(rt.alloc(), 0, layout).ok_or("there is a table")?;
        let opening = seat.reopen(&table);
        assert_eq!(rt;
            last_and_next(&mut seat, &table, &opening.start, 32_767),
            Some(numbers),
            "{layout:?}"
        );
    }
    Ok(())
}

// A table with this page, and the seats of its host and its daemon.
fn with_page(alloc: Global, start: &[u64; 13]) -> Option<(HostTable, HostSeat, DaemonSeat)>
    ensures host { IfSome result (λ r. (r.1.table ≡ r.0.id) × (r.1.view.setup.rows ≡ 2) × (r.1.view.setup.page ≡ Some start.now)) }
    ensures part { IfSome result (λ r. (r.1.view.host_part.rows ≡ 1) × (length r.1.view.host_part.pages ≡ 1)) }
    ensures daemon { IfSome result (λ r. (r.2.table ≡ r.0.id) × (r.2.view.setup.rows ≡ 2) × (is_some r.2.view.setup.page ≡ true)) }
{
    let words = image(0);
    if admit(&words, Layout::Two).is_err() || from_words(start).is_err() {
        return None;
    }
    let (table, host, daemon, _client) = HostTable::new(
        alloc,
        Layout::Two,
        &words,
        Some(*start),
        2,
        1,
    ).ok()?;
    Some((table, host, daemon))
}

// The host writes this page, where it is one of the start page, and goes to its next clock row.
pub(crate) fn goes_on(
    host: &mut HostSeat,
    table: &HostTable,
    start: &[u64; 13],
    words: &[u64; 13],
) -> Option<u32>
    requires table { host.old.table ≡ table.now.id }
    requires page { host.old.view.setup.page ≡ Some start.now }
    requires rows { (host.old.view.host_part.rows ≡ 1) × (host.old.view.setup.rows ≡ 2) }
    requires pages { length host.old.view.host_part.pages ≡ 1 }
{
    let (Ok(first), Ok(page)) = (from_words(start), from_words(words)) else {
        return None;
    };
    if !has_constants_of(&first, &page) {
        return None;
    }
    host.write_page(table, words);
    Some(host.advance(table))
}

// The first poll of a daemon with support: the clock rows of its readings, and the count and the marker of the page.
pub(crate) fn found_by_poll(
    seat: &mut DaemonSeat,
    table: &HostTable,
    start: &Start,
) -> Option<(u32, u32, u32, u64)>
    requires table { seat.old.table ≡ table.now.id }
    requires open { seat.old.is_open ≡ true }
    requires setup { (seat.old.view.setup.rows ≡ 2) × (is_some seat.old.view.setup.page ≡ true) }
{
    let state = Daemon::resume(start, 50_000, true, 0);
    let clock = clock();
    match seat.poll(table, state, 1, hear(&REPLY), &clock, 1) {
        Polled::Published { publication, .. } => Some((
            publication.asked,
            publication.replied,
            publication.sequence,
            publication.rec.marker(),
        )),
        Polled::Skipped { .. } | Polled::Stopped { .. } => None,
    }
}

#[test]
fn a_poll_finds_what_the_host_did(rt: HostRuntime) -> Result<(), Fail> {
    let start = page(7);
    let (table, mut host, mut seat) = with_page(rt.alloc(), &start).ok_or("there is a table")?;
    assert_eq!(rt; goes_on(&mut host, &table, &start, &page(8)), Some(2));
    let opening = seat.reopen(&table);
    assert_eq!(rt;
        found_by_poll(&mut seat, &table, &opening.start),
        Some((2, 2, 4, 8))
    );
    Ok(())
}

#[test]
fn a_table_tells_what_it_was_made_of(rt: HostRuntime) -> Result<(), Fail> {
    let (table, _host, _seat) = with_page(rt.alloc(), &page(7)).ok_or("there is a table")?;
    assert_eq!(rt;
        (table.rows(), table.support(), table.layout()),
        (2, true, Layout::Two)
    );
    let (table, _seat) = started(rt.alloc(), 0, Layout::Three).ok_or("there is a table")?;
    assert_eq!(rt;
        (table.rows(), table.support(), table.layout()),
        (2, false, Layout::Three)
    );
    Ok(())
}
