// Each expected answer is reasoned: a try that a change of word 1 falls into fails, the next one reads the new record, and what comes
// after a read doesn't change it. Seats step by turns here, in one thread.
ghost use Rattle.std.specs.Prelude.{◌≡◌, ◌≤◌, true, false, None, length, IfSome, IfNone};
ghost use Rattle.clock_gate.specs.declared.limits.TheConstants.{MOST_TRIES};
ghost use Rattle.clock_gate.specs.ClockRow.{IsClock};
ghost use Rattle.interval_now.specs.Call.{Agrees};
ghost use Rattle.writer_reopen.specs.PollMachine.{DaemonFits};

use super::*;
use crate::tests::{REPLY, clock, image, last_and_next, published, stores_told};
use clock_gate::{ClockRow, ClockStatus, Stamp};
use generation_word::{Layout, word1};
use interval_now::{Answer, Causality, Interval, Timed};
use segment_layout::{Start, admit};
use status_machine::{Daemon, hear};
use std::alloc::Global;
use std::test::Fail;
use writer_reopen::Polled;

// A table of these words for two clients, without a page, and its seats.
pub(crate) fn seated(
    alloc: Global,
    words: &[u64; 10],
    layout: Layout,
) -> Option<(HostTable, HostSeat, DaemonSeat, ClientSeat)>
    ensures host { IfSome result (λ r. (r.1.table ≡ r.0.id) × (r.1.view.setup.rows ≡ 2) × (r.1.view.host_part.rows ≡ 1)) }
    ensures daemon { IfSome result (λ r. (r.2.table ≡ r.0.id) × (r.2.view.setup.rows ≡ 2) × (r.2.view.setup.page ≡ None)) }
    ensures client { IfSome result (λ r. (r.3.table ≡ r.0.id) × (r.3.view.setup.rows ≡ 2) × (r.3.in_hand ≡ false)) }
    ensures first { IfSome result (λ r. (r.3.is_first ≡ true) × (r.3.splits ≡ 0) × (r.3.view.setup.clients ≡ 2)) }
{
    if admit(words, layout).is_err() {
        return None;
    }
    HostTable::new(alloc, layout, words, None, 2, 2).ok()
}

// What a call answers.
pub(crate) fn now(client: &mut ClientSeat, table: &HostTable, tries: u16) -> Answer
    requires table { client.old.table ≡ table.now.id }
    requires rows { client.old.view.setup.rows ≡ 2 }
    requires hand { client.old.in_hand ≡ false }
    requires some { 1 ≤ tries }
    requires most { tries ≤ MOST_TRIES }
    ensures table { client.new.table ≡ client.old.table }
    ensures setup { client.new.view.setup ≡ client.old.view.setup }
    ensures seat { (client.new.is_first ≡ client.old.is_first) × (client.new.splits ≡ client.old.splits) }
    ensures hand { client.new.in_hand ≡ false }
{
    let clock = clock();
    client.now(table, &clock, tries)
}

// Makes so many steps of the call in hand, or fewer where it ends: those that it made, and the answer.
fn steps(
    client: &mut ClientSeat,
    table: &HostTable,
    clock: &[ClockRow],
    most: u32,
) -> (u32, Option<Answer>)
    requires table { client.old.table ≡ table.now.id }
    requires rows { client.old.view.setup.rows ≡ 2 }
    requires clock { length clock.now ≡ 2 }
    requires moments { IsClock clock.now }
    requires hand { client.old.in_hand ≡ true }
    requires reading { Agrees clock.now client.old.reading }
    ensures table { client.new.table ≡ client.old.table }
    ensures setup { client.new.view.setup ≡ client.old.view.setup }
    ensures going { IfNone result.1 ((client.new.in_hand ≡ true) × Agrees clock.now client.new.reading) }
    ensures few { result.0 ≤ most }
{
    'steps: for made in 0..most {
        if let Some(answer) = client.step(table, clock) {
            return (made + 1, Some(answer));
        }
    }
    (most, None)
}

// Takes a call in hand, and makes so many of its steps, or fewer where it ends: those that it made, and the answer.
pub(crate) fn begun(
    client: &mut ClientSeat,
    table: &HostTable,
    clock: &[ClockRow],
    tries: u16,
    most: u32,
) -> (u32, Option<Answer>)
    requires table { client.old.table ≡ table.now.id }
    requires rows { client.old.view.setup.rows ≡ 2 }
    requires clock { length clock.now ≡ 2 }
    requires moments { IsClock clock.now }
    requires hand { client.old.in_hand ≡ false }
    requires some { 1 ≤ tries }
    requires most { tries ≤ MOST_TRIES }
    ensures table { client.new.table ≡ client.old.table }
    ensures setup { client.new.view.setup ≡ client.old.view.setup }
    ensures going { IfNone result.1 ((client.new.in_hand ≡ true) × Agrees clock.now client.new.reading) }
    ensures few { result.0 ≤ most }
{
    client.begin(table, tries);
    steps(client, table, clock, most)
}

// The rest of a call that made so many steps: the steps of all of it, and its answer.
pub(crate) fn finished(
    client: &mut ClientSeat,
    table: &HostTable,
    clock: &[ClockRow],
    made: u32,
    answer: Option<Answer>,
) -> Option<(u32, Answer)>
    requires table { client.old.table ≡ table.now.id }
    requires rows { client.old.view.setup.rows ≡ 2 }
    requires clock { length clock.now ≡ 2 }
    requires moments { IsClock clock.now }
    requires few { made ≤ 100 }
    requires going { IfNone answer ((client.old.in_hand ≡ true) × Agrees clock.now client.old.reading) }
{
    match answer {
        Some(answer) => Some((made, answer)),
        None => {
            let (more, answer) = steps(client, table, clock, 100);
            Some((made + more, answer?))
        }
    }
}

// The daemon opens, and its first poll is published.
fn published_first(seat: &mut DaemonSeat, table: &HostTable) -> Option<Daemon>
    requires table { seat.old.table ≡ table.now.id }
    requires setup { (seat.old.view.setup.rows ≡ 2) × (seat.old.view.setup.page ≡ None) }
    ensures table { seat.new.table ≡ seat.old.table }
    ensures open { seat.new.is_open ≡ true }
    ensures setup { seat.new.view.setup ≡ seat.old.view.setup }
    ensures state { IfSome result (λ s. (s.support ≡ false) × DaemonFits s) }
{
    let opening = seat.reopen(table);
    let state = Daemon::resume(&opening.start, 50_000, false, 0);
    match published(seat, table, state, 1) {
        Some((state, _)) => Some(state),
        None => None,
    }
}

// The first poll of a daemon that began with this: the number that it publishes.
pub(crate) fn next_number(seat: &mut DaemonSeat, table: &HostTable, start: &Start) -> Option<u32>
    requires table { seat.old.table ≡ table.now.id }
    requires open { seat.old.is_open ≡ true }
    requires setup { (seat.old.view.setup.rows ≡ 2) × (seat.old.view.setup.page ≡ None) }
    ensures table { seat.new.table ≡ seat.old.table }
    ensures open { seat.new.is_open ≡ true }
    ensures setup { seat.new.view.setup ≡ seat.old.view.setup }
{
    let state = Daemon::resume(start, 50_000, false, 0);
    match published(seat, table, state, 1) {
        Some((_, publication)) => Some(publication.generation),
        None => None,
    }
}

// The poll that comes next, which stops after so many stores: those that it tells.
fn stopped(seat: &mut DaemonSeat, table: &HostTable, state: Daemon, stores: u8) -> Option<u8>
    requires table { seat.old.table ≡ table.now.id }
    requires open { seat.old.is_open ≡ true }
    requires setup { (seat.old.view.setup.rows ≡ 2) × (seat.old.view.setup.page ≡ None) }
    requires state { (state.support ≡ false) × DaemonFits state }
    requires stores { stores ≤ 10 }
    ensures table { seat.new.table ≡ seat.old.table }
    ensures setup { seat.new.view.setup ≡ seat.old.view.setup }
{
    let clock = clock();
    match seat.stop_after(table, state, 2, hear(&REPLY), &clock, 1, stores) {
        Polled::Published { .. } => Some(10),
        Polled::Stopped { stores } => Some(stores),
        Polled::Skipped { .. } => None,
    }
}

// The answer by a record of the same clock row: the real time of the row, and 244,142 ns either way.
pub(crate) fn at_once(generation: u32, row: u32) -> Answer {
    let (earliest, latest) = match row {
        1 => (1_700_000_000_999_755_858, 1_700_000_001_000_244_142),
        _ => (1_700_000_001_999_755_858, 1_700_000_002_000_244_142),
    };
    synchronized(generation, row, earliest, latest)
}

// The answer at row 2 by a record of row 1, a second before: 50,000 ns more either way.
pub(crate) fn a_second_later(generation: u32) -> Answer {
    synchronized(
        generation,
        2,
        1_700_000_001_999_705_858,
        1_700_000_002_000_294_142,
    )
}

fn synchronized(generation: u32, row: u32, earliest: i128, latest: i128) -> Answer {
    Answer::Time(Timed {
        generation,
        row,
        sequence: 0,
        interval: Interval {
            earliest,
            latest,
            status: ClockStatus::Synchronized,
        },
    })
}

pub(crate) fn busy(tries: u16, first: u32, last: u32) -> Answer {
    Answer::Busy { tries, first, last }
}

#[test]
fn a_client_follows_the_daemon_through_a_stop(rt: HostRuntime) -> Result<(), Fail> {
    for layout in [Layout::Two, Layout::Three] {
        let (table, mut host, mut daemon, mut client) = seated(rt.alloc(), &image(0), layout).ok_or(
            "there is a table",
        )?;
        assert_eq!(rt;
            now(&mut client, &table, 10),
            Answer::NotInitialized,
            "{layout:?}"
        );
        let state = published_first(&mut daemon, &table).ok_or("it is published")?;
        assert_eq!(rt; now(&mut client, &table, 10), at_once(2, 1), "{layout:?}");
        host.advance(&table);
        assert_eq!(rt;
            now(&mut client, &table, 10),
            a_second_later(2),
            "{layout:?}"
        );
        assert_eq!(rt;
            stopped(&mut daemon, &table, state, 3),
            Some(3),
            "{layout:?}"
        );
        assert_eq!(rt; now(&mut client, &table, 10), busy(10, 3, 3), "{layout:?}");
        published_first(&mut daemon, &table).ok_or("it is published")?;
        assert_eq!(rt; now(&mut client, &table, 10), at_once(4, 2), "{layout:?}");
    }
    Ok(())
}

// A call of so many tries, after so many of whose steps the clock goes on and a record is published: the steps that it takes, and
// its answer. The record before it was published at the row before.
fn interrupted(
    alloc: Global,
    header: u64,
    layout: Layout,
    tries: u16,
    place: u32,
) -> Option<(u32, Answer)>
    requires some { 1 ≤ tries }
    requires most { tries ≤ MOST_TRIES }
    requires place { place ≤ 100 }
{
    let (table, mut host, mut daemon, mut client) = seated(alloc, &image(header), layout)?;
    let opening = daemon.reopen(&table);
    let _number = next_number(&mut daemon, &table, &opening.start)?;
    let clock = clock();
    let (made, answer) = begun(&mut client, &table, &clock, tries, place);
    host.advance(&table);
    let _number = next_number(&mut daemon, &table, &opening.start)?;
    finished(&mut client, &table, &clock, made, answer)
}

// What a call of two tries comes to, where the number goes on from one to the other after so many of its steps.
fn read_again(place: u32, before: u32, after: u32) -> (u32, Answer) {
    match place {
        0 => (11, at_once(after, 2)),
        1..=9 => (21, at_once(after, 2)),
        10 => (11, a_second_later(before)),
        _ => (11, at_once(before, 1)),
    }
}

#[test]
fn a_try_that_a_publication_falls_into_is_made_again(rt: HostRuntime) {
    for (layout, number, before, after) in [
        (Layout::Two, 0, 2, 4),
        (Layout::Two, 65_530, 65_532, 65_534),
        (Layout::Two, 65_532, 65_534, 2),
        (Layout::Three, 0, 2, 4),
        (Layout::Three, 65_532, 65_534, 65_536),
        (Layout::Three, 4_294_967_292, 4_294_967_294, 2),
    ] {
        for place in 0..12 {
            assert_eq!(rt;
                interrupted(rt.alloc(), word1(layout, number), layout, 2, place),
                Some(read_again(place, before, after)),
                "{before} after {place} steps in {layout:?}"
            );
        }
    }
}

#[test]
fn a_call_of_one_try_that_a_publication_falls_into_is_busy(rt: HostRuntime) {
    for layout in [Layout::Two, Layout::Three] {
        for place in 1..10 {
            assert_eq!(rt;
                interrupted(rt.alloc(), word1(layout, 0), layout, 1, place),
                Some((10, busy(1, 2, 4))),
                "after {place} steps in {layout:?}"
            );
        }
    }
}

// A call of so many tries, which meets a publication after so many steps and another one after so many more.
fn interrupted_twice(
    alloc: Global,
    layout: Layout,
    tries: u16,
    places: (u32, u32),
) -> Option<(u32, Answer)>
    requires some { 1 ≤ tries }
    requires most { tries ≤ MOST_TRIES }
    requires places { (places.0 ≤ 40) × (places.1 ≤ 40) }
{
    let (table, mut host, mut daemon, mut client) = seated(alloc, &image(0), layout)?;
    let opening = daemon.reopen(&table);
    let _number = next_number(&mut daemon, &table, &opening.start)?;
    let clock = clock();
    let (made, answer) = begun(&mut client, &table, &clock, tries, places.0);
    if answer.is_some() {
        return None;
    }
    host.advance(&table);
    let _number = next_number(&mut daemon, &table, &opening.start)?;
    let (more, answer) = steps(&mut client, &table, &clock, places.1);
    let _number = next_number(&mut daemon, &table, &opening.start)?;
    finished(&mut client, &table, &clock, made + more, answer)
}

// Both tries fail, the second one between 4 and 6, and a third one reads the third record.
#[test]
fn a_call_is_busy_after_its_last_try_alone(rt: HostRuntime) {
    for layout in [Layout::Two, Layout::Three] {
        for first in 1..10 {
            for second in 1..10 {
                let places = (first, 10 - first + second);
                assert_eq!(rt;
                    interrupted_twice(rt.alloc(), layout, 2, places),
                    Some((20, busy(2, 4, 6))),
                    "{places:?} in {layout:?}"
                );
                assert_eq!(rt;
                    interrupted_twice(rt.alloc(), layout, 3, places),
                    Some((31, at_once(6, 2))),
                    "{places:?} in {layout:?}"
                );
            }
        }
    }
}

// A call of so many tries, after so many of whose steps the clock goes on and a publication stops after so many stores.
fn stopped_within(
    alloc: Global,
    layout: Layout,
    tries: u16,
    place: u32,
    stores: u8,
) -> Option<(u32, Answer)>
    requires some { 1 ≤ tries }
    requires most { tries ≤ MOST_TRIES }
    requires place { place ≤ 100 }
    requires stores { stores ≤ 10 }
{
    let (table, mut host, mut daemon, mut client) = seated(alloc, &image(0), layout)?;
    let opening = daemon.reopen(&table);
    let _number = next_number(&mut daemon, &table, &opening.start)?;
    let clock = clock();
    let (made, answer) = begun(&mut client, &table, &clock, tries, place);
    host.advance(&table);
    let _stores = stores_told(&mut daemon, &table, &opening.start, stores)?;
    finished(&mut client, &table, &clock, made, answer)
}

// What such a call comes to: the try that the odd number falls into fails, and the later ones by their first load.
fn failed_on(tries: u16, place: u32) -> (u32, Answer) {
    match place {
        0 => (u32::from(tries), busy(tries, 3, 3)),
        1..=9 if tries == 1 => (10, busy(1, 2, 3)),
        1..=9 => (9 + u32::from(tries), busy(tries, 3, 3)),
        10 => (11, a_second_later(2)),
        _ => (11, at_once(2, 1)),
    }
}

#[test]
fn a_call_that_an_abandoned_publication_falls_into_is_busy(rt: HostRuntime) {
    for layout in [Layout::Two, Layout::Three] {
        for tries in [1, 2, 10] {
            for place in 0..12 {
                for stores in 1..10 {
                    assert_eq!(rt;
                        stopped_within(rt.alloc(), layout, tries, place, stores),
                        Some(failed_on(tries, place)),
                        "{stores} stores after {place} steps of {tries} tries in {layout:?}"
                    );
                }
            }
        }
    }
}

// A call of two tries, into whose first one so many publications and one more fall after so many steps.
fn wrapped(alloc: Global, layout: Layout, place: u32, polls: u32) -> Option<(u32, Answer)>
    requires place { place ≤ 100 }
{
    let (table, mut host, mut daemon, mut client) = seated(alloc, &image(0), layout)?;
    let opening = daemon.reopen(&table);
    let _number = next_number(&mut daemon, &table, &opening.start)?;
    let clock = clock();
    let (made, answer) = begun(&mut client, &table, &clock, 2, place);
    host.advance(&table);
    let _numbers = last_and_next(&mut daemon, &table, &opening.start, polls)?;
    finished(&mut client, &table, &clock, made, answer)
}

// After a period of layout 2 the number is the old one again, and the record has the as-of that was loaded before or after it. Layout 3
// compares all 32 bits, also where 16 of them are the same.
#[test]
fn a_period_inside_a_try_is_seen_in_layout_three_alone(rt: HostRuntime) {
    for (layout, polls, place, found) in [
        (Layout::Two, 32_766, 1, (11, at_once(2, 2))),
        (Layout::Two, 32_766, 9, (11, a_second_later(2))),
        (Layout::Two, 32_765, 9, (21, at_once(65_534, 2))),
        (Layout::Two, 32_767, 9, (21, at_once(4, 2))),
        (Layout::Three, 32_766, 1, (21, at_once(65_536, 2))),
        (Layout::Three, 32_766, 9, (21, at_once(65_536, 2))),
        (Layout::Three, 32_767, 1, (21, at_once(65_538, 2))),
        (Layout::Three, 32_767, 9, (21, at_once(65_538, 2))),
    ] {
        assert_eq!(rt;
            wrapped(rt.alloc(), layout, place, polls),
            Some(found),
            "{polls} polls after {place} steps in {layout:?}"
        );
    }
}

// A call on an image whose record has this header and an as-of so many nanoseconds after the clock's first row.
fn early(alloc: Global, header: u64, layout: Layout, nanos: u64) -> Option<Answer> {
    let mut words = image(header);
    words[2] = 2;
    words[3] = nanos;
    let (table, _host, _daemon, mut client) = seated(alloc, &words, layout)?;
    Some(now(&mut client, &table, 1))
}

// The answer that the first row lies before an as-of so many nanoseconds after it.
fn causality(nanos: u32) -> Answer {
    match Stamp::new(2, nanos) {
        Some(as_of) => Answer::Causality(Causality {
            as_of,
            mono: 2_000_000_000,
        }),
        None => Answer::NotInitialized,
    }
}

#[test]
fn a_clock_more_than_a_microsecond_before_the_record_is_causality(rt: HostRuntime) {
    for layout in [Layout::Two, Layout::Three] {
        for nanos in [0, 1_000] {
            assert_eq!(rt;
                early(rt.alloc(), word1(layout, 2), layout, nanos),
                Some(at_once(2, 1)),
                "{nanos} in {layout:?}"
            );
        }
        assert_eq!(rt;
            early(rt.alloc(), word1(layout, 2), layout, 1_001),
            Some(causality(1_001)),
            "{layout:?}"
        );
    }
}
