// A call on a table with a page, which changes between two of the call's steps.
ghost use Rattle.std.specs.Prelude.{◌≡◌, ◌≤◌, true, false, Some, length, is_some, IfSome};
ghost use Rattle.clock_gate.specs.declared.limits.TheConstants.{MOST_TRIES};

use super::*;
use crate::client_tests::{a_second_later, at_once, begun, finished, now};
use crate::tests::{clock, found_by_poll, goes_on, image, page};
use clock_gate::ClockStatus;
use generation_word::Layout;
use interval_now::{Answer, Interval, Timed};
use segment_layout::admit;
use std::alloc::Global;
use vmclock_page::from_words;

// A table with this page, and its seats.
fn with_page(
    alloc: Global,
    start: &[u64; 13],
) -> Option<(HostTable, HostSeat, DaemonSeat, ClientSeat)>
    ensures host { IfSome result (λ r. (r.1.table ≡ r.0.id) × (r.1.view.setup.rows ≡ 2) × (r.1.view.setup.page ≡ Some start.now)) }
    ensures part { IfSome result (λ r. (r.1.view.host_part.rows ≡ 1) × (length r.1.view.host_part.pages ≡ 1)) }
    ensures daemon { IfSome result (λ r. (r.2.table ≡ r.0.id) × (r.2.view.setup.rows ≡ 2) × (is_some r.2.view.setup.page ≡ true)) }
    ensures client { IfSome result (λ r. (r.3.table ≡ r.0.id) × (r.3.view.setup.rows ≡ 2) × (r.3.in_hand ≡ false)) }
{
    let words = image(0);
    if admit(&words, Layout::Two).is_err() || from_words(start).is_err() {
        return None;
    }
    HostTable::new(alloc, Layout::Two, &words, Some(*start), 2, 1).ok()
}

// A call of so many tries, after so many of whose steps the host writes a page with another marker and the clock goes on.
fn met_by_a_page(alloc: Global, tries: u16, place: u32) -> Option<(u32, Answer)>
    requires some { 1 ≤ tries }
    requires most { tries ≤ MOST_TRIES }
    requires place { place ≤ 100 }
{
    let start = page(7);
    let (table, mut host, mut daemon, mut client) = with_page(alloc, &start)?;
    let opening = daemon.reopen(&table);
    let _found = found_by_poll(&mut daemon, &table, &opening.start)?;
    let clock = clock();
    let (made, answer) = begun(&mut client, &table, &clock, tries, place);
    let _row = goes_on(&mut host, &table, &start, &page(8))?;
    finished(&mut client, &table, &clock, made, answer)
}

// This answer, with the page's sequence count, and Disrupted where the record's marker isn't the page's.
fn with_sequence(answer: Answer, sequence: u32, status: ClockStatus) -> Answer {
    match answer {
        Answer::Time(timed) => Answer::Time(Timed {
            sequence,
            interval: Interval {
                status,
                ..timed.interval
            },
            ..timed
        }),
        other => other,
    }
}

// What such a call comes to: the page's count is loaded at its twelfth and its fourteenth step.
fn read_page(tries: u16, place: u32) -> (u32, Answer) {
    match place {
        0..=10 => (
            14,
            with_sequence(a_second_later(2), 4, ClockStatus::Disrupted),
        ),
        11 => (14, with_sequence(at_once(2, 1), 4, ClockStatus::Disrupted)),
        12..=13 if tries == 1 => (14, Answer::PageBusy { first: 2, last: 4 }),
        12..=13 => (17, with_sequence(at_once(2, 1), 4, ClockStatus::Disrupted)),
        _ => (
            14,
            with_sequence(at_once(2, 1), 2, ClockStatus::Synchronized),
        ),
    }
}

// Between whole calls the page is at rest, so that PageBusy comes only where the host writes between the steps of one call.
#[test]
fn a_page_try_that_a_page_falls_into_is_made_again(rt: HostRuntime) {
    for tries in [1, 2, 10] {
        for place in 0..15 {
            assert_eq!(rt;
                met_by_a_page(rt.alloc(), tries, place),
                Some(read_page(tries, place)),
                "after {place} steps of {tries} tries"
            );
        }
    }
}

// What whole calls of one try answer before the host writes a page with another marker and the clock goes on, and after.
fn whole_calls(alloc: Global) -> Option<(Answer, Answer)> {
    let start = page(7);
    let (table, mut host, mut daemon, mut client) = with_page(alloc, &start)?;
    let opening = daemon.reopen(&table);
    let _found = found_by_poll(&mut daemon, &table, &opening.start)?;
    let before = now(&mut client, &table, 1);
    let _row = goes_on(&mut host, &table, &start, &page(8))?;
    Some((before, now(&mut client, &table, 1)))
}

#[test]
fn a_whole_call_sees_the_page_that_there_is(rt: HostRuntime) {
    assert_eq!(rt;
        whole_calls(rt.alloc()),
        Some((
            with_sequence(at_once(2, 1), 2, ClockStatus::Synchronized),
            with_sequence(a_second_later(2), 4, ClockStatus::Disrupted)
        ))
    );
}
