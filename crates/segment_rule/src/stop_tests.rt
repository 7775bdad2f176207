// A publication that stops after each of its stores, and what the next opening finds and publishes.
ghost use Rattle.std.specs.Prelude.{◌≤◌};

use crate::tests::{kind, next_number, started, stores_told};
use generation_word::{Layout, word1};
use std::alloc::Global;
use std::process::Abort;

// The kind of a start, its generation, and the number of the publication after it.
type Found = (&'static str, u32, u32);

// A poll with this stop on this image, and the next opening and poll: the stores that the first tells, what the opening finds, and
// the number that is published then.
fn completed(
    alloc: Global,
    header: u64,
    layout: Layout,
    stop: u8,
) -> Option<(u8, &'static str, u32, u32)>
    requires { stop ≤ 10 }
{
    let (table, mut seat) = started(alloc, header, layout)?;
    let opening = seat.reopen(&table);
    let stores = stores_told(&mut seat, &table, &opening.start, stop)?;
    let again = seat.reopen(&table);
    let next = next_number(&mut seat, &table, &again.start)?;
    Some((stores, kind(&again.start), again.start.generation(), next))
}

// What `completed` gives after this stop: the first before any store, the last after every store, else the other.
fn after(stop: u8, rested: Found, torn: Found, ended: Found) -> (u8, &'static str, u32, u32) {
    let (kind, found, next) = match stop {
        0 => rested,
        10 => ended,
        _ => torn,
    };
    (stop, kind, found, next)
}

#[test]
fn a_stopped_first_publication_is_completed(rt: HostRuntime) {
    for layout in [Layout::Two, Layout::Three] {
        for stop in 0..11 {
            assert_eq!(rt;
                completed(rt.alloc(), 0, layout, stop),
                Some(after(stop, ("fresh", 0, 2), ("torn", 1, 2), ("kept", 2, 4))),
                "stop {stop} in {layout:?}"
            );
        }
    }
}

// What follows on each stop at these numbers of layout 2: before any store, among them, after all.
const LAYOUT_TWO: [(u32, Found, Found, Found); 5] = [
    (2, ("kept", 2, 4), ("torn", 3, 4), ("kept", 4, 6)),
    (3, ("torn", 3, 4), ("torn", 3, 4), ("kept", 4, 6)),
    (
        65_532,
        ("kept", 65_532, 65_534),
        ("torn", 65_533, 65_534),
        ("kept", 65_534, 2),
    ),
    (
        65_534,
        ("kept", 65_534, 2),
        ("torn", 65_535, 2),
        ("kept", 2, 4),
    ),
    (
        65_535,
        ("torn", 65_535, 2),
        ("torn", 65_535, 2),
        ("kept", 2, 4),
    ),
];

// And of layout 3, where the numbers go on to 2^32 - 2.
const LAYOUT_THREE: [(u32, Found, Found, Found); 7] = [
    (2, ("kept", 2, 4), ("torn", 3, 4), ("kept", 4, 6)),
    (3, ("torn", 3, 4), ("torn", 3, 4), ("kept", 4, 6)),
    (
        65_532,
        ("kept", 65_532, 65_534),
        ("torn", 65_533, 65_534),
        ("kept", 65_534, 65_536),
    ),
    (
        65_534,
        ("kept", 65_534, 65_536),
        ("torn", 65_535, 65_536),
        ("kept", 65_536, 65_538),
    ),
    (
        65_535,
        ("torn", 65_535, 65_536),
        ("torn", 65_535, 65_536),
        ("kept", 65_536, 65_538),
    ),
    (
        4_294_967_292,
        ("kept", 4_294_967_292, 4_294_967_294),
        ("torn", 4_294_967_293, 4_294_967_294),
        ("kept", 4_294_967_294, 2),
    ),
    (
        4_294_967_294,
        ("kept", 4_294_967_294, 2),
        ("torn", 4_294_967_295, 2),
        ("kept", 2, 4),
    ),
];

// Word 1 with this number, which fits in the layout.
fn header(layout: Layout, number: u32) -> u64 {
    match layout {
        Layout::Two => word1(Layout::Two, number % 65_536),
        Layout::Three => word1(Layout::Three, number),
    }
}

// Each stop at each of these numbers.
fn each_stop(rt: &impl Abort, alloc: Global, layout: Layout, rows: &[(u32, Found, Found, Found)]) {
    for (number, rested, torn, ended) in rows {
        for stop in 0..11 {
            assert_eq!(rt;
                completed(alloc, header(layout, *number), layout, stop),
                Some(after(stop, *rested, *torn, *ended)),
                "stop {stop} at {number}"
            );
        }
    }
}

#[test]
fn a_stopped_publication_of_layout_two_is_completed(rt: HostRuntime) {
    each_stop(&rt, rt.alloc(), Layout::Two, &LAYOUT_TWO);
}

#[test]
fn a_stopped_publication_of_layout_three_is_completed(rt: HostRuntime) {
    each_stop(&rt, rt.alloc(), Layout::Three, &LAYOUT_THREE);
}

// The first opening moves the segment, and what follows goes on in layout 3.
#[test]
fn a_stopped_publication_of_a_moved_segment_is_completed(rt: HostRuntime) {
    for (number, rested, torn, ended) in [
        (2, ("kept", 4, 6), ("torn", 5, 6), ("kept", 6, 8)),
        (3, ("torn", 3, 4), ("torn", 3, 4), ("kept", 4, 6)),
        (
            65_534,
            ("kept", 65_536, 65_538),
            ("torn", 65_537, 65_538),
            ("kept", 65_538, 65_540),
        ),
    ] {
        for stop in 0..11 {
            assert_eq!(rt;
                completed(rt.alloc(), word1(Layout::Two, number), Layout::Three, stop),
                Some(after(stop, rested, torn, ended)),
                "stop {stop} at {number}"
            );
        }
    }
}
