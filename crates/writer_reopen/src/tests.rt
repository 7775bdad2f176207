ghost use Rattle.std.specs.Prelude.{◌≤◌, IfSome};
ghost use Rattle.writer_reopen.specs.Poll.{AreRows};

use super::*;
use clock_gate::{Act, ClockRow, ClockStatus};
use generation_word::{Layout, split_word1, word1};
use segment_layout::{MAGIC, Publication, Start, admit};
use status_machine::{Base, Daemon, hear};
use std::test::Fail;

// A reply that is good: its leap is 0, its bound 244,142 ns.
const REPLY: [u8; 104] = [
    6, 2, 0, 0, 0, 0x21, 0, 5, 0, 0, 0, 0, 0, 0, 0, 0, 0, 0, 0, 1, 0, 0, 0, 0, 0, 0, 0, 0, 0xa9,
    0xfe, 0xa9, 0x7b, 0xa9, 0xfe, 0xa9, 0x7b, 0, 0, 0, 0, 0, 0, 0, 0, 0, 0, 0, 0, 0, 1, 0, 0, 0, 4,
    0, 0, 0, 0, 0, 0, 0x65, 0, 0, 0, 0, 0, 0, 0, 0xf7, 0xff, 0xff, 0xff, 0, 0, 0, 0, 0, 0, 0, 0, 0,
    0, 0, 0, 0, 0, 0, 0, 0, 0, 0, 0, 0xec, 0x80, 0, 0, 0xea, 0x80, 0, 0, 0, 0, 0, 0,
];

// As-of 1 s, void-after 1,001 s, bound 244,142 ns, marker 0, drift 50,000, synchronized, without support.
const OLD: [u64; 8] = [1, 0, 1_001, 0, 244_142, 0, 0x0000_0001_0000_c350, 0];

// What a good poll at 2 s publishes.
const NEW: [u64; 8] = [2, 0, 1_002, 0, 244_142, 0, 0x0000_0001_0000_c350, 0];

// A clock at 2 s and at 3 s.
fn clock() -> [ClockRow; 2]
    ensures { AreRows result }
{
    [
        ClockRow {
            mono: 2_000_000_000,
            real: 1_700_000_001_000_000_000,
            truth: None,
        },
        ClockRow {
            mono: 3_000_000_000,
            real: 1_700_000_002_000_000_000,
            truth: None,
        },
    ]
}

// The shared words: a segment with this header and these data words, a page with sequence count 2 and marker 7, and one
// clock row.
fn shared(header: u64, data: [u64; 8]) -> [u64; 24] {
    let mut words = [0; 24];
    if header != 0 {
        words[0] = MAGIC;
    }
    words[1] = header;
    words[2..10].copy_from_slice(&data);
    words[11] = 2 << 32;
    words[12] = 7;
    words[23] = 1;
    words
}

// The kind of a start.
fn kind(start: &Start) -> &'static str {
    match start {
        Start::Fresh => "fresh",
        Start::Kept(_, _) => "kept",
        Start::Torn(_) => "torn",
    }
}

// Opens the segment, and gives what was found. The number of steps is left in `steps`.
fn opened(words: &mut [u64; 24], layout: Layout, steps: &mut usize) -> Option<Opening> {
    let mut image = [0; 10];
    image.copy_from_slice(&words[..10]);
    if admit(&image, layout).is_err() {
        return None;
    }
    let mut opener = Opener::new(layout);
    'steps: for step in 0..13 {
        match opener.next() {
            Act::Load(word) => {
                opener.give(image[usize::from(word)]);
                *steps = step + 1;
            }
            Act::Store(word, value) => {
                words[usize::from(word)] = value;
                opener.give(0);
                *steps = step + 1;
            }
            Act::End => {}
        }
    }
    opener.end()
}

// Makes a poll, and gives what it came to. The number of steps is left in `steps`. After each load of the clock the host
// writes its next row, and after each of the first so many loads of the marker the next page.
fn polled(
    words: &mut [u64; 24],
    mut machine: PollMachine,
    pages: usize,
    steps: &mut usize,
) -> Option<Polled> {
    let clock = clock();
    let mut left = pages;
    'steps: for step in 0..40 {
        match machine.next() {
            Act::Load(23) => {
                let row = words[23];
                if row < 1 || row > 2 {
                    return None;
                }
                machine.give(row, &clock);
                words[23] = 2;
                *steps = step + 1;
            }
            Act::Load(word) => {
                machine.give(words[usize::from(word)], &clock);
                if word == 12 && left > 0 {
                    words[11] = words[11].wrapping_add(2 << 32);
                    left -= 1;
                }
                *steps = step + 1;
            }
            Act::Store(word, value) => {
                words[usize::from(word)] = value;
                machine.give(0, &clock);
                *steps = step + 1;
            }
            Act::End => {}
        }
    }
    machine.end()
}

// The first poll after an opening, of a run without a page.
fn first_poll(opening: &Opening, layout: Layout, stop: Option<u8>) -> Option<PollMachine>
    requires { IfSome stop (λ s. s ≤ 10) }
{
    let generation = opening.moved.unwrap_or(opening.start.generation());
    if u64::from(generation) > 2 * layout.period() + 1 {
        return None;
    }
    let daemon = Daemon::resume(&opening.start, 50_000, false, 0);
    Some(PollMachine::begin(daemon, layout, generation, 1, hear(&REPLY), stop, 3))
}

#[test]
fn a_stop_leaves_the_stores_before_it(rt: HostRuntime) -> Result<(), Fail> {
    for stop in 0..10 {
        let mut words = shared(word1(Layout::Two, 2), OLD);
        let mut steps = 0;
        let opening = opened(&mut words, Layout::Two, &mut steps).ok_or("the image is admitted")?;
        let poll = first_poll(&opening, Layout::Two, Some(stop)).ok_or("the number is small")?;
        let answer = polled(&mut words, poll, 0, &mut steps).ok_or("the poll ends")?;
        assert_eq!(rt; answer, Polled::Stopped { stores: stop });
        assert_eq!(rt; steps, 2 + usize::from(stop), "stop {stop}");
        let number = if stop == 0 { 2 } else { 3 };
        assert_eq!(rt; split_word1(words[1]), (80, 2, number), "stop {stop}");
        for place in 0..8 {
            let data = if place + 2 <= usize::from(stop) {
                NEW
            } else {
                OLD
            };
            assert_eq!(rt; words[place + 2], data[place], "word {place}, stop {stop}");
        }
    }
    Ok(())
}

// A poll at generation 0 that has taken its reply, with this stop.
fn taken(stop: Option<u8>) -> PollMachine
    requires { IfSome stop (λ s. s ≤ 10) }
{
    let clock = clock();
    let daemon = Daemon::resume(&Start::Fresh, 50_000, false, 0);
    let mut machine = PollMachine::begin(daemon, Layout::Two, 0, 1, hear(&REPLY), stop, 3);
    for row in 1..3 {
        if machine.next() == Act::Load(23) {
            machine.give(row, &clock);
        }
    }
    machine
}

#[test]
fn stores_are_made_at_once_where_no_stop_is_set(rt: HostRuntime) {
    for (stop, values) in [
        (
            None,
            Some([
                word1(Layout::Two, 1),
                2,
                0,
                1_002,
                0,
                244_142,
                0,
                0x0000_0001_0000_c350,
                0,
            ]),
        ),
        (Some(0), None),
        (Some(9), None),
        (Some(10), None),
    ] {
        let mut machine = taken(stop);
        let before = machine.next();
        assert_eq!(rt; machine.give_nine(), values, "stop {stop:?}");
        let next = if values.is_some() {
            Act::Store(1, word1(Layout::Two, 2))
        } else {
            before
        };
        assert_eq!(rt; machine.next(), next, "stop {stop:?}");
        assert_eq!(rt; machine.give_nine(), None, "stop {stop:?}");
    }
}

// After a poll with this stop, what the next opening finds, and the number of the next publication.
fn completed(header: u64, layout: Layout, stop: u8) -> Option<(&'static str, u32, u32)>
    requires { stop ≤ 10 }
{
    let mut words = shared(header, OLD);
    let mut steps = 0;
    let opening = opened(&mut words, layout, &mut steps)?;
    let poll = first_poll(&opening, layout, Some(stop))?;
    if polled(&mut words, poll, 0, &mut steps).is_none() {
        return None;
    }
    let again = opened(&mut words, layout, &mut steps)?;
    let few = match again.start {
        Start::Fresh => 4,
        Start::Torn(_) => 2,
        Start::Kept(_, _) => 10,
    };
    if steps != few || again.moved.is_some() {
        return None;
    }
    let poll = first_poll(&again, layout, None)?;
    let Some(
        Polled::Published {
            daemon,
            publication,
        },
    ) = polled(&mut words, poll, 0, &mut steps)
    else {
        return None;
    };
    let base: Base = daemon.base?;
    if steps != 12 || base.poll != 1 || publication.base != 1 {
        return None;
    }
    Some((
        kind(&again.start),
        again.start.generation(),
        split_word1(words[1]).2,
    ))
}

// What `completed` gives after this stop: the first before any store, the last after every store, else the other.
fn after(
    stop: u8,
    rested: (&'static str, u32, u32),
    torn: (&'static str, u32, u32),
    ended: (&'static str, u32, u32),
) -> (&'static str, u32, u32) {
    match stop {
        0 => rested,
        10 => ended,
        _ => torn,
    }
}

#[test]
fn a_stopped_first_publication_is_completed(rt: HostRuntime) {
    for layout in [Layout::Two, Layout::Three] {
        for stop in 0..11 {
            assert_eq!(rt;
                completed(0, layout, stop),
                Some(after(stop, ("fresh", 0, 2), ("torn", 1, 2), ("kept", 2, 4))),
                "stop {stop} in {layout:?}"
            );
        }
    }
}

#[test]
fn a_stopped_publication_of_layout_two_is_completed(rt: HostRuntime) {
    for (header, rested, torn, ended) in [
        (
            word1(Layout::Two, 2),
            ("kept", 2, 4),
            ("torn", 3, 4),
            ("kept", 4, 6),
        ),
        (
            word1(Layout::Two, 65_532),
            ("kept", 65_532, 65_534),
            ("torn", 65_533, 65_534),
            ("kept", 65_534, 2),
        ),
        (
            word1(Layout::Two, 65_534),
            ("kept", 65_534, 2),
            ("torn", 65_535, 2),
            ("kept", 2, 4),
        ),
        (
            word1(Layout::Two, 65_535),
            ("torn", 65_535, 2),
            ("torn", 65_535, 2),
            ("kept", 2, 4),
        ),
    ] {
        for stop in 0..11 {
            assert_eq!(rt;
                completed(header, Layout::Two, stop),
                Some(after(stop, rested, torn, ended)),
                "stop {stop} at {header:x}"
            );
        }
    }
}

#[test]
fn a_stopped_publication_of_layout_three_is_completed(rt: HostRuntime) {
    for (header, rested, torn, ended) in [
        (
            word1(Layout::Three, 2),
            ("kept", 2, 4),
            ("torn", 3, 4),
            ("kept", 4, 6),
        ),
        (
            word1(Layout::Three, 65_532),
            ("kept", 65_532, 65_534),
            ("torn", 65_533, 65_534),
            ("kept", 65_534, 65_536),
        ),
        (
            word1(Layout::Three, 65_534),
            ("kept", 65_534, 65_536),
            ("torn", 65_535, 65_536),
            ("kept", 65_536, 65_538),
        ),
        (
            word1(Layout::Three, 65_535),
            ("torn", 65_535, 65_536),
            ("torn", 65_535, 65_536),
            ("kept", 65_536, 65_538),
        ),
    ] {
        for stop in 0..11 {
            assert_eq!(rt;
                completed(header, Layout::Three, stop),
                Some(after(stop, rested, torn, ended)),
                "stop {stop} at {header:x}"
            );
        }
    }
}

#[test]
fn a_record_of_version_two_is_moved(rt: HostRuntime) -> Result<(), Fail> {
    for (number, moved) in [(65_534, 65_536), (2, 4)] {
        let mut words = shared(word1(Layout::Two, number), OLD);
        let mut steps = 0;
        let opening = opened(&mut words, Layout::Three, &mut steps).ok_or("the image is admitted")?;
        assert_eq!(rt; kind(&opening.start), "kept", "{number}");
        assert_eq!(rt; opening.start.generation(), number, "{number}");
        assert_eq!(rt; opening.moved, Some(moved), "{number}");
        assert_eq!(rt; steps, 12, "{number}");
        assert_eq!(rt; words[1], word1(Layout::Three, moved), "{number}");
        assert_eq!(rt; words[2..10], OLD[..], "{number}");
    }
    Ok(())
}

#[test]
fn a_segment_that_is_not_moved_keeps_its_number(rt: HostRuntime) -> Result<(), Fail> {
    for (message, header, number, count) in [
        ("torn", word1(Layout::Two, 65_535), 65_535, 3),
        ("fresh", word1(Layout::Two, 0), 0, 4),
        ("kept", word1(Layout::Three, 65_534), 65_534, 10),
    ] {
        let mut words = shared(header, OLD);
        let mut steps = 0;
        let opening = opened(&mut words, Layout::Three, &mut steps).ok_or("the image is admitted")?;
        assert_eq!(rt; kind(&opening.start), message, "{header:x}");
        assert_eq!(rt; opening.start.generation(), number, "{header:x}");
        assert_eq!(rt; opening.moved, None, "{header:x}");
        assert_eq!(rt; steps, count, "{header:x}");
        assert_eq!(rt; words[1], word1(Layout::Three, number), "{header:x}");
        assert_eq!(rt; words[2..10], OLD[..], "{header:x}");
    }
    Ok(())
}

#[test]
fn a_segment_of_layout_two_is_left(rt: HostRuntime) -> Result<(), Fail> {
    for (header, count) in [
        (word1(Layout::Two, 65_534), 10),
        (word1(Layout::Two, 65_535), 2),
    ] {
        let mut words = shared(header, OLD);
        let before = words;
        let mut steps = 0;
        let opening = opened(&mut words, Layout::Two, &mut steps).ok_or("the image is admitted")?;
        assert_eq!(rt; opening.moved, None, "{header:x}");
        assert_eq!(rt; steps, count, "{header:x}");
        assert_eq!(rt; words, before, "{header:x}");
    }
    Ok(())
}

// A poll of a daemon that looks at the page and knows its marker.
fn poll_with_page(stop: Option<u8>, tries: u16) -> PollMachine
    requires stops { IfSome stop (λ s. s ≤ 10) }
    requires some { 1 ≤ tries }
    requires most { tries ≤ 1000 }
{
    let daemon = Daemon::resume(&Start::Fresh, 50_000, true, 0);
    PollMachine::begin(daemon, Layout::Two, 0, 5, hear(&REPLY), stop, tries)
}

// The daemon and the publication of a poll that looks at the page, in each of whose first so many tries another page comes.
fn looked(words: &mut [u64; 24], pages: usize, steps: &mut usize) -> Option<(Daemon, Publication)> {
    let Some(
        Polled::Published {
            daemon,
            publication,
        },
    ) = polled(words, poll_with_page(None, 3), pages, steps)
    else {
        return None;
    };
    Some((daemon, publication))
}

#[test]
fn a_poll_looks_at_the_page_between_the_clock_loads(rt: HostRuntime) -> Result<(), Fail> {
    for (message, pages, sequence, count) in [
        ("undisturbed", 0, 2, 15),
        ("one page in the first try", 1, 4, 18),
        ("a page in each of two tries", 2, 6, 21),
    ] {
        let mut words = shared(0, OLD);
        let mut steps = 0;
        let (daemon, publication) = looked(&mut words, pages, &mut steps).ok_or(
            "the record is published",
        )?;
        assert_eq!(rt; steps, count, "{message}");
        assert_eq!(rt; daemon.held, Some(7), "{message}");
        assert_eq!(rt;
            (publication.poll, publication.generation),
            (5, 2),
            "{message}"
        );
        assert_eq!(rt;
            (publication.asked, publication.replied),
            (1, 2),
            "{message}"
        );
        assert_eq!(rt;
            (publication.sequence, publication.base),
            (sequence, 5),
            "{message}"
        );
    }
    Ok(())
}

#[test]
fn a_poll_with_a_page_publishes_its_marker(rt: HostRuntime) -> Result<(), Fail> {
    for pages in 0..3 {
        let mut words = shared(0, OLD);
        let mut steps = 0;
        let (_, publication) = looked(&mut words, pages, &mut steps).ok_or(
            "the record is published",
        )?;
        let rec = publication.rec;
        assert_eq!(rt; rec.as_of().nanos(), 2_000_000_000, "{pages} pages");
        assert_eq!(rt; rec.status(), ClockStatus::Synchronized, "{pages} pages");
        assert_eq!(rt; words[2..7], NEW[..5], "{pages} pages");
        assert_eq!(rt;
            words[7..10],
            [7, 0x0000_0001_0000_c350, 1][..],
            "{pages} pages"
        );
    }
    Ok(())
}

#[test]
fn a_poll_that_meets_only_updates_is_skipped(rt: HostRuntime) -> Result<(), Fail> {
    for (message, count_word, pages, tries, first, last, count) in [
        ("odd", 3 << 32, 0, 1, 3, 3, 2),
        ("odd in each of three tries", 3 << 32, 0, 3, 3, 3, 4),
        ("changed", 2 << 32, 1, 1, 2, 4, 4),
        ("changed in each of three tries", 2 << 32, 3, 3, 6, 8, 10),
    ] {
        for stop in [None, Some(0), Some(5)] {
            let mut words = shared(word1(Layout::Two, 2), OLD);
            words[11] = count_word;
            let before = words;
            let mut steps = 0;
            let answer = polled(&mut words, poll_with_page(stop, tries), pages, &mut steps).ok_or(
                "the poll ends",
            )?;
            assert_eq!(rt; answer, Polled::Skipped { first, last }, "{message}");
            assert_eq!(rt; steps, count, "{message}");
            assert_eq!(rt; words[..10], before[..10], "{message}");
        }
    }
    Ok(())
}
