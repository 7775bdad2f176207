ghost use Rattle.std.specs.Prelude.{◌≡◌, ◌<◌};

use super::*;
use clock_gate::{ClockStatus, Reading, Stamp};
use segment_layout::{Record, Start};

// A reply that is good: its leap is 0, its bound 244,142 ns, its reference time 0x65000000 s.
const REPLY: [u8; 104] = [
    6, 2, 0, 0, 0, 0x21, 0, 5, 0, 0, 0, 0, 0, 0, 0, 0, 0, 0, 0, 1, 0, 0, 0, 0, 0, 0, 0, 0, 0xa9,
    0xfe, 0xa9, 0x7b, 0xa9, 0xfe, 0xa9, 0x7b, 0, 0, 0, 0, 0, 0, 0, 0, 0, 0, 0, 0, 0, 1, 0, 0, 0, 4,
    0, 0, 0, 0, 0, 0, 0x65, 0, 0, 0, 0, 0, 0, 0, 0xf7, 0xff, 0xff, 0xff, 0, 0, 0, 0, 0, 0, 0, 0, 0,
    0, 0, 0, 0, 0, 0, 0, 0, 0, 0, 0, 0xec, 0x80, 0, 0, 0xea, 0x80, 0, 0, 0, 0, 0, 0,
];

// The reply with one byte changed.
fn changed(place: usize, byte: u8) -> [u8; 104]
    requires { place < 104 }
{
    let mut bytes = REPLY;
    bytes[place] = byte;
    bytes
}

// A poll at 1 s.
fn poll(number: u32, marker: Option<u64>, reply: &[u8]) -> Poll
    ensures marker { result.marker ≡ marker }
    ensures moment { result.reading.mono ≡ 1000000000 }
{
    Poll {
        number,
        reading: Reading {
            row: 1,
            mono: 1_000_000_000,
            real: 1_700_000_000_000_000_000,
        },
        marker,
        heard: hear(reply),
    }
}

fn base_number(daemon: &Daemon) -> Option<u32> {
    daemon.base.as_ref().map(|base| base.poll)
}

#[test]
fn replies_that_are_not_good_leave_the_base(rt: HostRuntime) {
    let mut longer = [0; 120];
    longer[..104].copy_from_slice(&REPLY);
    let status_one = changed(9, 1);
    let leap_three = changed(55, 3);
    let mut daemon = Daemon::resume(&Start::Fresh, 50_000, false, 0);
    'polls: for (number, message, reply, status, base) in [
        (1, "good", &REPLY[..], ClockStatus::Synchronized, 1),
        (
            2,
            "one byte short",
            &REPLY[..103],
            ClockStatus::FreeRunning,
            1,
        ),
        (
            3,
            "16 bytes more",
            &longer[..],
            ClockStatus::Synchronized,
            3,
        ),
        (4, "status 1", &status_one[..], ClockStatus::FreeRunning, 3),
        (5, "leap 3", &leap_three[..], ClockStatus::FreeRunning, 3),
    ] {
        let rec = daemon.step(&poll(number, None, reply));
        assert_eq!(rt; rec.status(), status, "{message}");
        assert_eq!(rt; base_number(&daemon), Some(base), "{message}");
    }
}

#[test]
fn another_reference_time_absorbs_a_mark(rt: HostRuntime) {
    let later = changed(63, 1);
    let mut daemon = Daemon::resume(&Start::Fresh, 50_000, true, 0);
    'polls: for (number, page, reply, status, marker, base) in [
        (1, 7, &REPLY[..], ClockStatus::Synchronized, 7, 1),
        (2, 8, &later[..], ClockStatus::Disrupted, 8, 1),
        (3, 8, &later[..], ClockStatus::Disrupted, 8, 1),
        (4, 8, &REPLY[..], ClockStatus::Synchronized, 8, 4),
    ] {
        let rec = daemon.step(&poll(number, Some(page), reply));
        assert_eq!(rt; rec.status(), status, "poll {number}");
        assert_eq!(rt; rec.marker(), marker, "poll {number}");
        assert_eq!(rt; base_number(&daemon), Some(base), "poll {number}");
    }
}

// A record of marker 7 whose bound holds from 1 s on.
fn kept(status: ClockStatus, support: bool) -> Option<Start> {
    let as_of = Stamp::new(1, 0)?;
    let void_after = Stamp::new(1_001, 0)?;
    let rec = Record::new(as_of, void_after, 244_142, 7, 50_000, status, support)?;
    Some(Start::Kept(2, rec))
}

// The status and the base number after the first poll, where the kept record came from poll 9.
fn first_poll(start: &Start, page: Option<u64>, reply: &[u8]) -> (ClockStatus, Option<u32>) {
    let mut daemon = Daemon::resume(start, 50_000, page.is_some(), 9);
    let rec = daemon.step(&poll(1, page, reply));
    (rec.status(), base_number(&daemon))
}

#[test]
fn the_first_poll_after_a_start_without_a_record(rt: HostRuntime) {
    let synchronized = (ClockStatus::Synchronized, Some(1));
    let unknown = (ClockStatus::Unknown, None);
    let disrupted = (ClockStatus::Disrupted, None);
    for (message, start, page, good, missing) in [
        ("fresh, no page", Start::Fresh, None, synchronized, unknown),
        (
            "fresh, a page",
            Start::Fresh,
            Some(7),
            synchronized,
            unknown,
        ),
        ("torn, no page", Start::Torn(3), None, synchronized, unknown),
        (
            "torn, a page",
            Start::Torn(3),
            Some(7),
            disrupted,
            disrupted,
        ),
    ] {
        assert_eq!(rt; first_poll(&start, page, &REPLY), good, "{message}");
        assert_eq!(rt; first_poll(&start, page, &[]), missing, "{message}");
    }
}

#[test]
fn the_first_poll_after_an_unknown_record(rt: HostRuntime) {
    let synchronized = (ClockStatus::Synchronized, Some(1));
    let unknown = (ClockStatus::Unknown, None);
    let disrupted = (ClockStatus::Disrupted, None);
    for (support, page, good, missing) in [
        (false, None, synchronized, unknown),
        (false, Some(7), disrupted, disrupted),
        (true, None, synchronized, unknown),
        (true, Some(7), synchronized, unknown),
        (true, Some(8), disrupted, disrupted),
    ] {
        let start = kept(ClockStatus::Unknown, support);
        let found = start.as_ref().map(|start| first_poll(start, page, &REPLY));
        assert_eq!(rt; found, Some(good), "{support}, {page:?}, a good poll");
        let found = start.as_ref().map(|start| first_poll(start, page, &[]));
        assert_eq!(rt; found, Some(missing), "{support}, {page:?}, no reply");
    }
}

#[test]
fn the_first_poll_after_a_synchronized_record(rt: HostRuntime) {
    let synchronized = (ClockStatus::Synchronized, Some(1));
    let free_running = (ClockStatus::FreeRunning, Some(9));
    let disrupted = (ClockStatus::Disrupted, Some(9));
    for (support, page, good, missing) in [
        (false, None, synchronized, free_running),
        (false, Some(7), disrupted, disrupted),
        (true, None, synchronized, free_running),
        (true, Some(7), synchronized, free_running),
        (true, Some(8), disrupted, disrupted),
    ] {
        let start = kept(ClockStatus::Synchronized, support);
        let found = start.as_ref().map(|start| first_poll(start, page, &REPLY));
        assert_eq!(rt; found, Some(good), "{support}, {page:?}, a good poll");
        let found = start.as_ref().map(|start| first_poll(start, page, &[]));
        assert_eq!(rt; found, Some(missing), "{support}, {page:?}, no reply");
    }
}

#[test]
fn the_first_poll_after_a_free_running_record(rt: HostRuntime) {
    let synchronized = (ClockStatus::Synchronized, Some(1));
    let free_running = (ClockStatus::FreeRunning, Some(9));
    let disrupted = (ClockStatus::Disrupted, Some(9));
    for (support, page, good, missing) in [
        (false, None, synchronized, free_running),
        (false, Some(7), disrupted, disrupted),
        (true, None, synchronized, free_running),
        (true, Some(7), synchronized, free_running),
        (true, Some(8), disrupted, disrupted),
    ] {
        let start = kept(ClockStatus::FreeRunning, support);
        let found = start.as_ref().map(|start| first_poll(start, page, &REPLY));
        assert_eq!(rt; found, Some(good), "{support}, {page:?}, a good poll");
        let found = start.as_ref().map(|start| first_poll(start, page, &[]));
        assert_eq!(rt; found, Some(missing), "{support}, {page:?}, no reply");
    }
}

#[test]
fn the_first_poll_after_a_disrupted_record(rt: HostRuntime) {
    let disrupted = (ClockStatus::Disrupted, Some(9));
    for (support, page, good, missing) in [
        (false, None, disrupted, disrupted),
        (false, Some(7), disrupted, disrupted),
        (true, None, disrupted, disrupted),
        (true, Some(7), disrupted, disrupted),
        (true, Some(8), disrupted, disrupted),
    ] {
        let start = kept(ClockStatus::Disrupted, support);
        let found = start.as_ref().map(|start| first_poll(start, page, &REPLY));
        assert_eq!(rt; found, Some(good), "{support}, {page:?}, a good poll");
        let found = start.as_ref().map(|start| first_poll(start, page, &[]));
        assert_eq!(rt; found, Some(missing), "{support}, {page:?}, no reply");
    }
}

#[test]
fn the_records_of_a_list_of_polls(rt: HostRuntime) {
    let later = changed(63, 1);
    let polls = [
        poll(1, Some(7), &REPLY),
        poll(2, Some(8), &later),
        poll(3, Some(8), &REPLY),
    ];
    let found = records(rt.alloc(), &Start::Fresh, 50_000, true, 0, &polls).ok();
    assert_eq!(rt; found.as_ref().map(|found| found.len()), Some(3));
    for (index, status) in [
        (0, ClockStatus::Synchronized),
        (1, ClockStatus::Disrupted),
        (2, ClockStatus::Synchronized),
    ] {
        let rec = found.as_ref().and_then(|found| found.get(index));
        assert_eq!(rt; rec.map(|rec| rec.status()), Some(status), "record {index}");
    }
}
