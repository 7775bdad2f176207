use super::*;
use clock_gate::{ClockStatus, Reading, Stamp};
use segment_layout::Record;

const REAL: u64 = 1_700_000_000_000_000_000;

// As-of 1 s, void-after 1,001 s, bound 244,142, marker 7, drift 50,000, Synchronized, with support.
fn record() -> Option<Record> {
    let as_of = Stamp::new(1, 0)?;
    let void_after = Stamp::new(1_001, 0)?;
    Record::new(
        as_of,
        void_after,
        244_142,
        7,
        50_000,
        ClockStatus::Synchronized,
        true,
    )
}

fn told(half: u32, status: ClockStatus) -> (i128, i128, ClockStatus) {
    let real = i128::from(REAL);
    (real - i128::from(half), real + i128::from(half), status)
}

#[test]
fn widths_and_statuses_at_readings(rt: HostRuntime) {
    for (mono, marker, half, status) in [
        (1_000_000_001, Some(7), 244_143, ClockStatus::Synchronized),
        (5_999_999_999, Some(7), 494_142, ClockStatus::Synchronized),
        (6_000_000_000, Some(7), 494_142, ClockStatus::FreeRunning),
        (
            1_000_999_999_999,
            Some(7),
            50_244_142,
            ClockStatus::FreeRunning,
        ),
        (1_001_000_000_000, Some(7), 50_244_142, ClockStatus::Unknown),
        (
            1_001_000_000_000,
            Some(8),
            50_244_142,
            ClockStatus::Disrupted,
        ),
        (1_001_000_000_000, None, 50_244_142, ClockStatus::Unknown),
        (999_999_000, Some(7), 244_142, ClockStatus::Synchronized),
    ] {
        let reading = Reading {
            row: 1,
            mono,
            real: REAL,
        };
        let answer = record().and_then(|rec| interval(&rec, reading, marker).ok());
        let found = answer.map(|found| (found.earliest, found.latest, found.status));
        assert_eq!(rt; found, Some(told(half, status)), "{mono}, page {marker:?}");
    }
}

#[test]
fn a_reading_before_the_record_breaks_causality(rt: HostRuntime) {
    let reading = Reading {
        row: 1,
        mono: 999_998_999,
        real: REAL,
    };
    let answer = record().map(|rec| interval(&rec, reading, Some(7)));
    let before = answer.and_then(|answer| answer.err());
    assert_eq!(rt;
        before.map(|before| (before.as_of.nanos(), before.mono)),
        Some((1_000_000_000, 999_998_999))
    );
}
