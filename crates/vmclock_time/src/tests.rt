ghost use Rattle.vmclock_time.specs.Reads.{BeginsWithPage};

use crate::{PageFailed, PageRow, PageTimeFault, PageTold, PageWhy, page_report, page_time};
use clock_gate::Memory;
use std::alloc::Global;
use vmclock_page::Page;

const MOST: u64 = u64::MAX;

// A counter of about 2^30 ticks a second, half a second after 1,700,000,000 s.
fn page() -> Page {
    Page {
        size: 104,
        counter_id: 1,
        time_type: 0,
        seq_count: 2,
        disruption_marker: 7,
        flags: 0,
        clock_status: 2,
        leap_second_smearing_hint: 0,
        tai_offset_sec: 0,
        leap_indicator: 0,
        counter_period_shift: 0,
        counter_value: 0,
        counter_period_frac_sec: 17_179_869_184,
        counter_period_esterror_rate_frac_sec: 0,
        counter_period_maxerror_rate_frac_sec: 16_384,
        time_sec: 1_700_000_000,
        time_frac_sec: 9_223_372_036_854_775_808,
        time_esterror_nanosec: 0,
        time_maxerror_nanosec: 1_000,
    }
}

// True time at the page's counter value, as the page tells it.
const STARTED: u64 = 1_700_000_000_500_000_000;

fn with_time(time_sec: u64, time_frac_sec: u64, time_maxerror_nanosec: u64) -> Page {
    Page {
        time_sec,
        time_frac_sec,
        time_maxerror_nanosec,
        ..page()
    }
}

fn with_pace(shift: u8, period: u64, rate: u64) -> Page {
    Page {
        counter_period_shift: shift,
        counter_period_frac_sec: period,
        counter_period_maxerror_rate_frac_sec: rate,
        ..page()
    }
}

#[test]
fn a_reading_is_told_its_interval(rt: HostRuntime) {
    let page = page();
    for (reading, want) in [
        (
            0,
            Ok((1_700_000_000_499_999_000, 1_700_000_000_500_001_000)),
        ),
        (
            1,
            Ok((1_700_000_000_499_999_000, 1_700_000_000_500_001_001)),
        ),
        (
            1_073_741_824,
            Ok((1_700_000_001_499_998_046, 1_700_000_001_500_001_954)),
        ),
        (
            1_125_899_906_842_624,
            Ok((1_701_048_575_499_999_000, 1_701_048_577_500_001_000)),
        ),
        (1_125_899_906_842_625, Err(PageTimeFault::TooFar)),
    ] {
        assert_eq!(rt; page_time(&page, reading), want, "reading {reading}");
    }
}

// The expected numbers are those of exact fractions, here and in the three tests that follow.
#[test]
fn the_error_is_taken_off_and_added(rt: HostRuntime) {
    let cases: [(u64, u64, u64, i128, i128); 3] = [
        (
            1_700_000_000,
            1 << 63,
            MOST,
            -16_746_744_073_209_551_615,
            20_146_744_074_209_551_615,
        ),
        (0, 0, 1_000, -1_000, 1_000),
        (0, 0, 0, 0, 0),
    ];
    for (seconds, part, error, earliest, latest) in cases {
        assert_eq!(rt;
            page_time(&with_time(seconds, part, error), 0),
            Ok((earliest, latest)),
            "{seconds} s {part} +- {error} ns"
        );
    }
}

#[test]
fn a_part_of_a_nanosecond_widens_the_interval(rt: HostRuntime) {
    let cases: [(u64, u64, u64, i128, i128); 3] = [
        (
            4_000_000_000,
            MOST,
            1_000,
            4_000_000_000_999_998_999,
            4_000_000_001_000_001_000,
        ),
        (
            1_700_000_000,
            MOST,
            0,
            1_700_000_000_999_999_999,
            1_700_000_001_000_000_000,
        ),
        (
            1_700_000_000,
            1,
            0,
            1_700_000_000_000_000_000,
            1_700_000_000_000_000_001,
        ),
    ];
    for (seconds, part, error, earliest, latest) in cases {
        assert_eq!(rt;
            page_time(&with_time(seconds, part, error), 0),
            Ok((earliest, latest)),
            "{seconds} s {part} +- {error} ns"
        );
    }
}

#[test]
fn the_farthest_reading_is_told_its_interval(rt: HostRuntime) {
    let cases: [(u8, u64, u64, u64, i128, i128); 3] = [
        (
            40,
            MOST,
            MOST,
            1 << 60,
            1_700_000_000_499_999_000,
            1_702_097_152_500_001_000,
        ),
        (
            40,
            MOST,
            0,
            1 << 60,
            1_701_048_576_499_998_999,
            1_701_048_576_500_001_000,
        ),
        (
            40,
            0,
            1 << 63,
            1 << 61,
            1_698_951_424_499_999_000,
            1_701_048_576_500_001_000,
        ),
    ];
    for (shift, period, rate, reading, earliest, latest) in cases {
        assert_eq!(rt;
            page_time(&with_pace(shift, period, rate), reading),
            Ok((earliest, latest)),
            "{reading} ticks of {period} +- {rate} at {shift}"
        );
    }
}

#[test]
fn the_last_reading_of_a_least_period_is_told_its_interval(rt: HostRuntime) {
    let cases: [(u8, u64, u64, u64, i128, i128); 3] = [
        (
            0,
            1,
            1,
            MOST,
            1_700_000_000_499_999_000,
            1_700_000_002_500_001_000,
        ),
        (
            0,
            0,
            0,
            MOST,
            1_700_000_000_499_999_000,
            1_700_000_000_500_001_000,
        ),
        (
            40,
            1,
            0,
            MOST,
            1_700_000_000_499_999_000,
            1_700_000_000_500_001_001,
        ),
    ];
    for (shift, period, rate, reading, earliest, latest) in cases {
        assert_eq!(rt;
            page_time(&with_pace(shift, period, rate), reading),
            Ok((earliest, latest)),
            "{reading} ticks of {period} +- {rate} at {shift}"
        );
    }
}

#[test]
fn a_page_is_refused_by_its_first_fault(rt: HostRuntime) {
    let last = Page {
        counter_value: MOST,
        ..page()
    };
    assert!(rt; page_time(&last, MOST).is_ok());
    assert_eq!(rt; page_time(&last, MOST - 1), Err(PageTimeFault::Back));
    let wrong = Page {
        time_type: 1,
        clock_status: 1,
        counter_period_shift: 41,
        time_sec: 4_000_000_001,
        ..last
    };
    assert_eq!(rt; page_time(&wrong, 0), Err(PageTimeFault::TimeType(1)));
    let wrong = Page {
        time_type: 0,
        ..wrong
    };
    assert_eq!(rt; page_time(&wrong, 0), Err(PageTimeFault::Status(1)));
    let wrong = Page {
        clock_status: 3,
        ..wrong
    };
    assert_eq!(rt; page_time(&wrong, 0), Err(PageTimeFault::Shift(41)));
    let wrong = Page {
        counter_period_shift: 40,
        ..wrong
    };
    assert_eq!(rt;
        page_time(&wrong, 0),
        Err(PageTimeFault::Range(4_000_000_001))
    );
    let wrong = Page {
        time_sec: 4_000_000_000,
        ..wrong
    };
    assert_eq!(rt; page_time(&wrong, 0), Err(PageTimeFault::Back));
}

#[test]
fn each_status_and_each_shift(rt: HostRuntime) {
    for status in 0..=255 {
        let page = Page {
            clock_status: status,
            ..page()
        };
        let want = match status {
            2 | 3 => None,
            _ => Some(PageTimeFault::Status(status)),
        };
        assert_eq!(rt; page_time(&page, 0).err(), want);
    }
    for shift in 0..=255 {
        let want = match shift {
            0..=40 => None,
            _ => Some(PageTimeFault::Shift(shift)),
        };
        assert_eq!(rt; page_time(&with_pace(shift, 1, 1), 0).err(), want);
    }
}

#[test]
fn the_greater_of_period_and_error_is_too_far(rt: HostRuntime) {
    let cases: [(u8, u64, u64, u64, bool); 6] = [
        (40, MOST, 0, (1 << 60) + 1, true),
        (40, 0, MOST, (1 << 60) + 1, true),
        (40, 1 << 63, 1 << 63, 1 << 61, false),
        (40, 1 << 63, (1 << 63) + 1, 1 << 61, true),
        (0, 1, 17_179_869_184, 1 << 50, false),
        (0, 1, 17_179_869_185, 1 << 50, true),
    ];
    for (shift, period, rate, reading, far) in cases {
        assert_eq!(rt;
            page_time(&with_pace(shift, period, rate), reading).err(),
            far.then_some(PageTimeFault::TooFar),
            "{reading} ticks of {period} +- {rate} at {shift}"
        );
    }
}

// The failure of a report of one page and one read.
fn failure(
    alloc: Global,
    started: Option<u64>,
    counter: u64,
    truth: Option<u64>,
) -> Result<Option<PageFailed>, Memory> {
    let rows = [
        PageRow::Page {
            page: page(),
            truth: started,
        },
        PageRow::Read { counter, truth },
    ];
    Ok(page_report(alloc, &rows)?.failed)
}

#[test]
fn a_read_is_held_within_the_rate_error_of_its_page(rt: HostRuntime) {
    let second = 1_073_741_824;
    let after = STARTED + 1_000_000_000;
    for (message, truth, want) in [
        ("held", after + 900, None),
        ("as late as can be", after + 953, None),
        ("as early as can be", after - 953, None),
        ("late", after + 954, Some(PageWhy::Rate)),
        ("early", after - 954, Some(PageWhy::Rate)),
    ] {
        let want = want.map(|why| PageFailed { read: 1, why });
        assert!(rt;
            failure(rt.alloc(), Some(STARTED), second, Some(truth)) == Ok(want),
            "{message}"
        );
    }
}

#[test]
fn a_page_is_held_within_its_own_error(rt: HostRuntime) {
    for (message, started, truth, want) in [
        ("late", STARTED + 1_000, STARTED + 1_000, None),
        ("early", STARTED - 1_000, STARTED - 1_000, None),
        (
            "too late",
            STARTED + 1_001,
            STARTED + 1_001,
            Some(PageWhy::Page),
        ),
        ("too early", STARTED - 1_001, STARTED, Some(PageWhy::Page)),
        ("true time at 0", 0, 0, Some(PageWhy::Page)),
    ] {
        let want = want.map(|why| PageFailed { read: 1, why });
        assert!(rt;
            failure(rt.alloc(), Some(started), 0, Some(truth)) == Ok(want),
            "{message}"
        );
    }
}

#[test]
fn a_read_whose_true_time_is_untold_fails_unless_refused(rt: HostRuntime) {
    for (message, started, counter, truth, want) in [
        ("no start", None, 0, Some(STARTED), Some(PageWhy::Untold)),
        ("no truth", Some(STARTED), 0, None, Some(PageWhy::Untold)),
        (
            "no truth, and the page too late",
            Some(STARTED + 1_001),
            0,
            None,
            Some(PageWhy::Untold),
        ),
        ("refused", None, MOST, None, None),
    ] {
        let want = want.map(|why| PageFailed { read: 1, why });
        assert!(rt;
            failure(rt.alloc(), started, counter, truth) == Ok(want),
            "{message}"
        );
    }
}

// Two pages, of which the second begins at the counter value 10, with a read too early for it.
fn rows_of_two_pages() -> [PageRow; 6]
    ensures { BeginsWithPage result }
{
    let started = Some(STARTED);
    let later = Page {
        counter_value: 10,
        ..page()
    };
    [
        PageRow::Page {
            page: page(),
            truth: started,
        },
        PageRow::Read {
            counter: 0,
            truth: started,
        },
        PageRow::Page {
            page: later,
            truth: started,
        },
        PageRow::Read {
            counter: 9,
            truth: None,
        },
        PageRow::Read {
            counter: 10,
            truth: Some(STARTED + 1),
        },
        PageRow::Read {
            counter: 10,
            truth: None,
        },
    ]
}

#[test]
fn the_first_failure_is_named_and_refused_reads_are_counted(rt: HostRuntime) -> Result<(), Memory> {
    let report = page_report(rt.alloc(), &rows_of_two_pages())?;
    let time = PageTold::Time {
        earliest: 1_700_000_000_499_999_000,
        latest: 1_700_000_000_500_001_000,
    };
    let told = [time, PageTold::Refused(PageTimeFault::Back), time, time];
    assert!(rt; report.told.as_slice() == told.as_slice());
    let failed = PageFailed {
        read: 3,
        why: PageWhy::Rate,
    };
    assert_eq!(rt; report.failed, Some(failed));
    Ok(())
}

#[test]
fn no_rows_and_no_reads_are_held(rt: HostRuntime) -> Result<(), Memory> {
    let report = page_report(rt.alloc(), &[])?;
    assert!(rt; report.told.is_empty());
    assert_eq!(rt; report.failed, None);
    let rows = [PageRow::Page {
        page: page(),
        truth: None,
    }];
    let report = page_report(rt.alloc(), &rows)?;
    assert!(rt; report.told.is_empty());
    assert_eq!(rt; report.failed, None);
    Ok(())
}
