// `threads` over sources and sinks in memory, with real threads.
use super::*;
use crate::tests::{TRACE, outside, refused, served, trace_of, words};
use clock_gate::{Gate, List, MemSink, MemSource, NoGate};
use csv_records::Reason;
use live_report::{MOST_LINES, report};
use read_runs::read_runs_laws;
use std::alloc::Global;
use std::hint;
use std::process::Abort;
use std::sync::Wait;
use std::sync::atomic::{AtomicU64, Ordering};
use std::test::Fail;
use std::thread::Threads;
use trace_reader::read_trace;

// As many workers as clients, one, and at most two.
const WORDS: [&[&str]; 3] = [
    &["threads"],
    &["threads", "--workers", "1"],
    &["threads", "--workers", "2"],
];

// How a run ended, what was written, and its lines.
#[derive(Drop)]
pub(crate) struct Told {
    pub status: Status,
    pub written: Vec<u8>,
    pub lines: Option<Lines>,
}

// What these words come to between this source and this sink.
pub(crate) fn threaded<R: Threads + Wait + Sync, G: Gate + Sync>(
    rt: &R,
    alloc: Global,
    given: &[&str],
    outside: (MemSource, MemSink),
    gate: &G,
) -> Result<Told, Fail> {
    let words = words(alloc, given)?;
    let (mut source, mut sink) = outside;
    let served = serve_threads(rt, alloc, &words, &mut source, &mut sink, gate);
    let Served { status, table, ran } = served;
    if table.is_some() != ran.is_some() {
        return Err(Fail::from("a table belongs to a run"));
    }
    let lines = match ran {
        Some(ran) => Some(ran.lines),
        None => None,
    };
    let written = sink.bytes().to_vec(alloc)?;
    Ok(Told {
        status,
        written,
        lines,
    })
}

// The report of the lines of a run of this trace.
fn printed(alloc: Global, text: &[u8], lines: &Lines) -> Option<List<u8>> {
    read_runs_laws();
    if lines.len() > MOST_LINES {
        return None;
    }
    match read_trace(alloc, text) {
        Ok(trace) => report(alloc, &trace, lines).ok(),
        Err(_) => None,
    }
}

// What `audit` says of this report on this trace.
fn verdict(alloc: Global, text: &[u8], report: &[u8]) -> Result<Vec<u8>, Fail> {
    let mut both = text.to_vec(alloc)?;
    both.extend_from_slice(b"report\n")?;
    both.extend_from_slice(report)?;
    let (_, written) = served(alloc, &["audit"], both.as_slice(), 65_536, &[], 100, &[])?;
    Ok(written)
}

// What a run of this trace writes. It is the report of its lines, and it is lawful.
fn report_of_run<R: Abort + Threads + Wait + Sync, G: Gate + Sync>(
    rt: &R,
    alloc: Global,
    given: &[&str],
    text: &[u8],
    gate: &G,
) -> Result<Vec<u8>, Fail> {
    let outside = outside(alloc, text, 65_536, &[], 1_000_000, &[])?;
    let told = threaded(rt, alloc, given, outside, gate)?;
    assert_eq!(rt; told.status, Status::Ok);
    let lines = told.lines.ok_or("a run")?;
    let report = printed(alloc, text, &lines).ok_or("a report")?;
    assert_eq!(rt; told.written.as_slice(), report.as_slice());
    let verdict = verdict(alloc, text, report.as_slice())?;
    assert_eq!(rt; verdict.as_slice(), b"lawful\n".as_slice());
    Ok(told.written)
}

// Traces of polls without calls, and the only report of each after its first line.
const POLLS_ALONE: [(&str, &str, &str); 4] = [
    (
        "a stop before the first store",
        "clock,1000000000,1700000000000000000\npoll,A\npoll,A,0\npoll,A\n",
        "open,1,fresh,0
pub,1,1,2,1,0,1,synchronized,1000000000,244142,0,1
stop,2,0
open,3,kept,2
pub,2,3,4,1,0,1,synchronized,1000000000,244142,0,3
total,2,0,0,0,0,0,0
",
    ),
    (
        "a stop within an update",
        "clock,1000000000,1700000000000000000\npoll,A\npoll,A,5\npoll,A\n",
        "open,1,fresh,0
pub,1,1,2,1,0,1,synchronized,1000000000,244142,0,1
stop,2,5
open,3,torn,3
pub,2,3,4,1,0,1,synchronized,1000000000,244142,0,3
total,2,0,0,0,0,0,0
",
    ),
    (
        "a stop after the last store",
        "clock,1000000000,1700000000000000000\npoll,A\npoll,A,10\npoll,A\n",
        "open,1,fresh,0
pub,1,1,2,1,0,1,synchronized,1000000000,244142,0,1
pub,2,2,4,1,0,1,synchronized,1000000000,244142,0,2
stop,2,10
open,3,kept,4
pub,3,3,6,1,0,1,synchronized,1000000000,244142,0,3
total,3,0,0,0,0,0,0
",
    ),
    (
        "an old image that is moved",
        "set,layout,3\nimage,I\nclock,2000000000,1700000001000000000\npoll,A\n",
        "open,1,kept,65534
moved,1,32768,65536
pub,32769,1,65538,1,0,1,synchronized,2000000000,244142,0,1
total,1,0,0,0,0,0,0
",
    ),
];

#[test]
fn polls_alone_have_one_report(rt: HostRuntime) -> Result<(), Fail> {
    let alloc = rt.alloc();
    for (name, lines, told) in POLLS_ALONE {
        let text = trace_of(alloc, lines)?;
        let report = format!(in alloc; "clockbound-report,1\n{told}")?;
        for given in WORDS {
            let written = report_of_run(&rt, alloc, given, text.as_bytes(), &NoGate)?;
            assert_eq!(rt; written.as_slice(), report.as_bytes(), "{name}");
        }
    }
    Ok(())
}

#[test]
fn calls_alone_have_one_report(rt: HostRuntime) -> Result<(), Fail> {
    let alloc = rt.alloc();
    for (name, lines, told) in [
        (
            "nothing is published",
            "clock,2000000000,1700000001000000000\ncall,2\ncall,1\ncall,2\n",
            "ans,1,1,notinit
ans,2,1,notinit
ans,2,2,notinit
total,0,3,0,0,0,0,0
",
        ),
        (
            "an image has a record",
            "image,I\nclock,2000000000,1700000001000000000\ncall,3\ncall,1\n",
            "ans,1,1,time,65534,1,0,synchronized,1700000000999705858,1700000001000294142
ans,3,1,time,65534,1,0,synchronized,1700000000999705858,1700000001000294142
total,0,2,2,0,2,0,0
",
        ),
    ] {
        let text = trace_of(alloc, lines)?;
        let report = format!(in alloc; "clockbound-report,1\n{told}")?;
        for given in WORDS {
            let written = report_of_run(&rt, alloc, given, text.as_bytes(), &NoGate)?;
            assert_eq!(rt; written.as_slice(), report.as_bytes(), "{name}");
        }
    }
    Ok(())
}

// The poll asks at either row of the clock and has its reply at that row or a later one. The call comes before its publication, within it
// or after it.
#[test]
fn the_first_run_ends_in_one_of_its_ways(rt: HostRuntime) -> Result<(), Fail> {
    let alloc = rt.alloc();
    for given in WORDS {
        let written = report_of_run(&rt, alloc, given, TRACE.as_bytes(), &NoGate)?;
        let mut found = false;
        for poll in [
            "1,0,1,synchronized,1000000000",
            "1,0,2,synchronized,1000000000",
            "2,0,2,synchronized,3500000000",
        ] {
            for answer in ["notinit\n", "busy,10,", "time,2,"] {
                let front = format!(in alloc;
                    "clockbound-report,1\nopen,1,fresh,0\npub,1,1,2,{poll},244142,0,1\nans,1,1,{answer}"
                )?;
                if written.as_slice().starts_with(front.as_bytes()) {
                    found = true;
                }
            }
        }
        assert!(rt; found);
    }
    Ok(())
}

#[test]
fn a_generated_day_is_run_lawfully(rt: HostRuntime) -> Result<(), Fail> {
    let alloc = rt.alloc();
    let day = ["drill", "0", "600", "--trace"].as_slice();
    let (status, text) = served(alloc, day, &[], 65_536, &[], 1_000_000, &[])?;
    assert_eq!(rt; status, Status::Ok);
    for given in WORDS {
        report_of_run(&rt, alloc, given, text.as_slice(), &NoGate)?;
    }
    Ok(())
}

// How often a worker looks before it is late.
const LIMIT: u32 = 100_000_000;

// Has the daemon and client 1 take turns, and counts how often one was late.
#[derive(Drop)]
struct InTurn {
    daemon: AtomicU64,
    client: AtomicU64,
    late: AtomicU64,
}

impl InTurn {
    fn wait(&self, other: &AtomicU64, point: u64) {
        for _ in 0..LIMIT {
            if other.load(Ordering::SeqCst) >= point {
                return;
            }
            hint::spin_loop();
        }
        self.late.fetch_add(1, Ordering::SeqCst);
    }
}

impl Gate for InTurn {
    fn pass(&self, who: u32, point: u32) {
        match (who, point) {
            (2, 2) => self.wait(&self.daemon, 3),
            (1, 4) => self.wait(&self.client, 3),
            (2, 4) => self.wait(&self.daemon, 5),
            (1, 6) => self.wait(&self.client, 5),
            _ => {}
        }
        match who {
            1 => self.daemon.store(u64::from(point), Ordering::SeqCst),
            2 => self.client.store(u64::from(point), Ordering::SeqCst),
            _ => {}
        }
    }
}

#[test]
fn a_daemon_and_a_client_that_take_turns_have_one_report(rt: HostRuntime) -> Result<(), Fail> {
    let alloc = rt.alloc();
    let lines = "clock,1000000000,1700000000000000000\npoll,A\npoll,A\npoll,A\ncall,1\ncall,1\n";
    let text = trace_of(alloc, lines)?;
    let gate = InTurn {
        daemon: AtomicU64::new(0),
        client: AtomicU64::new(0),
        late: AtomicU64::new(0),
    };
    let told = "clockbound-report,1
open,1,fresh,0
pub,1,1,2,1,0,1,synchronized,1000000000,244142,0,1
pub,2,2,4,1,0,1,synchronized,1000000000,244142,0,2
pub,3,3,6,1,0,1,synchronized,1000000000,244142,0,3
ans,1,1,time,2,1,0,synchronized,1699999999999755858,1700000000000244142
ans,1,2,time,4,1,0,synchronized,1699999999999755858,1700000000000244142
total,3,2,2,0,2,0,0
";
    let given = ["threads"].as_slice();
    let written = report_of_run(&rt, alloc, given, text.as_bytes(), &gate)?;
    assert_eq!(rt; gate.late.load(Ordering::SeqCst), 0, "late");
    assert_eq!(rt; written.as_slice(), told.as_bytes());
    Ok(())
}

// Runs differ, so what was written is compared with the lines of its own run.
#[test]
fn each_failing_write_leaves_a_front_of_the_report_of_its_own_run(
    rt: HostRuntime,
) -> Result<(), Fail> {
    let alloc = rt.alloc();
    let text = TRACE.as_bytes();
    let given = ["threads"].as_slice();
    for number in 1..1_000u64 {
        let outside = outside(alloc, text, 7, &[], 1_000, &[number])?;
        let told = threaded(&rt, alloc, given, outside, &NoGate)?;
        let lines = told.lines.ok_or("a run")?;
        let whole = printed(alloc, text, &lines).ok_or("a report")?;
        if number > whole.len().div_ceil(7) as u64 {
            assert_eq!(rt; told.status, Status::Ok);
            assert_eq!(rt; told.written.as_slice(), whole.as_slice());
            return Ok(());
        }
        assert_eq!(rt; told.status, Status::Write, "write {number}");
        assert!(rt;
            whole.as_slice().starts_with(&told.written),
            "write {number}"
        );
        assert!(rt; told.written.len() < whole.len(), "write {number}");
    }
    Err(Fail::from("a report has fewer writes"))
}

// Nothing was written, and there was no run.
fn is_refused<R: Abort + Threads + Wait + Sync>(
    rt: &R,
    given: &[&str],
    outside: (MemSource, MemSink),
    alloc: Global,
    status: Status,
) -> Result<(), Fail> {
    let told = threaded(rt, alloc, given, outside, &NoGate)?;
    assert_eq!(rt; told.status, status);
    assert!(rt; told.written.is_empty());
    assert!(rt; told.lines.is_none());
    Ok(())
}

// A source whose first read fails: it isn't asked.
#[test]
fn the_first_refused_word_of_threads_is_named(rt: HostRuntime) -> Result<(), Fail> {
    let alloc = rt.alloc();
    for (given, number) in [
        ([].as_slice(), 1),
        (["replay"].as_slice(), 1),
        (["Threads"].as_slice(), 1),
        (["thread", "--workers", "1"].as_slice(), 1),
        (["threads", ""].as_slice(), 2),
        (["threads", "1"].as_slice(), 2),
        (["threads", "--worker", "1"].as_slice(), 2),
        (["threads", "--workers=1"].as_slice(), 2),
        (["threads", "--workers"].as_slice(), 3),
        (["threads", "--workers", ""].as_slice(), 3),
        (["threads", "--workers", "0"].as_slice(), 3),
        (["threads", "--workers", "65"].as_slice(), 3),
        (["threads", "--workers", "-1"].as_slice(), 3),
        (["threads", "--workers", "+1"].as_slice(), 3),
        (["threads", "--workers", "1.0"].as_slice(), 3),
        (
            ["threads", "--workers", "000000000000000000001"].as_slice(),
            3,
        ),
        (
            ["threads", "--workers", "18446744073709551617"].as_slice(),
            3,
        ),
        (["threads", "--workers", "x", "x"].as_slice(), 3),
        (["threads", "--workers", "1", ""].as_slice(), 4),
        (["threads", "--workers", "1", "2", "3"].as_slice(), 4),
    ] {
        let outside = outside(alloc, TRACE.as_bytes(), 7, &[1], 1_000, &[])?;
        is_refused(&rt, given, outside, alloc, Status::Usage(number))?;
    }
    Ok(())
}

#[test]
fn the_number_of_workers_is_from_1_to_64(rt: HostRuntime) -> Result<(), Fail> {
    let alloc = rt.alloc();
    let text = trace_of(alloc, "clock,5,6\ncall,1\ncall,2\n")?;
    for number in ["1", "00000000000000000001", "064", "64"] {
        let given = ["threads", "--workers", number];
        report_of_run(&rt, alloc, given.as_slice(), text.as_bytes(), &NoGate)?;
    }
    Ok(())
}

#[test]
fn a_refused_trace_is_not_run(rt: HostRuntime) -> Result<(), Fail> {
    let alloc = rt.alloc();
    for (lines, line, reason) in [
        ("", 2, Reason::NoClock),
        ("poll,\n", 2, Reason::NoClock),
        ("clock,5,6\nclock,4,7\n", 3, Reason::ClockBack),
        ("clock,5,6\npole\n", 3, Reason::Kind),
        ("clock,5,6\ndisrupt,1\n", 3, Reason::Fields),
        ("clock,5,6\ncall,65\n", 3, Reason::Number),
        ("clock,5,6\npoll,0g\n", 3, Reason::Hex),
        ("clock,5,6\nmark,8\n", 3, Reason::Page),
        ("clock,5,6\nimage,I\n", 3, Reason::Order),
        ("clock,5,6\npage,00\n", 3, Reason::Page),
    ] {
        let text = trace_of(alloc, lines)?;
        for given in WORDS {
            let outside = outside(alloc, text.as_bytes(), 7, &[], 1_000, &[])?;
            is_refused(&rt, given, outside, alloc, refused(line, reason))?;
        }
    }
    Ok(())
}

#[test]
fn the_input_of_threads_ends_at_its_limit(rt: HostRuntime) -> Result<(), Fail> {
    let alloc = rt.alloc();
    for (len, status) in [
        (16_777_216, refused(1, Reason::Kind)),
        (16_777_217, Status::TooLong),
    ] {
        let feeds = vec![in alloc; b'\n'; len]?;
        let outside = outside(alloc, &feeds, 65_536, &[], 10, &[])?;
        is_refused(&rt, ["threads"].as_slice(), outside, alloc, status)?;
    }
    Ok(())
}
