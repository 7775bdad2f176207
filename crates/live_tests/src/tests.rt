ghost use Rattle.std.specs.Prelude.{◌≡◌, ◌≤◌};

use crate::gates::{Diary, Hold, Holding, Meeting, zeros};
use clock_gate::{Gate, NoGate};
use interval_now::Answer;
use live_report::{Line, Lines};
use live_run::run_trace;
use read_runs::read_runs_laws;
use std::alloc::{AllocError, Global};
use std::sync::Wait;
use std::sync::atomic::{AtomicU64, Ordering};
use std::test::Fail;
use std::thread::Threads;
use trace_reader::read_trace;
use writer_reopen::Polled;

// The daemon's lines, and after them a line for each answer.
fn listed(alloc: Global, lines: &Lines) -> Result<Vec<Line>, AllocError> {
    let (daemon, answers) = lines.parts();
    let mut all = Vec::new(alloc);
    all.extend_from_slice(daemon)?;
    let mut client: u32 = 0;
    for mine in answers {
        client = client.saturating_add(1);
        let mut call: u32 = 0;
        for answer in mine.as_slice() {
            call = call.saturating_add(1);
            all.push(Line::Answered {
                client,
                call,
                answer: *answer,
            })?;
        }
    }
    Ok(all)
}

// The lines of a run of this trace, where it is one, memory is found and they are counted right.
fn lines<R: Threads + Wait + Sync, G: Gate + Sync>(
    rt: &R,
    alloc: Global,
    text: &str,
    workers: u32,
    gate: &G,
) -> Option<Vec<Line>>
    requires { (1 ≤ workers) × (workers ≤ 64) }
{
    read_runs_laws();
    match read_trace(alloc, text.as_bytes()) {
        Ok(trace) => match run_trace(rt, alloc, &trace, workers, gate) {
            Ok((_table, ran)) => {
                let all = listed(alloc, &ran.lines).ok()?;
                (ran.lines.len() == all.len()).then_some(all)
            }
            Err(_) => None,
        },
        Err(_) => None,
    }
}

// What a line is: an opening, a poll's publication with its number, or a client's call with the number that it read.
fn told(line: &Line) -> (&'static str, u32, u32) {
    match line {
        Line::Opened { poll, .. } => ("open", *poll, 0),
        Line::Polled { poll, polled } => match polled {
            Polled::Published { publication, .. } => ("pub", *poll, publication.generation),
            Polled::Skipped { .. } => ("skip", *poll, 0),
            Polled::Stopped { .. } => ("stop", *poll, 0),
        },
        Line::Answered {
            client,
            call,
            answer,
        } => match answer {
            Answer::Time(timed) => (
                "time",
                *client,
                call.saturating_mul(1000).saturating_add(timed.generation),
            ),
            _ => ("other", *client, *call),
        },
    }
}

const TEN_POLLS: &str =
    "clockbound-trace,1\nclock,1000,1000\nclock,2000,2000\nclock,3000,3000\npoll,\npoll,\npoll,\npoll,\npoll,\npoll,\npoll,\npoll,\npoll,\npoll,\ncall,1\ncall,1\n";

const TWO_CLIENTS: &str =
    "clockbound-trace,1\nimage,4e5a4d4100024243500000000200feff01000000000000000000000000000000e9030000000000000000000000000000aeb9030000000000000000000000000050c30000010000000000000000000000\nclock,1000,1000\ncall,1\ncall,2\n";

const FOUR_CLIENTS: &str =
    "clockbound-trace,1\nclock,1000,1000\nclock,2000,2000\npoll,,10\npoll,,3\npoll,\ncall,1\ncall,2\ncall,3\ncall,4\ncall,1\ncall,3\ncall,4\ncall,3\n";

const MANY_CLIENTS: &str =
    "clockbound-trace,1\nclock,1000,1000\npoll,\ncall,1\ncall,2\ncall,3\ncall,4\ncall,5\ncall,6\ncall,7\ncall,8\n";

fn hold(who: u32, point: u32, other: u32, there: u32) -> Hold {
    Hold {
        who,
        point,
        other,
        there,
    }
}

// A good reply of chrony's.
const REPLY: &str =
    "06020000002100050000000000000000000000010000000000000000a9fea97ba9fea97b0000000000000000000000000001000000040000000000006500000000000000f7ffffff0000000000000000000000000000000000000000ec800000ea80000000000000";

// A trace of one row of the clock, so many polls with a good reply, and these calls.
fn polled(alloc: Global, polls: u32, calls: &str) -> Result<String, AllocError> {
    let mut text = String::new(alloc);
    text.push_str("clockbound-trace,1\nclock,1000000000,1700000000000000000\n")?;
    for _ in 0..polls {
        text.push_str("poll,")?;
        text.push_str(REPLY)?;
        text.push_str("\n")?;
    }
    text.push_str(calls)?;
    Ok(text)
}

// A gate that holds each worker as the list says.
fn holding(alloc: Global, list: &[Hold]) -> Result<Holding, AllocError> {
    let mut holds = Vec::new(alloc);
    holds.extend_from_slice(list)?;
    Ok(Holding {
        holds,
        passed: zeros(alloc, 68)?,
        late: AtomicU64::new(0),
    })
}

// The client's first call waits for the first poll, the second poll for that call, and so on: who is run after the other is late.
#[test]
fn the_daemon_and_a_client_run_side_by_side(rt: HostRuntime) -> Result<(), Fail> {
    let alloc: Global = rt.alloc();
    let gate = holding(
        alloc,
        &[
            hold(2, 2, 1, 3),
            hold(1, 4, 2, 3),
            hold(2, 4, 1, 5),
            hold(1, 6, 2, 5),
        ],
    )?;
    let text = polled(alloc, 3, "call,1\ncall,1\n")?;
    let lines = lines(&rt, alloc, text.as_str(), 1, &gate).ok_or("a run")?;
    assert_eq!(rt; gate.late.load(Ordering::SeqCst), 0, "late");
    assert_eq!(rt; lines.len(), 6);
    let expected = [
        ("open", 1, 0),
        ("pub", 1, 2),
        ("pub", 2, 4),
        ("pub", 3, 6),
        ("time", 1, 1002),
        ("time", 1, 2004),
    ];
    for (line, expected) in lines.as_slice().iter().zip(expected) {
        assert_eq!(rt; told(line), expected);
    }
    Ok(())
}

// The daemon waits before poll 2 until feed 3 is put, and the poller before feed 10 until poll 1 is done.
#[test]
fn the_poller_and_the_daemon_run_side_by_side(rt: HostRuntime) -> Result<(), Fail> {
    let alloc: Global = rt.alloc();
    let gate = holding(alloc, &[hold(1, 4, 66, 7), hold(66, 20, 1, 3)])?;
    let text = polled(alloc, 10, "")?;
    let lines = lines(&rt, alloc, text.as_str(), 1, &gate).ok_or("a run")?;
    assert_eq!(rt; gate.late.load(Ordering::SeqCst), 0, "late");
    assert_eq!(rt; lines.len(), 11);
    for (place, line) in lines.as_slice().iter().enumerate().skip(1) {
        let number = place as u32;
        assert_eq!(rt; told(line), ("pub", number, number.saturating_mul(2)));
    }
    Ok(())
}

// The host, the daemon and client 1 hold each other, and the daemon and the poller too.
#[test]
fn host_poller_daemon_and_a_client_run_side_by_side(rt: HostRuntime) -> Result<(), Fail> {
    let alloc: Global = rt.alloc();
    let gate = holding(
        alloc,
        &[
            hold(2, 2, 1, 3),
            hold(1, 4, 2, 3),
            hold(2, 4, 1, 5),
            hold(1, 6, 2, 5),
            hold(1, 4, 66, 7),
            hold(66, 20, 1, 3),
            hold(0, 4, 2, 3),
        ],
    )?;
    let lines = lines(&rt, alloc, TEN_POLLS, 1, &gate).ok_or("a run")?;
    assert_eq!(rt; gate.late.load(Ordering::SeqCst), 0, "late");
    assert_eq!(rt; lines.len(), 13);
    for (place, line) in lines.as_slice().iter().enumerate() {
        let number = place as u32;
        let expected = match number {
            0 => ("open", 1, 0),
            11 => ("time", 1, 1002),
            12 => ("time", 1, 2004),
            _ => ("pub", number, number.saturating_mul(2)),
        };
        assert_eq!(rt; told(line), expected, "line {place}");
    }
    Ok(())
}

#[test]
fn one_worker_gives_two_clients_their_steps_in_turn(rt: HostRuntime) -> Result<(), Fail> {
    let alloc: Global = rt.alloc();
    let gate = Diary {
        count: AtomicU64::new(0),
        at: zeros(alloc, 64)?,
    };
    let lines = lines(&rt, alloc, TWO_CLIENTS, 1, &gate).ok_or("a run")?;
    assert_eq!(rt; lines.len(), 2);
    for (line, at) in lines.as_slice().iter().zip([(1, 1), (2, 1)]) {
        assert_eq!(rt; place(line), at);
    }
    let first = gate.passed(2, 2);
    let second = gate.passed(3, 2);
    let ended = gate.passed(2, 3);
    assert!(rt; 0 < first && first < ended, "first");
    assert!(rt; 0 < second && second < ended, "second");
    Ok(())
}

#[test]
fn as_many_workers_as_clients_run_side_by_side(rt: HostRuntime) -> Result<(), Fail> {
    let alloc: Global = rt.alloc();
    let gate = Meeting {
        all: 8,
        there: AtomicU64::new(0),
        late: AtomicU64::new(0),
    };
    let lines = lines(&rt, alloc, MANY_CLIENTS, 64, &gate).ok_or("a run")?;
    assert_eq!(rt; gate.late.load(Ordering::SeqCst), 0, "late");
    assert_eq!(rt; lines.len(), 10);
    Ok(())
}

// Whose line it is: the daemon's at a poll, or a client's at a call.
fn place(line: &Line) -> (u32, u32) {
    match line {
        Line::Opened { poll, .. } | Line::Polled { poll, .. } => (0, *poll),
        Line::Answered { client, call, .. } => (*client, *call),
    }
}

#[test]
fn lines_stand_in_their_order_with_any_number_of_workers(rt: HostRuntime) -> Result<(), Fail> {
    let alloc: Global = rt.alloc();
    let expected = [
        (0, 1),
        (0, 1),
        (0, 2),
        (0, 2),
        (0, 3),
        (0, 3),
        (1, 1),
        (1, 2),
        (2, 1),
        (3, 1),
        (3, 2),
        (3, 3),
        (4, 1),
        (4, 2),
    ];
    for workers in [1, 2, 3, 4, 64] {
        let lines = lines(&rt, alloc, FOUR_CLIENTS, workers, &NoGate).ok_or("a run")?;
        assert_eq!(rt; lines.len(), 14, "{workers} workers");
        for (line, at) in lines.as_slice().iter().zip(expected) {
            assert_eq!(rt; place(line), at, "{workers} workers");
        }
    }
    Ok(())
}
