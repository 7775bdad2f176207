// For every command each call that reads or writes fails in turn, in pieces of several sizes. How many calls there are follows from the
// lengths of input and output.
use super::*;
use crate::tests::{IMAGE, PAGE, REPLY, TRACE, outside, served};
use crate::threads_tests::threaded;
use clock_gate::NoGate;
use std::alloc::Global;
use std::process::Abort;
use std::sync::Wait;
use std::test::Fail;
use std::thread::Threads;

const PIECES: [usize; 3] = [1, 7, 10];

// The calls that move so many bytes in pieces of this size.
fn calls_for(bytes: usize, piece: usize) -> u64 {
    bytes.div_ceil(piece.max(1)) as u64
}

// What the program does by these words, and what is written: it runs `threads` side by side and serves every other command.
fn answered<R: Threads + Wait + Sync>(
    rt: &R,
    alloc: Global,
    words: &[&str],
    text: &str,
    piece: usize,
    read_fails: &[u64],
    write_fails: &[u64],
) -> Result<(Status, Vec<u8>), Fail> {
    let text = text.as_bytes();
    match words {
        ["threads", ..] => {
            let outside = outside(alloc, text, piece, read_fails, 10_000, write_fails)?;
            let told = threaded(rt, alloc, words, outside, &NoGate)?;
            Ok((told.status, told.written))
        }
        _ => served(alloc, words, text, piece, read_fails, 10_000, write_fails),
    }
}

// Each read fails in turn, also the one that finds the end: nothing is written.
fn each_read_fails<R: Abort + Threads + Wait + Sync>(
    rt: &R,
    alloc: Global,
    words: &[&str],
    text: &str,
    piece: usize,
) -> Result<(), Fail> {
    let last = calls_for(text.len(), piece).saturating_add(1);
    for number in 1..last.saturating_add(1) {
        let (status, written) = answered(rt, alloc, words, text, piece, &[number], &[])?;
        assert_eq!(rt; status, Status::Read, "read {number} in pieces of {piece}");
        assert!(rt; written.is_empty(), "read {number} in pieces of {piece}");
    }
    let later = [last.saturating_add(1)];
    let (status, _) = answered(rt, alloc, words, text, piece, &later, &[])?;
    assert_eq!(rt; status, Status::Ok, "no read fails in pieces of {piece}");
    Ok(())
}

// Each write fails in turn: a front of the output was written, and not all of it.
fn each_write_fails<R: Abort + Threads + Wait + Sync>(
    rt: &R,
    alloc: Global,
    words: &[&str],
    text: &str,
    piece: usize,
) -> Result<(), Fail> {
    let (status, whole) = answered(rt, alloc, words, text, piece, &[], &[])?;
    assert_eq!(rt; status, Status::Ok, "no write fails in pieces of {piece}");
    assert!(rt; !whole.is_empty());
    let last = calls_for(whole.len(), piece);
    for number in 1..last.saturating_add(1) {
        let (status, written) = answered(rt, alloc, words, text, piece, &[], &[number])?;
        assert_eq!(rt;
            status,
            Status::Write,
            "write {number} in pieces of {piece}"
        );
        assert!(rt;
            whole.starts_with(&written),
            "write {number} in pieces of {piece}"
        );
        assert!(rt;
            written.len() < whole.len(),
            "write {number} in pieces of {piece}"
        );
    }
    let later = [last.saturating_add(1)];
    let (status, written) = answered(rt, alloc, words, text, piece, &[], &later)?;
    assert_eq!(rt; status, Status::Ok, "no write fails in pieces of {piece}");
    assert_eq!(rt; written.as_slice(), whole.as_slice());
    Ok(())
}

fn each_call_fails<R: Abort + Threads + Wait + Sync>(
    rt: &R,
    alloc: Global,
    words: &[&str],
    text: &str,
) -> Result<(), Fail> {
    for piece in PIECES {
        each_read_fails(rt, alloc, words, text, piece)?;
        each_write_fails(rt, alloc, words, text, piece)?;
    }
    Ok(())
}

#[test]
fn each_call_of_a_replay_fails(rt: HostRuntime) -> Result<(), Fail> {
    each_call_fails(&rt, rt.alloc(), &["replay"], TRACE)
}

#[test]
fn each_call_of_a_replay_with_civil_times_fails(rt: HostRuntime) -> Result<(), Fail> {
    each_call_fails(&rt, rt.alloc(), &["replay", "--civil"], TRACE)
}

#[test]
fn each_call_of_an_order_fails(rt: HostRuntime) -> Result<(), Fail> {
    each_call_fails(&rt, rt.alloc(), &["order", "1000000000"], TRACE)
}

#[test]
fn each_call_of_an_audit_fails(rt: HostRuntime) -> Result<(), Fail> {
    let alloc = rt.alloc();
    let text = format!(in alloc; "{TRACE}report\nclockbound-report,1\n")?;
    each_call_fails(&rt, alloc, &["audit"], text.as_str())
}

#[test]
fn each_call_of_a_decoding_fails(rt: HostRuntime) -> Result<(), Fail> {
    for (what, text) in [("reply", REPLY), ("page", PAGE), ("image", IMAGE)] {
        each_call_fails(&rt, rt.alloc(), &["decode", what], text)?;
    }
    Ok(())
}

#[test]
fn each_call_over_pages_and_clocks_fails(rt: HostRuntime) -> Result<(), Fail> {
    for (word, text) in [
        ("pagetime", "pagetime-trace,1\n"),
        ("agree", "agree-trace,1\nset,1,1,2\nset,2,3,4\nask,1\n"),
    ] {
        each_call_fails(&rt, rt.alloc(), &[word], text)?;
    }
    Ok(())
}

// Polls without calls and calls without polls: all runs have one report.
#[test]
fn each_call_of_threads_fails(rt: HostRuntime) -> Result<(), Fail> {
    for text in [
        "clockbound-trace,1\nclock,5,6\npoll,,10\npoll,\n",
        "clockbound-trace,1\nclock,5,6\ncall,1\ncall,2\n",
    ] {
        each_call_fails(&rt, rt.alloc(), &["threads"], text)?;
        each_call_fails(&rt, rt.alloc(), &["threads", "--workers", "1"], text)?;
    }
    Ok(())
}

// A drill reads nothing.
#[test]
fn each_write_of_a_drill_fails(rt: HostRuntime) -> Result<(), Fail> {
    for piece in PIECES {
        each_write_fails(&rt, rt.alloc(), &["drill", "0", "6"], "", piece)?;
    }
    Ok(())
}

#[test]
fn each_write_of_a_generated_day_fails(rt: HostRuntime) -> Result<(), Fail> {
    for piece in PIECES {
        each_write_fails(&rt, rt.alloc(), &["drill", "0", "6", "--trace"], "", piece)?;
    }
    Ok(())
}
