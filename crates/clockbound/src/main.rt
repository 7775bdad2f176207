//! The program: the words of the command line and the standard streams go to the top call, of `threads` to its own, and the answer
//! becomes a text on standard error and an exit status.
#![tactic(auto)]

use bound_cli::{Served, Status, serve, serve_threads};
use clock_gate::{NoGate, StdSink, StdSource};
use std::alloc::{AllocError, Global};
use std::env::{Env, FillError};
use std::io;
use std::process::ExitCode;
use std::sync::Wait;
use std::thread::Threads;

// No word that a command allows is longer.
const LONGEST_WORD: usize = 64;

// A word that isn't text or is too long stands as an empty one, which no command allows.
fn word(alloc: Global, bytes: &[u8]) -> Result<String, AllocError> {
    match std::str::from_utf8(bytes) {
        Ok(text) => String::from_str(alloc, text),
        Err(_) => Ok(String::new(alloc)),
    }
}

// The words after the program's own name.
fn words(rt: &HostRuntime) -> Result<Vec<String>, AllocError> {
    let alloc = rt.alloc();
    let mut words = Vec::new(alloc);
    let mut buf = [0; LONGEST_WORD];
    for number in 1..usize::MAX {
        match rt.arg(number, &mut buf) {
            Ok(len) => words.push(word(alloc, &buf[..len])?)?,
            Err(FillError::TooLong) => words.push(String::new(alloc))?,
            Err(FillError::NotPresent) => break,
        }
    }
    Ok(words)
}

// Whether the first word is `threads`.
fn is_threads(words: &[String]) -> bool {
    match words {
        [] => false,
        [first, ..] => first.as_str() == "threads",
    }
}

fn run<R: Threads + Wait + Sync>(rt: &HostRuntime, threads: &R) -> Status {
    let Ok(words) = words(rt) else {
        return Status::Memory;
    };
    let mut source = StdSource::new(rt.reader());
    let mut sink = StdSink::new(io::writer(rt));
    if is_threads(words.as_slice()) {
        let Served { status, .. } = serve_threads(
            threads,
            rt.alloc(),
            &words,
            &mut source,
            &mut sink,
            &NoGate,
        );
        return status;
    }
    serve(rt.alloc(), &words, &mut source, &mut sink)
}

fn report(rt: &impl Eprint, status: Status) -> io::Result<()> {
    match status {
        Status::Ok => Ok(()),
        Status::Usage(n) => rt.eprintln(format_args!("clockbound: word {n} isn't allowed here")),
        Status::Trace { line, reason } => {
            rt.eprintln(format_args!("clockbound: line {line}: {reason}"))
        }
        Status::Read => rt.eprintln("clockbound: reading failed"),
        Status::Write => rt.eprintln("clockbound: writing failed"),
        Status::TooLong => rt.eprintln("clockbound: input longer than 16777216 bytes"),
        Status::Memory => rt.eprintln("clockbound: out of memory"),
    }
}

fn code(status: Status) -> u8 {
    match status {
        Status::Ok => 0,
        Status::Usage(_) => 2,
        Status::Trace { .. } => 3,
        Status::Read => 4,
        Status::Write => 5,
        Status::TooLong => 6,
        Status::Memory => 7,
    }
}

fn main(rt: HostRuntime) -> ExitCode {
    let status = run(&rt, &rt);
    // What standard error can't take is lost: the exit status tells the same.
    let _ = report(&rt, status);
    ExitCode::from(code(status))
}
