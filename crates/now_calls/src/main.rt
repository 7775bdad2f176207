//! Client calls on the shared words, for `bench/now.sh` to measure.
//!
//! With no word it makes a thousand, as the gate runs it. With `alone` or `page` it makes twenty million on words that nobody writes,
//! without a page or with one; with `beside` two million while a daemon publishes in another thread, with `beside-page` the same with a
//! page. It prints how many of them answered a time, and with a word also the nanoseconds that one call took, how often the daemon
//! published, and a sum of the answers, without which the compiler would leave out what nobody looks at. Any other word is refused.
#![tactic(auto)]

mod calls;
mod words;

use calls::{Made, alone, beside};
use std::alloc::Global;
use std::env::{Env, FillError};
use std::io;
use std::process::ExitCode;
use std::thread::Threads;
use std::time::Clock;

const FEW: u32 = 1_000;

const MANY: u32 = 20_000_000;

const BESIDE: u32 = 2_000_000;

const USAGE: &str = "usage: now_calls [alone|page|beside|beside-page]";

fn shown(rt: &impl Print, made: Option<Made>, count: u32) -> io::Result<()> {
    match made {
        None => rt.println("out of memory"),
        Some(made) => {
            let Made {
                times,
                sum,
                nanos,
                published,
            } = made;
            let nanos = nanos / u128::from(count.max(1));
            rt.println(format_args!(
                "{times} of {count} answered, {nanos} ns a call, {published} publications, sum {sum}"
            ))
        }
    }
}

fn few<R: Clock + Print>(rt: &R, alloc: Global) -> io::Result<()> {
    match alone(rt, alloc, false, FEW) {
        None => rt.println("out of memory"),
        Some(made) => rt.println(format_args!("{} of {FEW} answered", made.times)),
    }
}

// What this word asks for, or its refusal.
fn measured<R: Clock + Print + Eprint + Threads + Sync>(
    rt: &R,
    alloc: Global,
    word: &[u8],
) -> io::Result<ExitCode> {
    if word == b"alone".as_slice() {
        shown(rt, alone(rt, alloc, false, MANY), MANY)?;
    } else if word == b"page".as_slice() {
        shown(rt, alone(rt, alloc, true, MANY), MANY)?;
    } else if word == b"beside".as_slice() {
        shown(rt, beside(rt, alloc, false, BESIDE), BESIDE)?;
    } else if word == b"beside-page".as_slice() {
        shown(rt, beside(rt, alloc, true, BESIDE), BESIDE)?;
    } else {
        rt.eprintln(USAGE)?;
        return Ok(ExitCode::FAILURE);
    }
    Ok(ExitCode::SUCCESS)
}

fn run<R: Clock + Print + Eprint + Env + Threads + Sync>(
    rt: &R,
    alloc: Global,
) -> io::Result<ExitCode> {
    let mut buf = [0; 16];
    match rt.arg(1, &mut buf) {
        Ok(len) => measured(rt, alloc, &buf[..len]),
        Err(FillError::NotPresent) => {
            few(rt, alloc)?;
            Ok(ExitCode::SUCCESS)
        }
        Err(FillError::TooLong) => {
            rt.eprintln(USAGE)?;
            Ok(ExitCode::FAILURE)
        }
    }
}

fn main(rt: HostRuntime) -> ExitCode {
    match run(&rt, rt.alloc()) {
        Ok(status) => status,
        Err(_) => ExitCode::FAILURE,
    }
}
