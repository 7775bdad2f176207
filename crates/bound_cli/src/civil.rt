//! Lines with civil times.
ghost use Rattle.std.specs.Prelude.{◌≡◌, ◌++◌, vec_items, OnOk};
ghost use Rattle.bound_cli.specs.Civil.{civil_fields, civil_line, interval_in, interval_told, line_with};

use crate::times::Times;
use civil_time::put_civil;
use interval_now::{Answer, Interval};
use lawful_report::{Printed, put_line};
use std::alloc::AllocError;

fn interval_told(answer: &Answer) -> Option<Interval>
    ensures { result ≡ interval_told answer.now }
{
    match answer {
        Answer::Time(timed) => Some(timed.interval),
        Answer::Busy { .. } => None,
        Answer::NotInitialized => None,
        Answer::PageBusy { .. } => None,
        Answer::Causality(_) => None,
    }
}

fn interval_in(line: &Printed) -> Option<Interval>
    ensures { result ≡ interval_in line.now }
{
    match line {
        Printed::Header => None,
        Printed::Opened { .. } => None,
        Printed::Published { .. } => None,
        Printed::Skipped { .. } => None,
        Printed::Stopped { .. } => None,
        Printed::Moved { .. } => None,
        Printed::Answered { answer, .. } => interval_told(answer),
        Printed::Total { .. } => None,
    }
}

#[tactic(auto, unfolding(crate::specs::Civil::civil_fields))]
fn put_fields(text: &mut Vec<u8>, interval: &Interval) -> Result<(), AllocError>
    ensures { OnOk result (vec_items text.new ≡ vec_items text.old ++ civil_fields interval.now) }
{
    text.extend_from_slice(b",".as_slice())?;
    put_civil(text, interval.earliest)?;
    text.extend_from_slice(b",".as_slice())?;
    put_civil(text, interval.latest)?;
    text.extend_from_slice(b"\n".as_slice())
}

// A line with the civil times of its interval, where it has one.
#[tactic(auto, unfolding(crate::specs::Civil::civil_line))]
fn put_civil_line(text: &mut Vec<u8>, line: &Printed) -> Result<(), AllocError>
    ensures { OnOk result (vec_items text.new ≡ vec_items text.old ++ civil_line line.now) }
{
    put_line(text, line)?;
    match interval_in(line) {
        None => Ok(()),
        Some(interval) => {
            let _ = text.pop();
            put_fields(text, &interval)
        }
    }
}

/// Appends a line.
pub fn put_line_with(text: &mut Vec<u8>, times: Times, line: &Printed) -> Result<(), AllocError>
    ensures { OnOk result (vec_items text.new ≡ vec_items text.old ++ line_with times line.now) }
{
    match times {
        Times::Nanoseconds => put_line(text, line),
        Times::Civil => put_civil_line(text, line),
    }
}
