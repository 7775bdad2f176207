//! The lists of a day, each filled second by second in room that is reserved at once.
ghost use Rattle.std.specs.Prelude.{◌≡◌, ◌≤◌, IfOk};
ghost use Rattle.drill_day.specs.Day.{calls_of, clock_of, host_of, order_of, polls_of};

use crate::draws::{after_two, draw_of, second_draw_of};
use crate::seconds::{
    clock_row, middle_of, poll_row, push_calls, push_host, push_jobs, stop_second,
};
use clock_gate::{CallRow, ClockRow, HostRow, Party, PollRow};
use std::alloc::{AllocError, Global};

/// The rows of the clock.
pub fn clock_of(alloc: Global, seed: u64, polls: u32) -> Result<Vec<ClockRow>, AllocError>
    requires { polls ≤ 20000 }
    ensures { IfOk result (λ rows. rows.items ≡ clock_of seed polls) }
{
    let mut rows = Vec::with_capacity(alloc, polls as usize)?;
    let mut x = seed;
    'seconds: for k in 1..polls + 1 {
        rows.push(clock_row(k, draw_of(x)))?;
        x = after_two(x);
    }
    Ok(rows)
}

/// What the host does.
pub fn host_of(alloc: Global, polls: u32) -> Result<Vec<HostRow>, AllocError>
    requires { polls ≤ 20000 }
    ensures { IfOk result (λ rows. rows.items ≡ host_of polls) }
{
    let middle = middle_of(polls);
    let mut rows = Vec::with_capacity(alloc, polls as usize + 2)?;
    'seconds: for k in 1..polls + 1 {
        push_host(&mut rows, middle, k)?;
    }
    Ok(rows)
}

/// The polls.
pub fn polls_of(alloc: Global, seed: u64, polls: u32) -> Result<Vec<PollRow>, AllocError>
    requires { polls ≤ 20000 }
    ensures { IfOk result (λ rows. rows.items ≡ polls_of seed polls) }
{
    let stopped = stop_second(polls);
    let mut rows = Vec::with_capacity(alloc, polls as usize)?;
    let mut x = seed;
    'seconds: for k in 1..polls + 1 {
        let row = poll_row(alloc, stopped, k, second_draw_of(x))?;
        rows.push(row)?;
        x = after_two(x);
    }
    Ok(rows)
}

/// The calls.
pub fn calls_of(alloc: Global, polls: u32) -> Result<Vec<CallRow>, AllocError>
    requires { polls ≤ 20000 }
    ensures { IfOk result (λ calls. calls.items ≡ calls_of polls) }
{
    let mut calls = Vec::with_capacity(alloc, polls as usize * 3)?;
    'seconds: for _second in 1..polls + 1 {
        push_calls(&mut calls)?;
    }
    Ok(calls)
}

/// Whose jobs these are, in their order.
pub fn order_of(alloc: Global, polls: u32) -> Result<Vec<Party>, AllocError>
    requires { polls ≤ 20000 }
    ensures { IfOk result (λ order. order.items ≡ order_of polls) }
{
    let middle = middle_of(polls);
    let mut order = Vec::with_capacity(alloc, polls as usize * 5 + 1)?;
    'seconds: for k in 1..polls + 1 {
        push_jobs(&mut order, middle, k)?;
    }
    Ok(order)
}
