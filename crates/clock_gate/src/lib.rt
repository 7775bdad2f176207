//! Units of time, the rows of a clock, what a run is given, and the outside: where bytes come from and where they go.
//!
//! A `Stamp` is a moment in whole nanoseconds, a `Reading` is what one row of a clock tells, a `ClockStatus`
//! says how far a time can be trusted. A `Source` gives bytes and a `Sink` takes them: a call on either fails
//! only where its count of faults rose in that call, and the bytes come and go in order. `MemSource` and
//! `MemSink` tell what they hold and fail where they are told to; `StdSource` and `StdSink` stand over std's
//! reader and writer and tell nothing of their content. A `Trace` is what one run is given, an `Act` what a step machine
//! wants to do next. A `Gate` is where a test can hold a worker. Stands on `generation_word`, for the layout of a trace.
#![tactic(auto)]

mod act;
mod clock;
mod clock_row;
mod clock_status;
mod gate;
mod limits;
mod list;
mod mem_sink;
mod mem_source;
mod outside;
mod stamp;
mod std_sink;
mod std_source;
mod trace;

pub use act::Act;
pub use clock::reading;
pub use clock_row::{ClockRow, Reading};
pub use clock_status::ClockStatus;
pub use gate::{Gate, NoGate};
pub use limits::{
    INPUT_LIMIT, LAST_MOMENT, MOST_CALLS, MOST_CLIENTS, MOST_DRIFT, MOST_HOST_ROWS, MOST_OF_A_LINE,
    MOST_PAGE_BYTES, MOST_POLLS, MOST_REPLY_BYTES, MOST_SCHEDULE_LINES, MOST_STORES, MOST_TRIES,
    MOST_TURNS, USUAL_DRIFT, USUAL_TRIES,
};
pub use list::List;
pub use mem_sink::MemSink;
pub use mem_source::MemSource;
pub use outside::{Failed, Memory, Sink, Source};
pub use stamp::{NANOS_PER_SECOND, Stamp};
pub use std_sink::StdSink;
pub use std_source::StdSource;
pub use trace::{CallRow, HostRow, Party, PollRow, Trace, Turn};

#[cfg(test)]
mod tests;
