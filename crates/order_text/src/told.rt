//! The answers that the events of a run tell.
ghost use Rattle.std.specs.Prelude.{◌≡◌};
ghost use Rattle.clock_gate.specs.ClockRow.{row_at};
ghost use Rattle.order_text.specs.Told.{answer_told, event_told, untimed};

use abstract_run::Event;
use bound_order::Told;
use clock_gate::ClockRow;
use interval_now::Answer;

// The true time that the clock row with this number tells.
fn truth_at(clock: &[ClockRow], row: u32) -> Option<u64>
    ensures { result ≡ (row_at clock.now row).truth }
{
    match clock.get(row.saturating_sub(1) as usize) {
        Some(found) => found.truth,
        None => None,
    }
}

fn untimed(client: u32, call: u32) -> Told
    ensures { result ≡ untimed client call }
{
    Told {
        client,
        call,
        interval: None,
        truth: None,
    }
}

fn answer_told(clock: &[ClockRow], client: u32, call: u32, answer: &Answer) -> Told
    ensures { result ≡ answer_told clock.now client call answer.now }
{
    match answer {
        Answer::Time(time) => Told {
            client,
            call,
            interval: Some(time.interval),
            truth: truth_at(clock, time.row),
        },
        Answer::Busy { .. } => untimed(client, call),
        Answer::NotInitialized => untimed(client, call),
        Answer::PageBusy { .. } => untimed(client, call),
        Answer::Causality(_) => untimed(client, call),
    }
}

/// The answer that an event tells, with its interval, where it has one, and the true time that its clock row tells. `clock` has the rows
/// of the clock.
pub(crate) fn event_told(clock: &[ClockRow], event: &Event) -> Option<Told>
    ensures { result ≡ event_told clock.now event.now }
{
    match event {
        Event::Answered {
            client,
            call,
            answer,
            ..
        } => Some(answer_told(clock, *client, *call, answer)),
        Event::Opened { .. } => None,
        Event::Moved { .. } => None,
        Event::Published { .. } => None,
        Event::Skipped { .. } => None,
        Event::Stopped { .. } => None,
    }
}
