//! What a report counts.
ghost use Rattle.std.specs.Prelude.{◌≡◌, ◌≤◌, ◌+◌, ℕ, length};
ghost use Rattle.abstract_run.specs.declared.limits.TheConstants.{MOST_EVENTS};
ghost use Rattle.bound_cli.specs.Replay.{AreUpTo, answered, counted, counted_all, no_totals, timed};

use abstract_run::Event;
use clock_gate::ClockStatus;
use interval_now::Answer;

/// Publications, answers, answers with an interval, and these by their status.
#[derive(Clone, Copy, Debug, PartialEq, Eq)]
pub struct Totals {
    pub publications: u32,
    pub answers: u32,
    pub times: u32,
    pub unknown: u32,
    pub synchronized: u32,
    pub free_running: u32,
    pub disrupted: u32,
}

fn timed(totals: Totals, status: ClockStatus) -> Totals
    requires { AreUpTo MOST_EVENTS totals }
    ensures value { result ≡ timed totals status }
    ensures next { (most : ℕ) → AreUpTo most totals → AreUpTo (most + 1) result }
{
    let mut totals = totals;
    totals.answers += 1;
    totals.times += 1;
    match status {
        ClockStatus::Unknown => totals.unknown += 1,
        ClockStatus::Synchronized => totals.synchronized += 1,
        ClockStatus::FreeRunning => totals.free_running += 1,
        ClockStatus::Disrupted => totals.disrupted += 1,
    }
    totals
}

fn unanswered(totals: Totals) -> Totals
    requires { AreUpTo MOST_EVENTS totals }
    ensures value { result ≡ record totals { answers = totals.answers + 1 } }
    ensures next { (most : ℕ) → AreUpTo most totals → AreUpTo (most + 1) result }
{
    let mut totals = totals;
    totals.answers += 1;
    totals
}

fn answered(totals: Totals, answer: &Answer) -> Totals
    requires { AreUpTo MOST_EVENTS totals }
    ensures value { result ≡ answered totals answer.now }
    ensures next { (most : ℕ) → AreUpTo most totals → AreUpTo (most + 1) result }
{
    match answer {
        Answer::Time(found) => timed(totals, found.interval.status),
        Answer::Busy { .. } => unanswered(totals),
        Answer::NotInitialized => unanswered(totals),
        Answer::PageBusy { .. } => unanswered(totals),
        Answer::Causality(_) => unanswered(totals),
    }
}

fn published(totals: Totals) -> Totals
    requires { AreUpTo MOST_EVENTS totals }
    ensures value { result ≡ record totals { publications = totals.publications + 1 } }
    ensures next { (most : ℕ) → AreUpTo most totals → AreUpTo (most + 1) result }
{
    let mut totals = totals;
    totals.publications += 1;
    totals
}

// One event more.
fn counted(totals: Totals, event: &Event) -> Totals
    requires { AreUpTo MOST_EVENTS totals }
    ensures value { result ≡ counted totals event.now }
    ensures next { (most : ℕ) → AreUpTo most totals → AreUpTo (most + 1) result }
{
    match event {
        Event::Published { .. } => published(totals),
        Event::Answered { answer, .. } => answered(totals, answer),
        Event::Opened { .. } => totals,
        Event::Moved { .. } => totals,
        Event::Skipped { .. } => totals,
        Event::Stopped { .. } => totals,
    }
}

/// The counts of these events.
pub fn totals_of(events: &[Event]) -> Totals
    requires { length events.now ≤ MOST_EVENTS }
    ensures { result ≡ counted_all no_totals events.now }
{
    let mut totals = Totals {
        publications: 0,
        answers: 0,
        times: 0,
        unknown: 0,
        synchronized: 0,
        free_running: 0,
        disrupted: 0,
    };
    'counting: for event in events {
        totals = counted(totals, event);
    }
    totals
}
