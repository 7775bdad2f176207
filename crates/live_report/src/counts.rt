//! What the lines of a run count.
ghost use Rattle.std.specs.Prelude.{◌≡◌, ◌≤◌, ◌+◌, ◌-◌, ℕ, length};
ghost use Rattle.lawful_report.specs.Lawful.{no_counts, one_answer, one_publication, one_time};
ghost use Rattle.live_report.specs.declared.limits.TheConstants.{MOST_LINES};
ghost use Rattle.live_report.specs.Counted.{AreUpTo, answers_counted, answers_in, clients_counted};
ghost use Rattle.live_report.specs.LiveReport.{line_counted, lines_counted, poll_counted};

use crate::line::Line;
use clock_gate::{ClockStatus, List};
use interval_now::Answer;
use lawful_report::Counts;
use writer_reopen::Polled;

fn one_time(counts: Counts, status: ClockStatus) -> Counts
    requires { AreUpTo MOST_LINES counts }
    ensures value { result ≡ one_time status counts }
    ensures next { (most : ℕ) → AreUpTo most counts → AreUpTo (most + 1) result }
{
    let mut counts = counts;
    counts.answers += 1;
    counts.times += 1;
    match status {
        ClockStatus::Unknown => counts.unknown += 1,
        ClockStatus::Synchronized => counts.synchronized += 1,
        ClockStatus::FreeRunning => counts.free_running += 1,
        ClockStatus::Disrupted => counts.disrupted += 1,
    }
    counts
}

fn one_untimed(counts: Counts) -> Counts
    requires { AreUpTo MOST_LINES counts }
    ensures value { result ≡ record counts { answers = counts.answers + 1 } }
    ensures next { (most : ℕ) → AreUpTo most counts → AreUpTo (most + 1) result }
{
    let mut counts = counts;
    counts.answers += 1;
    counts
}

fn one_answer(counts: Counts, answer: &Answer) -> Counts
    requires { AreUpTo MOST_LINES counts }
    ensures value { result ≡ one_answer answer.now counts }
    ensures next { (most : ℕ) → AreUpTo most counts → AreUpTo (most + 1) result }
{
    match answer {
        Answer::Time(timed) => one_time(counts, timed.interval.status),
        Answer::Busy { .. } => one_untimed(counts),
        Answer::NotInitialized => one_untimed(counts),
        Answer::PageBusy { .. } => one_untimed(counts),
        Answer::Causality(_) => one_untimed(counts),
    }
}

fn one_publication(counts: Counts) -> Counts
    requires { AreUpTo MOST_LINES counts }
    ensures value { result ≡ one_publication counts }
    ensures next { (most : ℕ) → AreUpTo most counts → AreUpTo (most + 1) result }
{
    let mut counts = counts;
    counts.publications += 1;
    counts
}

fn poll_counted(counts: Counts, polled: &Polled) -> Counts
    requires { AreUpTo MOST_LINES counts }
    ensures value { result ≡ poll_counted counts polled.now }
    ensures next { (most : ℕ) → AreUpTo most counts → AreUpTo (most + 1) result }
{
    match polled {
        Polled::Published { .. } => one_publication(counts),
        Polled::Skipped { .. } => counts,
        Polled::Stopped { .. } => counts,
    }
}

fn line_counted(counts: Counts, line: &Line) -> Counts
    requires { AreUpTo MOST_LINES counts }
    ensures value { result ≡ line_counted counts line.now }
    ensures next { (most : ℕ) → AreUpTo most counts → AreUpTo (most + 1) result }
{
    match line {
        Line::Opened { .. } => counts,
        Line::Polled { polled, .. } => poll_counted(counts, polled),
        Line::Answered { answer, .. } => one_answer(counts, answer),
    }
}

// The counts of the daemon's lines.
fn lines_counted(lines: &[Line]) -> Counts
    requires { length lines.now ≤ MOST_LINES }
    ensures value { result ≡ lines_counted no_counts lines.now }
    ensures most { AreUpTo (length lines.now) result }
{
    let mut counts = Counts {
        publications: 0,
        answers: 0,
        times: 0,
        unknown: 0,
        synchronized: 0,
        free_running: 0,
        disrupted: 0,
    };
    'counting: for line in lines {
        counts = line_counted(counts, line);
    }
    counts
}

// With the answers of one client.
fn answers_counted(counts: Counts, answers: &[Answer]) -> Counts
    requires few { length answers.now ≤ MOST_LINES }
    requires room { AreUpTo (MOST_LINES - length answers.now) counts }
    ensures value { result ≡ answers_counted counts answers.now }
    ensures next { (most : ℕ) → AreUpTo most counts → AreUpTo (most + length answers.now) result }
{
    let mut counts = counts;
    'answers: for answer in answers {
        counts = one_answer(counts, answer);
    }
    counts
}

// And with those of each.
fn clients_counted(counts: Counts, answers: &[List<Answer>]) -> Counts
    requires few { answers_in answers.now ≤ MOST_LINES }
    requires room { AreUpTo (MOST_LINES - answers_in answers.now) counts }
    ensures { result ≡ clients_counted counts answers.now }
{
    let mut counts = counts;
    'clients: for mine in answers {
        counts = answers_counted(counts, mine.as_slice());
    }
    counts
}

/// The counts of the daemon's lines and of the clients' answers.
pub(crate) fn counts_of(daemon: &[Line], answers: &[List<Answer>]) -> Counts
    requires { length daemon.now + answers_in answers.now ≤ MOST_LINES }
    ensures value { result ≡ clients_counted (lines_counted no_counts daemon.now) answers.now }
{
    clients_counted(lines_counted(daemon), answers)
}
