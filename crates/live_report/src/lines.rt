//! The lines of a run.
ghost use Rattle.std.specs.Prelude.{◌≡◌, ◌≤◌, ◌++◌, ◌^◌, ◌-◌, length, min};
ghost use Rattle.std.specs.List.{range_with_len};
ghost use Rattle.clock_gate.specs.declared.limits.TheConstants.{MOST_CLIENTS};
ghost use Rattle.live_report.specs.ClientCalls.{client_lines};
ghost use Rattle.live_report.specs.Counted.{answers_in};

use crate::line::Line;
use clock_gate::List;
use interval_now::Answer;
use std::marker::Model;

/// The lines of a run: the daemon's, and after them the answers of the first client, of the second, and so on.
///
/// Clients are counted from 1, and so are the calls of each: an answer's places give its line, and the answer alone is kept.
#[derive(Debug, Drop)]
pub struct Lines {
    daemon: List<Line>,
    answers: List<List<Answer>>,
}

impl Model for Lines {
    ghost use Rattle.std.specs.Prelude.{List, ◌++◌, ◌≤◌, length};
    ghost use Rattle.std.specs.List.{range_with_len};
    ghost use Rattle.clock_gate.specs.declared.limits.TheConstants.{MOST_CLIENTS};
    ghost use Rattle.live_report.specs.declared.line.Line.{Line};
    ghost use Rattle.live_report.specs.ClientCalls.{client_lines};

    ghost Value = { List Line };

    ghost view = { λ l. l.daemon ++ client_lines (range_with_len 1 (length l.answers)) l.answers };

    ghost invariant = { λ l. length l.answers ≤ MOST_CLIENTS };
}

// How many answers all clients have, or the greatest number.
fn answers_in(answers: &[List<Answer>]) -> usize
    ensures { result ≡ min (answers_in answers.now) (2 ^ 64 - 1) }
{
    let mut count: usize = 0;
    'clients: for mine in answers {
        count = count.saturating_add(mine.len());
    }
    count
}

impl Lines {
    /// The daemon's lines, and the answers of each client in the order of its calls, the clients in the order of their numbers: they are
    /// at most 64.
    pub fn new(daemon: List<Line>, answers: List<List<Answer>>) -> Lines
        requires { length answers ≤ MOST_CLIENTS }
        ensures { result ≡ daemon ++ client_lines (range_with_len 1 (length answers)) answers }
    {
        Lines { daemon, answers }
    }

    /// The daemon's lines, and the answers of each client.
    pub fn parts(&self) -> (&[Line], &[List<Answer>])
        ensures clients { length result.1.now ≤ MOST_CLIENTS }
        ensures lines { self.now ≡ result.0.now ++ client_lines (range_with_len 1 (length result.1.now)) result.1.now }
    {
        (self.daemon.as_slice(), self.answers.as_slice())
    }

    /// How many lines there are, or 2^64 - 1 where there are more.
    pub fn len(&self) -> usize
        ensures { result ≡ min (length self.now) (2 ^ 64 - 1) }
    {
        let (daemon, answers) = self.parts();
        daemon.len().saturating_add(answers_in(answers))
    }
}
