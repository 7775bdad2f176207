//! Looking back over the events before one.
ghost use Rattle.std.specs.Prelude.{◌≡◌, ◌≤◌, length};
ghost use Rattle.abstract_run.specs.RunFacts.{told_at, told_by};
ghost use Rattle.run_verdict.specs.Past.{ended_in, past_of};

use crate::ended::Ended;
use abstract_run::Event;

/// The publication that an event tells, where it tells one.
pub fn ended_in(event: &Event) -> Option<Ended>
    ensures { result ≡ ended_in event.now }
{
    match event {
        Event::Published {
            position,
            publication,
            marked_at,
            replied_at,
        } => Some(Ended {
            position: *position,
            publication: *publication,
            marked_at: *marked_at,
            replied_at: *replied_at,
        }),
        Event::Opened { .. } => None,
        Event::Moved { .. } => None,
        Event::Skipped { .. } => None,
        Event::Stopped { .. } => None,
        Event::Answered { .. } => None,
    }
}

/// The last publication before this place that made this position.
pub fn read_before(events: &[Event], place: usize, position: u64) -> Option<Ended>
    requires { place ≤ length events.now }
    ensures { result ≡ told_at position (past_of events.now place) }
{
    let mut left = place;
    'back: while 0 < left {
        left -= 1;
        if let Some(ended) = ended_in(&events[left]) {
            if ended.position == position {
                return Some(ended);
            }
        }
    }
    None
}

/// The last publication of this poll before this place.
pub fn base_before(events: &[Event], place: usize, poll: u32) -> Option<Ended>
    requires { place ≤ length events.now }
    ensures { result ≡ told_by poll (past_of events.now place) }
{
    let mut left = place;
    'back: while 0 < left {
        left -= 1;
        if let Some(ended) = ended_in(&events[left]) {
            if ended.publication.poll == poll {
                return Some(ended);
            }
        }
    }
    None
}
