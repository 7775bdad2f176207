//! The publications so far, found by their position or by their poll.
ghost use Rattle.std.specs.Prelude.{◌≡◌, ◌+◌, ◌<◌, length, OnOk, List};
ghost use Rattle.abstract_run.specs.declared.event.Event.{Event};
ghost use Rattle.abstract_run.specs.RunFacts.{told_at, told_by};
ghost use Rattle.run_verdict.specs.Past.{past_of};
ghost use Rattle.run_verdict.specs.Tables.{ShowsPast};

use crate::ended::Ended;
use crate::looking::ended_in;
use abstract_run::Event;
use std::alloc::{AllocError, Global};
use std::collections::HashMap;

/// Where the publications so far stand among the events, each place from 0: the last one that made a position, and the last one of a
/// poll.
#[derive(Debug, Drop)]
pub struct Past {
    pub(crate) by_position: HashMap<u64, u32>,
    pub(crate) by_poll: HashMap<u32, u32>,
}

impl Past {
    /// Before the first event.
    pub fn new(alloc: Global) -> Past
        ensures { (events : List Event) → ShowsPast events 0 result }
    {
        Past {
            by_position: HashMap::new(alloc),
            by_poll: HashMap::new(alloc),
        }
    }

    /// One event more: the one at this place. `AllocError` where a table has no room for it.
    pub fn put(&mut self, events: &[Event], place: u32) -> Result<(), AllocError>
        requires here { place < length events.now }
        requires shows { ShowsPast events.now place self.old }
        ensures { OnOk result (ShowsPast events.now (place + 1) self.new) }
    {
        if let Some(ended) = ended_in(&events[place as usize]) {
            self.by_position.insert(ended.position, place)?;
            self.by_poll.insert(ended.publication.poll, place)?;
        }
        Ok(())
    }

    /// The last publication that made this position.
    pub fn read(&self, events: &[Event], place: u32, position: u64) -> Option<Ended>
        requires here { place < length events.now }
        requires shows { ShowsPast events.now place self.now }
        ensures { result ≡ told_at position (past_of events.now place) }
    {
        match self.by_position.get(&position) {
            None => None,
            Some(at) => ended_in(&events[*at as usize]),
        }
    }

    /// The last publication of this poll.
    pub fn base(&self, events: &[Event], place: u32, poll: u32) -> Option<Ended>
        requires here { place < length events.now }
        requires shows { ShowsPast events.now place self.now }
        ensures { result ≡ told_by poll (past_of events.now place) }
    {
        match self.by_poll.get(&poll) {
            None => None,
            Some(at) => ended_in(&events[*at as usize]),
        }
    }
}
