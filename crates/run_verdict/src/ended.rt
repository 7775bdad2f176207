//! Publications that the events of a run tell.
use segment_layout::Publication;
use std::marker::Model;

/// A publication, as its event tells it.
#[derive(Clone, Copy, Debug)]
pub struct Ended {
    /// The position that it made: how many publications had ended with it, from 1.
    pub position: u64,
    /// What was published, and the poll, the clock rows and the base poll that it came from.
    pub publication: Publication,
    /// How many rows of the host were done when the poll loaded the page's marker; without a page, its first clock row.
    pub marked_at: u32,
    /// How many rows of the host were done when its reply was taken.
    pub replied_at: u32,
}

impl Model for Ended {
    ghost use Rattle.abstract_run.specs.RunFacts.{PublishedEvent};

    ghost Value = { PublishedEvent };

    ghost view = { λ e. record { position = e.position; publication = e.publication; marked_at = e.marked_at; replied_at = e.replied_at } };

    ghost inverse = { λ e. record { position = e.position; publication = e.publication; marked_at = e.marked_at; replied_at = e.replied_at } };
}
