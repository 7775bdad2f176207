use std::marker::Model;

/// What a seat knows. No value of it is made: contracts see it as a record of `specs/ViewAfter`.
#[derive(Drop)]
pub struct View {
    nothing_seen: bool,
}

impl Model for View {
    ghost use Rattle.segment_views.specs.Views.{SeatView, no_view};

    ghost Value = { SeatView };

    ghost view = { λ v. no_view };
}
