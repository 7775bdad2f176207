ghost use Rattle.status_machine.specs.BaseMarker.{BaseKeepsMarker, CalmStart};
ghost use Rattle.status_machine.specs.LastMark.{SinceMarkIsLast};

/// What the look back takes for the last mark is the last poll that marks: the past is some polls, none of which marks,
/// after a marking one. Where no poll marks, it is a start on a disrupted record, if the incarnation has one.
pub fn last_mark()
    ensures { SinceMarkIsLast }
{}

/// A poll that isn't disrupted and has a base has the marker that its base was taken under: that of the last synchronized
/// poll, or of the record that the segment held.
pub fn base_keeps_marker()
    ensures { BaseKeepsMarker }
{}

/// While no poll is synchronized, an incarnation that isn't disrupted began on a record that wasn't.
pub fn calm_start()
    ensures { CalmStart }
{}
