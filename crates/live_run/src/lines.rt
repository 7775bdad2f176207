//! The lines of a run, one after another.
ghost use Rattle.std.specs.Prelude.{◌≡◌, ◌+◌, ◌<◌, [], ◌∷◌, ◌++◌, vec_len, vec_capacity};
ghost use Rattle.live_report.specs.declared.line.Line.TheVariants as told;

use interval_now::Answer;
use live_report::Line;
use segment_layout::Start;
use writer_reopen::{Opening, Polled};

/// The line of an opening before this poll.
pub(crate) fn opened_line(poll: u32, opening: &Opening) -> Line
    ensures { result ≡ told.Opened poll opening.now.start opening.now.moved }
{
    Line::Opened {
        poll,
        start: opening.start,
        moved: opening.moved,
    }
}

/// The line of this poll.
pub(crate) fn polled_line(poll: u32, polled: &Polled) -> Line
    ensures { result ≡ told.Polled poll polled.now }
{
    Line::Polled {
        poll,
        polled: *polled,
    }
}

/// One line more, for which there is room.
pub(crate) fn say(lines: &mut Vec<Line>, line: Line)
    requires room { vec_len lines.old < vec_capacity lines.old }
    ensures items { lines.new.items ≡ lines.old.items ++ line ∷ [] }
    ensures len { vec_len lines.new ≡ vec_len lines.old + 1 }
    ensures capacity { vec_capacity lines.new ≡ vec_capacity lines.old }
{
    // Names the types of a line's fields: without them the check knows of no plan for a list of lines.
    let _fields: (Option<Start>, Option<Polled>, Option<Answer>) = (None, None, None);
    lines.push_reserved(line);
}
