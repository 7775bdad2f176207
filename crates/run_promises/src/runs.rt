//! Laws of the events of every run.
ghost use Rattle.run_promises.specs.Runs.{AnyRunMarks, AnyRunTells, RunsTellSegment, WholeRunIsRun};

/// What holds after any turns of the parties of a trace, in any order.
pub fn any_run()
    // The run of a trace's whole schedule is one of them.
    ensures whole { WholeRunIsRun }

    // A publication that is told of a position is the one that stands there.
    ensures segment { RunsTellSegment }

    // What each event tells of rows, positions and bases.
    ensures told { AnyRunTells }

    // A publication's record has the marker that the poll loaded, and while it isn't disrupted its base poll had loaded the same; an
    // answer's interval is by the record that was published at its position.
    ensures marked { AnyRunMarks }
{}
