//! Laws over whole runs.
ghost use Rattle.abstract_run.specs.RunEnds.{LinesEnd, RunsEnd};
ghost use Rattle.abstract_run.specs.RunFacts.{RunsTell};

/// What holds of the events of every run, of every lawful trace and its schedule.
pub fn run_laws()
    // A publication tells its rows and host positions, the order of its marker and its reply, and the poll that gave its base, with
    // its as-of and bound; an answer with an interval tells its row, the order of its loads, and that its record stood at its first
    // load. What they tell is of the trace and the events before.
    ensures told { RunsTell }

    // Each job is run to its end: after a line of the schedule that asks for so many jobs of a party, so many more have ended or none
    // is left, and after the whole run no party has a job in hand or left.
    ensures lines { LinesEnd }
    ensures ends { RunsEnd }
{}
