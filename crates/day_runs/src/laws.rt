//! Laws of a generated day and of its runs.
ghost use Rattle.day_runs.specs.DayRuns.{AnswersAreOfDay, DayRunsHold, WholeDaysHold};
ghost use Rattle.day_runs.specs.Kept.{DayKeepsItsPromises, RepliesBoundTheClock};

/// No test finds a fault of a claim that is one of a run of the day, whatever the seed, the number of polls and the schedule.
pub fn day_keeps_its_promises()
    ensures kept { DayKeepsItsPromises }
{}

/// No reply of the day bounds the clock's error by less than 244,141 ns.
pub fn replies_bound_the_clock()
    ensures reached { RepliesBoundTheClock }
{}

/// What holds of every run of every generated day, whatever the order of its parties' turns.
pub fn day_runs_hold()
    // The claim of each answer that is Synchronized or Free Running is one of the day.
    ensures claims { AnswersAreOfDay }
    // So none of them has a fault.
    ensures held { DayRunsHold }
    // So it is in the run of the day by its own schedule.
    ensures whole { WholeDaysHold }
{}
