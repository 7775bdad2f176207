//! Laws of the answers of every run.
ghost use Rattle.run_promises.specs.Judged.{AnswersFitJudge, AnswersFollowPolls, FreshRunsHavePolls, HeldRunsContainTruth, KeptAnswersContainTruth};

/// What holds of each answer that is Synchronized or Free Running, after any turns of the parties of a trace.
pub fn kept_answers()
    // Its claim can be judged: its numbers are those of rows, in their order.
    ensures fit { AnswersFitJudge }

    // Its interval is by the bound and the as-of of its base poll, whose marker the client saw too.
    ensures follow { AnswersFollowPolls }

    // In a run that begins on an image without a record it has a base poll, and few publications lie inside its read.
    ensures fresh { FreshRunsHavePolls }

    // Without a fault it contains true time: the truth of its clock row is told, and lies in its interval.
    ensures contain { KeptAnswersContainTruth }

    // So do all of them, where the premises of the run held.
    ensures held { HeldRunsContainTruth }
{}
