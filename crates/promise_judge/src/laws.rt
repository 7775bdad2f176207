//! Laws of the tests.
ghost use Rattle.promise_judge.specs.Containment.{KeptClaimsContain};
ghost use Rattle.promise_judge.specs.Firsts.{FindsFirst};
ghost use Rattle.promise_judge.specs.Telling.{ToldClaimsFit};

/// What a run over lawful rows tells of a claim is that it fits the rows.
pub fn told_claims_fit()
    ensures fit { ToldClaimsFit }
{}

/// A claim without a fault has the truth of its clock row in its interval, where the run tells of its as-of, its half width and
/// its marker what `IsTrusted` says.
pub fn kept_claims_contain()
    ensures contain { KeptClaimsContain }
{}

/// A search of the tests finds the first number of its range that passes, and none exactly where none passes.
pub fn searches_find_first()
    ensures first { FindsFirst }
{}
