//! What an interval promises, and a client call for all values that it can be given.
ghost use Rattle.std.specs.Prelude.{◌≡◌, ℕ, ◌<◌, ◌↔◌, Bool, List, None};
ghost use Rattle.clock_gate.specs.declared.clock_row.ClockRow.{ClockRow};
ghost use Rattle.clock_gate.specs.Acts.{Touch, WereAsked};
ghost use Rattle.interval_now.specs.Call.{Call, started_call, act_of, end_of, given, Agrees, reading_taken};
ghost use Rattle.interval_now.specs.declared.answers.Answer.{Answer};
ghost use Rattle.interval_now.specs.CallRun.{CallCameTo, CallDid, ReadsAll, AnswersTime};
ghost use Rattle.interval_now.specs.CallValues.{FollowsItsValues};
ghost use Rattle.interval_now.specs.Status.{IntervalsHaveStatus};

/// What the status of an interval promises.
pub fn status_law()
    // Each of the four comes exactly where its case holds.
    ensures { IntervalsHaveStatus }
{}

/// What a client call promises.
pub fn call_laws()
    // Its acts, its answer and the number of its steps are those of its tries, its clock row and its interval, by all the
    // values that it was given.
    ensures follows { (clock : List ClockRow) (tries : ℕ) (support : Bool) (values : List ℕ) → 0 < tries → WereAsked act_of (given clock) (started_call tries support) values → FollowsItsValues clock tries support values }

    // It came to an answer exactly where its steps are those of the segment's tries, then the clock's, and then those of the
    // page's tries, where there is one.
    ensures told { (clock : List ClockRow) (tries : ℕ) (support : Bool) (touches : List Touch) (answer : Answer) → 0 < tries → CallCameTo clock tries support touches answer ↔ CallDid clock tries support touches answer }

    // A call answers a time where a try reads a record, the clock's row lies at most 1,000 ns before it, and a try reads the
    // page, where there is one.
    ensures completes { (clock : List ClockRow) (tries : ℕ) (support : Bool) (touches : List Touch) → 0 < tries → ReadsAll clock tries support touches → AnswersTime clock tries support touches }

    // Where it goes on, it is the same by every clock that has the reading that it has taken, and such a clock had it before.
    ensures same { (clock other : List ClockRow) (call : Call) (value : ℕ) → end_of (given clock call value) ≡ None → Agrees other (reading_taken (given clock call value).stage) → (given other call value ≡ given clock call value) × Agrees other (reading_taken call.stage) }
{}
