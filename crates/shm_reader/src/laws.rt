//! What a read of the segment promises for all values that it can be given.
ghost use Rattle.std.specs.Prelude.{◌≡◌, ℕ, ◌+◌, ◌*◌, ◌≤◌, List, length};
ghost use Rattle.clock_gate.specs.Acts.{after, WereAsked};
ghost use Rattle.seqlock.specs.Tries.{started, progress, read_of};
ghost use Rattle.shm_reader.specs.SegmentRun.{IsToldByItsTries};
ghost use Rattle.shm_reader.specs.SegmentTries.{segment_lock, act_of, given};

/// What a read of the segment promises, whatever the words are.
pub fn segment_read_laws()
    // The next act and the end are those of its tries, by all the values that it was given.
    ensures follows { (tries : ℕ) (values : List ℕ) → WereAsked act_of given (started tries) values → progress segment_lock (after act_of given (started tries) values) ≡ read_of segment_lock tries 0 0 values }
    ensures steps { (tries : ℕ) (values : List ℕ) → WereAsked act_of given (started tries) values → length values ≤ 10 * tries }
    // What it saw is told by its steps, try by try; and the other way round.
    ensures told { IsToldByItsTries }
{}
