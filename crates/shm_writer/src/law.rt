ghost use Rattle.std.specs.Prelude.{◌≡◌, ◌≢◌, ℕ, ◌-◌, ◌<◌, ◌≤◌, List, length, slice_index, slice_index_or};
ghost use Rattle.clock_gate.specs.Acts.{after, WereAsked};
ghost use Rattle.clock_gate.specs.declared.act.Act.TheVariants.{Store, End};
ghost use Rattle.clock_gate.specs.declared.limits.TheConstants.{MOST_STORES};
ghost use Rattle.generation_word.specs.declared.layout.Layout.{Layout};
ghost use Rattle.segment_layout.specs.Record.{RecordFields};
ghost use Rattle.segment_layout.specs.Words.{record_words};
ghost use Rattle.shm_writer.specs.Publisher.{Publishing, IsPublishing, stores, new_publishing, publishing_act, publishing_given, stores_left};

/// What a publisher promises over all its steps.
pub fn publisher_laws()
    // The act after any values is the one at their number in the list of stores, so there are at most ten.
    ensures acts { (rec : RecordFields) (layout : Layout) (generation : ℕ) (values : List ℕ) → publishing_act (after publishing_act publishing_given (new_publishing rec layout generation) values) ≡ slice_index_or (stores rec layout generation) (length values) End }
    ensures most { (rec : RecordFields) (layout : Layout) (generation : ℕ) (values : List ℕ) → WereAsked publishing_act publishing_given (new_publishing rec layout generation) values → length values ≤ MOST_STORES }

    // A step keeps what holds of a publisher, and comes nearer to the end.
    ensures step { (p : Publishing) (value : ℕ) → IsPublishing p → publishing_act p ≢ End → IsPublishing (publishing_given p value) × (stores_left (publishing_given p value) < stores_left p) }

    // The k-th of the stores is of word k, from the second to the ninth.
    ensures words { (rec : RecordFields) (layout : Layout) (generation k : ℕ) → 2 ≤ k → k ≤ 9 → slice_index_or (stores rec layout generation) (k - 1) End ≡ Store k (slice_index (record_words 0 rec) k) }
{}
