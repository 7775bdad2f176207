ghost use Rattle.std.specs.Prelude.{◌≡◌, ◌≢◌, ℕ, ◌+◌, ◌*◌, ◌%◌, ◌^◌, ◌<◌, ◌≤◌, ◌↔◌, List, [], ◌∷◌, ◌++◌, IsOk, length, slice_index, slice_index_or, Some, Ok, IsSome, if◌then◌else◌};
ghost use Rattle.clock_gate.specs.Acts.{after, WereAsked};
ghost use Rattle.clock_gate.specs.declared.act.Act.TheVariants.{Load, Store, End};
ghost use Rattle.clock_gate.specs.declared.clock_row.ClockRow.{ClockRow};
ghost use Rattle.generation_word.specs.declared.layout.Layout.{Layout};
ghost use Rattle.generation_word.specs.declared.layout.Layout.TheVariants.{Three};
ghost use Rattle.generation_word.specs.Layout.{period_of};
ghost use Rattle.generation_word.specs.Numbering.{odd_after, even_after};
ghost use Rattle.segment_layout.specs.declared.start.Start.{Start};
ghost use Rattle.segment_layout.specs.Image.{image_of, is_old_header};
ghost use Rattle.writer_reopen.specs.declared.opening.Opening.{Opening};
ghost use Rattle.writer_reopen.specs.Progress.{Ends};
ghost use Rattle.writer_reopen.specs.Opening.{version_in, opening_steps, opening_for, opening_of, OpenerState, new_opener, opening_act, opening_given, opening_left, IsMoved, loaded_words, IsAdmitted, LoadsImage};
ghost use Rattle.generation_word.specs.Header.{generation_in};
ghost use Rattle.segment_layout.specs.declared.publication.Publication.{Publication};
ghost use Rattle.status_machine.specs.declared.daemon.Daemon.{Daemon};
ghost use Rattle.writer_reopen.specs.declared.order.Order.{Order};
ghost use Rattle.writer_reopen.specs.declared.polled.Polled.TheVariants.{Published, Skipped, Stopped};
ghost use Rattle.writer_reopen.specs.Causes.{IsSkipped, IsStopped, IsPublished};
ghost use Rattle.writer_reopen.specs.Poll.{poll_of};
ghost use Rattle.writer_reopen.specs.PollMachine.{Polling, new_polling, polling_progress, polling_act, polling_given, polling_end, IsPollStage, stage_steps, entry_of};

/// What an opening promises over all its steps.
pub fn opening_laws()
    // What it wants next, or its answer, is told by all the values that it was given; it keeps them.
    ensures keeps { (layout : Layout) (values : List ℕ) → after opening_act opening_given (new_opener layout) values ≡ record { layout = layout; values = values } }
    ensures acts { (layout : Layout) (values : List ℕ) → opening_act (after opening_act opening_given (new_opener layout) values) ≡ slice_index_or (opening_steps layout (slice_index values 1)) (length values) End }

    // It takes 4 steps in a segment at generation 0, 2 or 3 after an abandoned update, and else 10 or 12.
    ensures fresh_steps { (layout : Layout) (header : ℕ) → generation_in header ≡ 0 → length (opening_steps layout header) ≡ 4 }
    ensures torn_steps { (layout : Layout) (header : ℕ) → generation_in header % 2 ≡ 1 → length (opening_steps layout header) ≡ (if is_old_header layout header then 3 else 2) }
    ensures kept_steps { (layout : Layout) (header : ℕ) → generation_in header ≢ 0 → generation_in header % 2 ≡ 0 → length (opening_steps layout header) ≡ (if is_old_header layout header then 12 else 10) }
    ensures most { (layout : Layout) (values : List ℕ) → WereAsked opening_act opening_given (new_opener layout) values → length values ≤ 12 }
    ensures nearer { (state : OpenerState) (value : ℕ) → opening_act state ≢ End → opening_left (opening_given state value) < opening_left state }

    // An opening that is handed the words of an image that is admitted meets the condition of `give`, step by step.
    ensures admitted { (layout : Layout) (image values : List ℕ) (value : ℕ) → length image ≡ 10 → IsOk (image_of layout image) → LoadsImage image values → ((word : ℕ) → opening_act (record { layout = layout; values = values }) ≡ Load word → value ≡ slice_index image word) → IsAdmitted layout (values ++ value ∷ []) × LoadsImage image (values ++ value ∷ []) }
    // Where the loaded words are those of an image that is admitted, its start is what is admitted.
    ensures start { (layout : Layout) (image values : List ℕ) (start : Start) (opening : Opening) → image_of layout image ≡ Ok start → loaded_words values ≡ loaded_words image → opening_of layout values ≡ Ends opening → opening.start ≡ start }

    // A segment is moved exactly where it is a record of version 2 in layout 3, by the next odd and even numbers.
    ensures moved { (layout : Layout) (values : List ℕ) (number : ℕ) → slice_index values 1 < 2 ^ 64 → ((opening_for layout values).moved ≡ Some number) ↔ IsMoved layout (slice_index values 1) number }
    ensures numbers { (header : ℕ) → header < 2 ^ 64 → version_in header ≡ 2 → generation_in header % 2 ≡ 0 → (odd_after (generation_in header) ≡ generation_in header + 1) × (even_after (period_of Three) (generation_in header) ≡ generation_in header + 2) }
{}

/// What a poll promises over all its steps.
pub fn poll_laws()
    // What it wants next, or its answer, is told by all the values that it was given.
    ensures follows { (clock : List ClockRow) (order : Order) (values : List ℕ) → WereAsked polling_act (polling_given clock) (new_polling order) values → polling_progress (after polling_act (polling_given clock) (new_polling order) values) ≡ poll_of clock order values }

    // It takes at most 3 steps for each try of the page, and 12.
    ensures steps { (clock : List ClockRow) (order : Order) (values : List ℕ) → WereAsked polling_act (polling_given clock) (new_polling order) values → length values ≤ 3 * order.tries + 12 }
    // A step that it wants leaves it where a poll can stand, and comes nearer to its end.
    ensures begins { (order : Order) → IsPollStage order (new_polling order).stage }
    ensures step { (clock : List ClockRow) (p : Polling) (value : ℕ) → IsPollStage p.order p.stage → polling_act p ≢ End → IsPollStage p.order (polling_given clock p value).stage × (stage_steps p.order (polling_given clock p value).stage < stage_steps p.order p.stage) }

    // Each answer has its cause, and where it has, that is the answer.
    ensures skipped { (p : Polling) (first last : ℕ) → IsPollStage p.order p.stage → (polling_end p ≡ Some (Skipped first last)) ↔ IsSkipped p.stage first last }
    ensures stopped { (p : Polling) (number : ℕ) → IsPollStage p.order p.stage → (polling_end p ≡ Some (Stopped number)) ↔ IsStopped p.order p.stage number }
    ensures published { (p : Polling) (daemon : Daemon) (publication : Publication) → IsPollStage p.order p.stage → (polling_end p ≡ Some (Published daemon publication)) ↔ IsPublished p.stage daemon publication }

    // What is published is told from the first store on: no step before is a store.
    ensures entry { (p : Polling) (word value : ℕ) → IsPollStage p.order p.stage → polling_act p ≡ Store word value → IsSome (entry_of p) }
{}
