ghost use Rattle.std.specs.Prelude.{◌≡◌, ℕ, ◌+◌, ◌<◌, ◌≤◌, List, ◌∷◌, slice_index};
ghost use Rattle.generation_word.specs.Layout.{period_of};
ghost use Rattle.generation_word.specs.declared.layout.Layout.{Layout};
ghost use Rattle.segment_layout.specs.Record.{RecordFields, KeepsBounds};
ghost use Rattle.segment_layout.specs.Words.{record_words};
ghost use Rattle.segment_layout.specs.Image.{IsImageOf};
ghost use Rattle.segment_layout.specs.History.{AbstractSegment, Begun, point, number_of, header_seen, start_seen, last_store};

/// What the abstract segment promises to those who load its words.
pub fn segment_laws()
    ensures one_point { (s t : AbstractSegment) → point s ≡ point t → s ≡ t }

    // Fewer publications than a period apart, an equal word 1 means that nothing was stored between.
    ensures one_segment { (layout : Layout) (s t : AbstractSegment) → s.position ≤ t.position → t.position < s.position + period_of layout → header_seen layout s ≡ header_seen layout t → s ≡ t }

    // A segment that shows its last record is opened as such.
    ensures opened { (layout : Layout) (s : AbstractSegment) (last : RecordFields) → KeepsBounds last.as_of last.void_after last.bound last.drift → IsImageOf layout (record_words (header_seen layout s) last) (start_seen layout s last) }

    // After the stores of its data words the segment has the new record; before the first of them it has what it had.
    ensures stored { (image : List ℕ) (begun : Begun) (older : List Begun) (word : ℕ) → 9 ≤ begun.stores → word ≤ 9 → last_store image (begun ∷ older) word ≡ slice_index (record_words 0 begun.rec) word }
    ensures untouched { (image : List ℕ) (begun : Begun) (older : List Begun) (word : ℕ) → begun.stores < word → last_store image (begun ∷ older) word ≡ last_store image older word }
{}
