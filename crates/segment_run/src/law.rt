ghost use Rattle.std.specs.Prelude.{◌≡◌, ℕ, ◌^◌, ◌<◌, List, Ok, length, slice_index, take};
ghost use Rattle.generation_word.specs.declared.layout.Layout.{Layout};
ghost use Rattle.segment_layout.specs.Image.{image_of};
ghost use Rattle.segment_layout.specs.declared.start.Start.{Start};
ghost use Rattle.segment_run.specs.SegmentRun.{SegmentRun, segment_start, start_found};
ghost use Rattle.segment_run.specs.ShowsSegment.{ShowsSegment};

/// What holds of every segment, from the image that it begins with on.
pub fn segment_laws()
    // Words that begin with an image that is admitted show the segment that it begins with.
    ensures begins { (layout : Layout) (image words : List ℕ) (sequence : ℕ) (start : Start) → length image ≡ 10 → slice_index image 1 < 2 ^ 64 → image_of layout image ≡ Ok start → length words ≡ 24 → ((word : ℕ) → word < 10 → slice_index words word ≡ slice_index image word) → ShowsSegment (segment_start layout image sequence) words }
    // Its first opening finds what the image holds.
    ensures found { (layout : Layout) (image : List ℕ) (sequence : ℕ) (start : Start) → slice_index image 1 < 2 ^ 64 → image_of layout image ≡ Ok start → start_found (segment_start layout image sequence) ≡ start }

    // At every moment the first ten words are admitted as an image of what an opening finds.
    ensures admitted { (segment : SegmentRun) (words : List ℕ) → ShowsSegment segment words → slice_index words 1 < 2 ^ 64 → image_of segment.layout (take 10 words) ≡ Ok (start_found segment) }
{}
