//! What the machines promise over whole lists of values, whatever they are given.
ghost use Rattle.std.specs.Prelude.{◌≡◌, ◌≢◌, ◌+◌, ◌%◌, ◌^◌, ◌<◌, ℕ, List, Some, slice_index};
ghost use Rattle.clock_gate.specs.declared.trace.HostRow.{HostRow};
ghost use Rattle.seqlock.specs.Tries.{SeqlockRead, Unpublished, read_end};
ghost use Rattle.vmclock_page.specs.Words.{AreWords, word_with_count, count_in_word, constants_in_word};
ghost use Rattle.vmclock_page.specs.Counting.{count_of_page, page_number_of};
ghost use Rattle.vmclock_page.specs.Rows.{IsStartPage};
ghost use Rattle.vmclock_page.specs.Host.{Host, IsHost, row_begun, raised, count_of};
ghost use Rattle.vmclock_page.specs.HostRows.{MakesStores, ComesNearer, LeavesItsWords, StartsEven};
ghost use Rattle.vmclock_page.specs.PageRead.{page_lock};
ghost use Rattle.vmclock_page.specs.PageTries.{TakesAWord, FollowsItsTries};

/// What the host promises of each row: its stores come in their order, and a page row's leave its words in the page.
pub fn host_laws()
    ensures stores { MakesStores }
    ensures nearer { ComesNearer }
    ensures begins { (host : Host) (row : HostRow) → IsHost host → IsHost (row_begun host row) }
    ensures leaves { LeavesItsWords }

    // The sequence counts are those of the pages, counted from the start page, and stand in word 1.
    ensures starts { (start : List ℕ) → AreWords start → IsStartPage (Some start) → StartsEven start }
    ensures even { (start : List ℕ) → slice_index start 1 < 2 ^ 64 → count_of (Some start) % 2 ≡ 0 → StartsEven start }
    ensures counts { (start page : ℕ) → raised 2 (count_of_page start page) ≡ count_of_page start (page + 1) }
    ensures numbers { (start page : ℕ) → start < 2 ^ 32 → page < 2 ^ 31 → page_number_of start (count_of_page start page) ≡ page }
    ensures updating { (start page : ℕ) → start < 2 ^ 32 → page < 2 ^ 31 → page_number_of start (raised 1 (count_of_page start page)) ≡ page }
    ensures in_word { (constant count : ℕ) → constant < 2 ^ 32 → count_in_word (word_with_count constant count) ≡ count }
    ensures half { (constant count : ℕ) → constant < 2 ^ 32 → constants_in_word (word_with_count constant count) ≡ constant }
{}

/// What a read of the page promises: it is told by its tries, by all the words that they loaded.
pub fn page_read_laws()
    ensures follows { FollowsItsTries }
    // A page is always there.
    ensures there { (read : SeqlockRead) → read_end page_lock read ≢ Some Unpublished }

    // What one word does to it, by its place in the try.
    ensures words { (read : SeqlockRead) (word : ℕ) → TakesAWord read word }
{}
