ghost use Rattle.std.specs.Prelude.{◌≡◌, ℕ, ◌+◌, ◌%◌, ◌<◌, ◌^◌};
ghost use Rattle.vmclock_page.specs.Counting.{count_of_page, page_number_of};

/// The number of a page since the start page, which has number 0: half of `sequence - start` modulo 2^32, rounded
/// down. The sequence count of the next page while it is being written, which is odd, gives the page before it.
pub fn page_number(start: u32, sequence: u32) -> u32
    ensures exact { result ≡ page_number_of start sequence }
    ensures whole { (page : ℕ) → page < 2 ^ 31 → sequence ≡ count_of_page start page → result ≡ page }
    ensures updating { (page : ℕ) → page < 2 ^ 31 → sequence ≡ (count_of_page start page + 1) % 2 ^ 32 → result ≡ page }
{
    sequence.wrapping_sub(start) / 2
}
