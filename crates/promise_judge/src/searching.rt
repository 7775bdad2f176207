//! Numbers out of tables.
ghost use Rattle.std.specs.Prelude.{◌≡◌, ◌<◌, ◌^◌, length, max, slice_index};
ghost use Rattle.promise_judge.specs.Searching.{if_below as is_if_below};

// The entry of a table at a place.
pub(crate) fn entry(table: &Vec<u32>, at: u64) -> u64
    requires { at < length table.now.items }
    ensures value { result ≡ slice_index table.now.items at }
    ensures most { result < 2 ^ 32 }
{
    u64::from(table[at as usize])
}

// A number, where it is below this one.
pub(crate) fn if_below(high: u64, n: u64) -> Option<u64>
    ensures { result ≡ is_if_below high n }
{
    if n < high { Some(n) } else { None }
}

pub(crate) fn larger(a: u64, b: u64) -> u64
    ensures { result ≡ max a b }
{
    if a < b { b } else { a }
}
