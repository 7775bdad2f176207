//! What never changes of a page.
ghost use Rattle.std.specs.Prelude.{◌≡◌};
ghost use Rattle.vmclock_page.specs.Constants.{has_constants_of};

use crate::page::Page;

/// Whether a page has the constant fields of another: its size, its counter and its kind of time. The magic and the
/// version are those of every page.
pub fn has_constants_of(start: &Page, page: &Page) -> bool
    ensures { result ≡ has_constants_of start.now page.now }
{
    if page.size != start.size {
        return false;
    }
    if page.counter_id != start.counter_id {
        return false;
    }
    page.time_type == start.time_type
}
