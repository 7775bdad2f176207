ghost use Rattle.std.specs.Prelude.{◌≡◌, ◌≤◌, ◌%◌, length, IfOk, IfErr};
ghost use Rattle.vmclock_page.specs.ClockPage.{ClockPage};
ghost use Rattle.vmclock_page.specs.Numbers.{number};
ghost use Rattle.clock_gate.specs.FirstFault.{first_fault};
ghost use Rattle.vmclock_page.specs.Page.{IsClockPage, page_at, tests, page_of};

use crate::fault::PageFault;
use crate::layout::{MAGIC, PAGE_BYTES, VERSION};
use crate::numbers::{u8_at, u16_at, u32_at, u64_at};
use crate::page::Page;

fn page(bytes: &[u8]) -> Page
    requires long { PAGE_BYTES ≤ length bytes.now }
    requires size { PAGE_BYTES ≤ number 4 4 bytes.now }
    requires even { number 4 12 bytes.now % 2 ≡ 0 }
    ensures { result ≡ page_at bytes.now }
{
    Page {
        size: u32_at(bytes, 4),
        counter_id: u8_at(bytes, 10),
        time_type: u8_at(bytes, 11),
        seq_count: u32_at(bytes, 12),
        disruption_marker: u64_at(bytes, 16),
        flags: u64_at(bytes, 24),
        clock_status: u8_at(bytes, 34),
        leap_second_smearing_hint: u8_at(bytes, 35),
        tai_offset_sec: u16_at(bytes, 36),
        leap_indicator: u8_at(bytes, 38),
        counter_period_shift: u8_at(bytes, 39),
        counter_value: u64_at(bytes, 40),
        counter_period_frac_sec: u64_at(bytes, 48),
        counter_period_esterror_rate_frac_sec: u64_at(bytes, 56),
        counter_period_maxerror_rate_frac_sec: u64_at(bytes, 64),
        time_sec: u64_at(bytes, 72),
        time_frac_sec: u64_at(bytes, 80),
        time_esterror_nanosec: u64_at(bytes, 88),
        time_maxerror_nanosec: u64_at(bytes, 96),
    }
}

/// What the bytes of a page tell. The two pad bytes and all bytes after the 104th are ignored; a size above 104, as
/// of a whole memory page, is accepted.
#[tactic(auto, unfolding(crate::specs::Page::page_of))]
pub fn read_page(bytes: &[u8]) -> Result<Page, PageFault>
    // What is read stands there.
    ensures found { IfOk result (IsClockPage bytes.now) }
    // What stands there is read.
    ensures only { (p : ClockPage) → IsClockPage bytes.now p → result ≡ Ok p }
    // Else it is the first fault.
    ensures fault { IfErr result (λ f. first_fault (tests bytes.now) ≡ Some f) }
    ensures exact { result ≡ page_of bytes.now }
{
    if bytes.len() < PAGE_BYTES as usize {
        return Err(PageFault::Short);
    }
    if u32_at(bytes, 0) != MAGIC {
        return Err(PageFault::Magic);
    }
    let size = u32_at(bytes, 4);
    if size < PAGE_BYTES {
        return Err(PageFault::Size(size));
    }
    let version = u16_at(bytes, 8);
    if version != VERSION {
        return Err(PageFault::Version(version));
    }
    let count = u32_at(bytes, 12);
    if count % 2 != 0 {
        return Err(PageFault::Odd(count));
    }
    Ok(page(bytes))
}
