//! A page as bytes, field by field from the front.
ghost use Rattle.std.specs.Prelude.{◌≡◌, ◌+◌, ◌≤◌, ◌<◌, ◌^◌, ◌++◌, length, take, Ok};
ghost use Rattle.vmclock_page.specs.Numbers.{number, spelled};
ghost use Rattle.vmclock_page.specs.Bounds.{HeaderFits, StatusFits, CounterFits, TimeFits, KeepsBounds};
ghost use Rattle.vmclock_page.specs.Page.{IsClockPage, page_of, header_text, status_text, counter_text, time_text, page_text};

use crate::layout::{MAGIC, VERSION};
use crate::page::Page;
use byteorder::{ByteOrder, LittleEndian};

// A number at a place: what stands before it stays.
#[tactic(auto, unfolding(crate::specs::Numbers::spelled))]
fn put_u8(out: &mut [u8], at: usize, x: u8)
    requires { at + 1 ≤ length out.old }
    ensures text { take (at + 1) out.new ≡ take at out.old ++ spelled 1 x }
    ensures fits { x < 2 ^ 8 }
{
    out[at] = x;
}

#[tactic(auto, unfolding(crate::specs::Numbers::spelled))]
fn put_u16(out: &mut [u8], at: usize, x: u16)
    requires { at + 2 ≤ length out.old }
    ensures text { take (at + 2) out.new ≡ take at out.old ++ spelled 2 x }
    ensures fits { x < 2 ^ 16 }
{
    LittleEndian::write_u16(&mut out[at..at + 2], x);
}

#[tactic(auto, unfolding(crate::specs::Numbers::spelled))]
fn put_u32(out: &mut [u8], at: usize, x: u32)
    requires { at + 4 ≤ length out.old }
    ensures text { take (at + 4) out.new ≡ take at out.old ++ spelled 4 x }
    ensures fits { x < 2 ^ 32 }
{
    LittleEndian::write_u32(&mut out[at..at + 4], x);
}

#[tactic(auto, unfolding(crate::specs::Numbers::spelled))]
fn put_u64(out: &mut [u8], at: usize, x: u64)
    requires { at + 8 ≤ length out.old }
    ensures text { take (at + 8) out.new ≡ take at out.old ++ spelled 8 x }
    ensures fits { x < 2 ^ 64 }
{
    LittleEndian::write_u64(&mut out[at..at + 8], x);
}

#[tactic(auto, unfolding(crate::specs::Page::header_text))]
fn put_header(out: &mut [u8], page: &Page)
    requires { 16 ≤ length out.old }
    ensures text { take 16 out.new ≡ header_text page.now }
    ensures fits { HeaderFits page.now }
{
    put_u32(out, 0, MAGIC);
    put_u32(out, 4, page.size);
    put_u16(out, 8, VERSION);
    put_u8(out, 10, page.counter_id);
    put_u8(out, 11, page.time_type);
    put_u32(out, 12, page.seq_count);
}

#[tactic(auto, unfolding(crate::specs::Page::status_text))]
fn put_status(out: &mut [u8], page: &Page)
    requires { 40 ≤ length out.old }
    ensures text { take 40 out.new ≡ take 16 out.old ++ status_text page.now }
    ensures fits { StatusFits page.now }
{
    put_u64(out, 16, page.disruption_marker);
    put_u64(out, 24, page.flags);
    put_u16(out, 32, 0);
    put_u8(out, 34, page.clock_status);
    put_u8(out, 35, page.leap_second_smearing_hint);
    put_u16(out, 36, page.tai_offset_sec);
    put_u8(out, 38, page.leap_indicator);
    put_u8(out, 39, page.counter_period_shift);
}

#[tactic(auto, unfolding(crate::specs::Page::counter_text))]
fn put_counter(out: &mut [u8], page: &Page)
    requires { 72 ≤ length out.old }
    ensures text { take 72 out.new ≡ take 40 out.old ++ counter_text page.now }
    ensures fits { CounterFits page.now }
{
    put_u64(out, 40, page.counter_value);
    put_u64(out, 48, page.counter_period_frac_sec);
    put_u64(out, 56, page.counter_period_esterror_rate_frac_sec);
    put_u64(out, 64, page.counter_period_maxerror_rate_frac_sec);
}

#[tactic(auto, unfolding(crate::specs::Page::time_text))]
fn put_time(out: &mut [u8], page: &Page)
    requires { 104 ≤ length out.old }
    ensures text { take 104 out.new ≡ take 72 out.old ++ time_text page.now }
    ensures fits { TimeFits page.now }
{
    put_u64(out, 72, page.time_sec);
    put_u64(out, 80, page.time_frac_sec);
    put_u64(out, 88, page.time_esterror_nanosec);
    put_u64(out, 96, page.time_maxerror_nanosec);
}

/// The bytes of a page, with 0 in the two pad bytes. `read_page` gives the page back.
#[tactic(auto, unfolding(crate::specs::Page::page_text))]
pub fn write_page(page: &Page) -> [u8; 104]
    ensures text { result ≡ page_text page.now }
    // The bytes stand for the page, and are read as it.
    ensures stands { IsClockPage result page.now }
    ensures back { page_of result ≡ Ok page.now }
    ensures pads { number 2 32 result ≡ 0 }
    // What holds of every page.
    ensures kept { KeepsBounds page.now }
{
    let mut out = [0; 104];
    put_header(&mut out, page);
    put_status(&mut out, page);
    put_counter(&mut out, page);
    put_time(&mut out, page);
    out
}
