//! The lines that tell of a tracking reply, or of its first fault. Each function appends its part of them.
ghost use Rattle.std.specs.Prelude.{◌≡◌, ◌++◌, Option, None, Some, IfOk, OnOk};
ghost use Rattle.std.specs.String.{string_bytes};
ghost use Rattle.decode_text.specs.ReplyLines.{ref_id_digits, address_digits, source_part, state_part, time_part, reply_line, packed_line, offset_lines, frequency_lines, root_lines, bound_line, told_lines, refused_reply, reply_text};

use candm_codec::{RefTime, ReplyFault, Tracking, read_reply};
use chrony_fraction::{Packed, ceil_bound};
use std::alloc::{AllocError, Global};

#[tactic(auto, unfolding(crate::specs::ReplyLines::ref_id_digits))]
fn ref_id_digits(alloc: Global, ref_id: u32) -> Result<String, AllocError>
    ensures { IfOk result (λ digits. string_bytes digits ≡ ref_id_digits ref_id) }
{
    hex::encode(alloc, ref_id.to_be_bytes())
}

#[tactic(auto, unfolding(crate::specs::ReplyLines::address_digits))]
fn address_digits(alloc: Global, address: u128) -> Result<String, AllocError>
    ensures { IfOk result (λ digits. string_bytes digits ≡ address_digits address) }
{
    hex::encode(alloc, address.to_be_bytes())
}

#[tactic(auto, unfolding(crate::specs::ReplyLines::source_part))]
fn put_source(alloc: Global, text: &mut String, t: &Tracking) -> Result<(), AllocError>
    ensures { OnOk result (string_bytes text.new ≡ string_bytes text.old ++ source_part t.now) }
{
    let (sequence, family) = (t.sequence, t.family);
    let ref_id = ref_id_digits(alloc, t.ref_id)?;
    let address = address_digits(alloc, t.address)?;
    write!(text, "reply,{sequence},{ref_id},{family},{address},")
}

#[tactic(auto, unfolding(crate::specs::ReplyLines::state_part))]
fn put_state(text: &mut String, t: &Tracking) -> Result<(), AllocError>
    ensures { OnOk result (string_bytes text.new ≡ string_bytes text.old ++ state_part t.now) }
{
    let (stratum, leap) = (t.stratum, t.leap.code());
    write!(text, "{stratum},{leap},")
}

#[tactic(auto, unfolding(crate::specs::ReplyLines::time_part))]
fn put_time(text: &mut String, time: &RefTime) -> Result<(), AllocError>
    ensures { OnOk result (string_bytes text.new ≡ string_bytes text.old ++ time_part time.now) }
{
    let (high, low, nsec) = (time.high, time.low, time.nsec);
    write!(text, "{high},{low},{nsec}\n")
}

#[tactic(auto, unfolding(crate::specs::ReplyLines::reply_line))]
fn put_reply(alloc: Global, text: &mut String, t: &Tracking) -> Result<(), AllocError>
    ensures { OnOk result (string_bytes text.new ≡ string_bytes text.old ++ reply_line t.now) }
{
    put_source(alloc, text, t)?;
    put_state(text, t)?;
    put_time(text, &t.ref_time)
}

#[tactic(auto, unfolding(crate::specs::ReplyLines::packed_line))]
fn put_packed(text: &mut String, name: &str, number: Packed) -> Result<(), AllocError>
    ensures { OnOk result (string_bytes text.new ≡ string_bytes text.old ++ packed_line name.now number) }
{
    let (coefficient, power) = number.parts();
    write!(text, "packed,{name},{coefficient},{power}\n")
}

#[tactic(auto, unfolding(crate::specs::ReplyLines::offset_lines))]
fn put_offsets(text: &mut String, t: &Tracking) -> Result<(), AllocError>
    ensures { OnOk result (string_bytes text.new ≡ string_bytes text.old ++ offset_lines t.now) }
{
    put_packed(text, "current_correction", t.current_correction)?;
    put_packed(text, "last_offset", t.last_offset)?;
    put_packed(text, "rms_offset", t.rms_offset)
}

#[tactic(auto, unfolding(crate::specs::ReplyLines::frequency_lines))]
fn put_frequencies(text: &mut String, t: &Tracking) -> Result<(), AllocError>
    ensures { OnOk result (string_bytes text.new ≡ string_bytes text.old ++ frequency_lines t.now) }
{
    put_packed(text, "freq_ppm", t.freq_ppm)?;
    put_packed(text, "resid_freq_ppm", t.resid_freq_ppm)?;
    put_packed(text, "skew_ppm", t.skew_ppm)
}

#[tactic(auto, unfolding(crate::specs::ReplyLines::root_lines))]
fn put_root(text: &mut String, t: &Tracking) -> Result<(), AllocError>
    ensures { OnOk result (string_bytes text.new ≡ string_bytes text.old ++ root_lines t.now) }
{
    put_packed(text, "root_delay", t.root_delay)?;
    put_packed(text, "root_dispersion", t.root_dispersion)?;
    put_packed(text, "last_update_interval", t.last_update_interval)
}

#[tactic(auto, unfolding(crate::specs::ReplyLines::bound_line))]
fn put_bound(text: &mut String, bound: Option<u64>) -> Result<(), AllocError>
    ensures { OnOk result (string_bytes text.new ≡ string_bytes text.old ++ bound_line bound) }
{
    match bound {
        Some(bound) => write!(text, "bound,{bound}\n"),
        None => text.push_str("bound,over\n"),
    }
}

#[tactic(auto, unfolding(crate::specs::ReplyLines::told_lines))]
fn put_told(alloc: Global, text: &mut String, t: &Tracking) -> Result<(), AllocError>
    ensures { OnOk result (string_bytes text.new ≡ string_bytes text.old ++ told_lines t.now) }
{
    put_reply(alloc, text, t)?;
    put_offsets(text, t)?;
    put_frequencies(text, t)?;
    put_root(text, t)?;
    let bound = ceil_bound(t.root_delay, t.root_dispersion, t.current_correction);
    put_bound(text, bound)
}

#[tactic(auto, unfolding(crate::specs::ReplyLines::refused_reply))]
fn put_refused(text: &mut String, fault: ReplyFault) -> Result<(), AllocError>
    ensures { OnOk result (string_bytes text.new ≡ string_bytes text.old ++ refused_reply fault) }
{
    match fault {
        ReplyFault::Short => text.push_str("refused,short\n"),
        ReplyFault::Version => text.push_str("refused,version\n"),
        ReplyFault::PacketType => text.push_str("refused,type\n"),
        ReplyFault::Command => text.push_str("refused,command\n"),
        ReplyFault::NotTracking => text.push_str("refused,nottracking\n"),
        ReplyFault::Status(status) => write!(text, "refused,status,{status}\n"),
        ReplyFault::Leap(leap) => write!(text, "refused,leap,{leap}\n"),
    }
}

/// What the bytes tell as a tracking reply, appended to a text.
#[tactic(auto, unfolding(crate::specs::ReplyLines::reply_text))]
pub fn put_reply_text(alloc: Global, text: &mut String, bytes: &[u8]) -> Result<(), AllocError>
    ensures { OnOk result (string_bytes text.new ≡ string_bytes text.old ++ reply_text bytes.now) }
{
    match read_reply(bytes) {
        Ok(t) => put_told(alloc, text, &t),
        Err(fault) => put_refused(text, fault),
    }
}
