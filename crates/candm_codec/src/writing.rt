ghost use Rattle.std.specs.Prelude.{◌≡◌, ◌+◌, ◌≤◌, ◌<◌, ◌^◌, ◌++◌, length, take, Ok};
ghost use Rattle.candm_codec.specs.Reply.{IsTrackingReply, reply_of};
ghost use Rattle.candm_codec.specs.Request.{IsTrackingRequest, request_of};
ghost use Rattle.candm_codec.specs.Text.{reply_header_text, source_text, time_text, packed_text, reply_text, request_header_text, request_text};

use crate::protocol::{
    COMMAND_TRACKING, REPLY_LENGTH, REPLY_PACKET, REPLY_TRACKING, REQUEST_LENGTH, REQUEST_PACKET,
    STATUS_SUCCESS, VERSION,
};
use crate::spelling::{put_u8, put_u16, put_u32, put_u128};
use crate::tracking::{RefTime, Tracking};
use chrony_fraction::Packed;

/// The bytes of a tracking reply, with reserved and pad bytes as 0. Source: candm.h.
#[tactic(auto, unfolding(crate::specs::Text::reply_text))]
pub fn write_reply(t: &Tracking) -> [u8; REPLY_LENGTH]
    ensures text { result ≡ reply_text t.now }
    ensures stands { IsTrackingReply result t.now }
    ensures back { reply_of result ≡ Ok t.now }
{
    let mut out = [0; REPLY_LENGTH];
    put_reply_header(&mut out, t.sequence);
    put_source(&mut out, t);
    put_time(&mut out, &t.ref_time);
    put_packed(
        &mut out,
        68,
        t.current_correction,
        t.last_offset,
        t.rms_offset,
    );
    put_packed(&mut out, 80, t.freq_ppm, t.resid_freq_ppm, t.skew_ppm);
    put_packed(
        &mut out,
        92,
        t.root_delay,
        t.root_dispersion,
        t.last_update_interval,
    );
    out
}

/// The bytes of a request for tracking, with reserved and pad bytes as 0. Source: candm.h; that there are 104 of them
/// is this project's rule.
#[tactic(auto, unfolding(crate::specs::Text::request_text))]
pub fn write_request(sequence: u32, attempt: u16) -> [u8; REQUEST_LENGTH]
    ensures text { result ≡ request_text (record { sequence = sequence; attempt = attempt }) }
    ensures stands { IsTrackingRequest result (record { sequence = sequence; attempt = attempt }) }
    ensures back { request_of result ≡ Ok (record { sequence = sequence; attempt = attempt }) }
{
    let mut out = [0; REQUEST_LENGTH];
    out[..12].copy_from_slice(&request_header(sequence, attempt));
    out
}

#[tactic(auto, unfolding(crate::specs::Text::request_header_text))]
fn request_header(sequence: u32, attempt: u16) -> [u8; 12]
    ensures text { result ≡ request_header_text (record { sequence = sequence; attempt = attempt }) }
    ensures fits { (sequence < 2 ^ 32) × (attempt < 2 ^ 16) }
{
    let mut out = [0; 12];
    put_u8(&mut out, 0, VERSION);
    put_u8(&mut out, 1, REQUEST_PACKET);
    put_u16(&mut out, 2, 0);
    put_u16(&mut out, 4, COMMAND_TRACKING);
    put_u16(&mut out, 6, attempt);
    put_u32(&mut out, 8, sequence);
    out
}

#[tactic(auto, unfolding(crate::specs::Text::reply_header_text))]
fn put_reply_header(out: &mut [u8], sequence: u32)
    requires { 28 ≤ length out.old }
    ensures text { take 28 out.new ≡ reply_header_text sequence }
    ensures fits { sequence < 2 ^ 32 }
{
    put_u8(out, 0, VERSION);
    put_u8(out, 1, REPLY_PACKET);
    put_u16(out, 2, 0);
    put_u16(out, 4, COMMAND_TRACKING);
    put_u16(out, 6, REPLY_TRACKING);
    put_u16(out, 8, STATUS_SUCCESS);
    put_u16(out, 10, 0);
    put_u16(out, 12, 0);
    put_u16(out, 14, 0);
    put_u32(out, 16, sequence);
    put_u32(out, 20, 0);
    put_u32(out, 24, 0);
}

#[tactic(auto, unfolding(crate::specs::Text::source_text))]
fn put_source(out: &mut [u8], t: &Tracking)
    requires { 56 ≤ length out.old }
    ensures text { take 56 out.new ≡ take 28 out.old ++ source_text t.now }
    ensures fits { (t.now.ref_id < 2 ^ 32) × (t.now.address < 2 ^ 128)
        × (t.now.family < 2 ^ 16) × (t.now.stratum < 2 ^ 16) }
{
    put_u32(out, 28, t.ref_id);
    put_u128(out, 32, t.address);
    put_u16(out, 48, t.family);
    put_u16(out, 50, 0);
    put_u16(out, 52, t.stratum);
    put_u16(out, 54, t.leap.code());
}

#[tactic(auto, unfolding(crate::specs::Text::time_text))]
fn put_time(out: &mut [u8], time: &RefTime)
    requires { 68 ≤ length out.old }
    ensures text { take 68 out.new ≡ take 56 out.old ++ time_text time.now }
    ensures fits { (time.now.high < 2 ^ 32) × (time.now.low < 2 ^ 32) × (time.now.nsec < 2 ^ 32) }
{
    put_u32(out, 56, time.high);
    put_u32(out, 60, time.low);
    put_u32(out, 64, time.nsec);
}

#[tactic(auto, unfolding(crate::specs::Text::packed_text))]
fn put_packed(out: &mut [u8], place: usize, a: Packed, b: Packed, c: Packed)
    requires { place + 12 ≤ length out.old }
    ensures text { take (place + 12) out.new ≡ take place out.old ++ packed_text a b c }
    ensures fits { (a.0 < 2 ^ 32) × (b.0 < 2 ^ 32) × (c.0 < 2 ^ 32) }
{
    put_u32(out, place, a.0);
    put_u32(out, place + 4, b.0);
    put_u32(out, place + 8, c.0);
}
