ghost use Rattle.std.specs.Prelude.{◌≡◌, ◌≤◌, length, IfOk, IfErr, Some, Ok};
ghost use Rattle.clock_gate.specs.FirstFault.{first_fault};
ghost use Rattle.candm_codec.specs.Reply.{leap_at, tracking_at, IsTrackingReply, reply_tests, reply_of};
ghost use Rattle.candm_codec.specs.Request.{request_at, IsTrackingRequest, request_tests, request_of};
ghost use Rattle.candm_codec.specs.declared.request.Request.{Request};
ghost use Rattle.candm_codec.specs.declared.tracking.Tracking.{Tracking};

use crate::numbers::{u8_at, u16_at, u32_at, u128_at};
use crate::protocol::{
    COMMAND_TRACKING, LARGEST_LEAP, REPLY_LENGTH, REPLY_PACKET, REPLY_TRACKING, REQUEST_LENGTH,
    REQUEST_PACKET, STATUS_SUCCESS, VERSION,
};
use crate::request::{Request, RequestFault};
use crate::tracking::{Leap, RefTime, ReplyFault, Tracking};
use chrony_fraction::Packed;

/// What the bytes of a tracking reply tell, or their first fault in the order of `ReplyFault`. Reserved and pad bytes,
/// and those after the 104th, may be anything. Source: candm.h; that longer replies are read is this project's rule.
#[tactic(auto, unfolding(crate::specs::Reply::reply_of))]
pub fn read_reply(bytes: &[u8]) -> Result<Tracking, ReplyFault>
    // What is read stands there.
    ensures found { IfOk result (IsTrackingReply bytes.now) }
    // What stands there is read.
    ensures only { (t : Tracking) → IsTrackingReply bytes.now t → result ≡ Ok t }
    // Else it is the first fault.
    ensures fault { IfErr result (λ f. first_fault (reply_tests bytes.now) ≡ Some f) }
    ensures exact { result ≡ reply_of bytes.now }
{
    if bytes.len() < REPLY_LENGTH {
        return Err(ReplyFault::Short);
    }
    if u8_at(bytes, 0) != VERSION {
        return Err(ReplyFault::Version);
    }
    if u8_at(bytes, 1) != REPLY_PACKET {
        return Err(ReplyFault::PacketType);
    }
    if u16_at(bytes, 4) != COMMAND_TRACKING {
        return Err(ReplyFault::Command);
    }
    if u16_at(bytes, 6) != REPLY_TRACKING {
        return Err(ReplyFault::NotTracking);
    }
    let status = u16_at(bytes, 8);
    if status != STATUS_SUCCESS {
        return Err(ReplyFault::Status(status));
    }
    let leap = u16_at(bytes, 54);
    if leap > LARGEST_LEAP {
        return Err(ReplyFault::Leap(leap));
    }
    Ok(tracking_at(bytes))
}

/// What the bytes of a request for tracking ask, or their first fault in the order of `RequestFault`. Reserved and pad
/// bytes, and those after the 104th, may be anything. Source: candm.h; that a request has 104 bytes, and that longer
/// ones are read, is this project's rule.
#[tactic(auto, unfolding(crate::specs::Request::request_of))]
pub fn read_request(bytes: &[u8]) -> Result<Request, RequestFault>
    // What is read stands there.
    ensures found { IfOk result (IsTrackingRequest bytes.now) }
    // What stands there is read.
    ensures only { (r : Request) → IsTrackingRequest bytes.now r → result ≡ Ok r }
    // Else it is the first fault.
    ensures fault { IfErr result (λ f. first_fault (request_tests bytes.now) ≡ Some f) }
    ensures exact { result ≡ request_of bytes.now }
{
    if bytes.len() < REQUEST_LENGTH {
        return Err(RequestFault::Short);
    }
    if u8_at(bytes, 0) != VERSION {
        return Err(RequestFault::Version);
    }
    if u8_at(bytes, 1) != REQUEST_PACKET {
        return Err(RequestFault::PacketType);
    }
    if u16_at(bytes, 4) != COMMAND_TRACKING {
        return Err(RequestFault::Command);
    }
    Ok(Request {
        sequence: u32_at(bytes, 8),
        attempt: u16_at(bytes, 6),
    })
}

fn tracking_at(bytes: &[u8]) -> Tracking
    requires { 104 ≤ length bytes.now }
    ensures { result ≡ tracking_at bytes.now }
{
    Tracking {
        sequence: u32_at(bytes, 16),
        ref_id: u32_at(bytes, 28),
        address: u128_at(bytes, 32),
        family: u16_at(bytes, 48),
        stratum: u16_at(bytes, 52),
        leap: leap_at(u16_at(bytes, 54)),
        ref_time: RefTime {
            high: u32_at(bytes, 56),
            low: u32_at(bytes, 60),
            nsec: u32_at(bytes, 64),
        },
        current_correction: Packed(u32_at(bytes, 68)),
        last_offset: Packed(u32_at(bytes, 72)),
        rms_offset: Packed(u32_at(bytes, 76)),
        freq_ppm: Packed(u32_at(bytes, 80)),
        resid_freq_ppm: Packed(u32_at(bytes, 84)),
        skew_ppm: Packed(u32_at(bytes, 88)),
        root_delay: Packed(u32_at(bytes, 92)),
        root_dispersion: Packed(u32_at(bytes, 96)),
        last_update_interval: Packed(u32_at(bytes, 100)),
    }
}

fn leap_at(code: u16) -> Leap
    ensures { result ≡ leap_at code }
{
    match code {
        0 => Leap::Normal,
        1 => Leap::Insert,
        2 => Leap::Delete,
        _ => Leap::Unsynchronised,
    }
}
