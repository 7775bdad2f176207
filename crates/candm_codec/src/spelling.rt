//! Numbers put at their places, the highest byte first. What stands before a place stays.
//!
//! Each call also tells its caller that the number fits its field, which is not known of a field behind a reference.
ghost use Rattle.std.specs.Prelude.{◌≡◌, ◌+◌, ◌≤◌, ◌<◌, ◌^◌, ◌++◌, length, take};
ghost use Rattle.candm_codec.specs.Numbers.{spelled};

use byteorder::{BigEndian, ByteOrder};

#[tactic(auto, unfolding(crate::specs::Numbers::spelled))]
pub fn put_u8(out: &mut [u8], place: usize, x: u8)
    requires { place + 1 ≤ length out.old }
    ensures text { take (place + 1) out.new ≡ take place out.old ++ spelled 1 x }
    ensures fits { x < 2 ^ 8 }
{
    out[place] = x;
}

#[tactic(auto, unfolding(crate::specs::Numbers::spelled))]
pub fn put_u16(out: &mut [u8], place: usize, x: u16)
    requires { place + 2 ≤ length out.old }
    ensures text { take (place + 2) out.new ≡ take place out.old ++ spelled 2 x }
    ensures fits { x < 2 ^ 16 }
{
    BigEndian::write_u16(&mut out[place..], x);
}

#[tactic(auto, unfolding(crate::specs::Numbers::spelled))]
pub fn put_u32(out: &mut [u8], place: usize, x: u32)
    requires { place + 4 ≤ length out.old }
    ensures text { take (place + 4) out.new ≡ take place out.old ++ spelled 4 x }
    ensures fits { x < 2 ^ 32 }
{
    BigEndian::write_u32(&mut out[place..], x);
}

pub fn put_u128(out: &mut [u8], place: usize, x: u128)
    requires { place + 16 ≤ length out.old }
    ensures text { take (place + 16) out.new ≡ take place out.old ++ spelled 16 x }
    ensures fits { x < 2 ^ 128 }
{
    out[place..place + 16].copy_from_slice(&spell_u128(x));
}

#[tactic(auto, unfolding(crate::specs::Numbers::spelled))]
fn spell_u128(x: u128) -> [u8; 16]
    ensures { result ≡ spelled 16 x }
{
    let mut out = [0; 16];
    BigEndian::write_u128(&mut out, x);
    out
}
