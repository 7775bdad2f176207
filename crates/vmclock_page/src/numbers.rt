//! Little-endian numbers at their places.
ghost use Rattle.std.specs.Prelude.{◌≡◌, ◌+◌, ◌≤◌, length};
ghost use Rattle.vmclock_page.specs.Numbers.{number};

use byteorder::{ByteOrder, LittleEndian};

#[tactic(auto, unfolding(crate::specs::Numbers::number))]
pub fn u8_at(bytes: &[u8], place: usize) -> u8
    requires { place + 1 ≤ length bytes.now }
    ensures { result ≡ number 1 place bytes.now }
{
    bytes[place]
}

#[tactic(auto, unfolding(crate::specs::Numbers::number))]
pub fn u16_at(bytes: &[u8], place: usize) -> u16
    requires { place + 2 ≤ length bytes.now }
    ensures { result ≡ number 2 place bytes.now }
{
    LittleEndian::read_u16(&bytes[place..])
}

#[tactic(auto, unfolding(crate::specs::Numbers::number))]
pub fn u32_at(bytes: &[u8], place: usize) -> u32
    requires { place + 4 ≤ length bytes.now }
    ensures { result ≡ number 4 place bytes.now }
{
    LittleEndian::read_u32(&bytes[place..])
}

#[tactic(auto, unfolding(crate::specs::Numbers::number))]
pub fn u64_at(bytes: &[u8], place: usize) -> u64
    requires { place + 8 ≤ length bytes.now }
    ensures { result ≡ number 8 place bytes.now }
{
    LittleEndian::read_u64(&bytes[place..])
}
