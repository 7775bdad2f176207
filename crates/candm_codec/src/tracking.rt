ghost use Rattle.std.specs.Prelude.{◌≡◌};
ghost use Rattle.candm_codec.specs.Reply.{code_of};

use chrony_fraction::Packed;

/// Whether a leap second is announced, and whether the clock is synchronised at all. On the wire a `uint16_t`,
/// `leap_status`, of 0 to 3 in this order.
#[derive(Clone, Copy, Debug, PartialEq, Eq, Hash)]
pub enum Leap {
    /// 0: no leap second is announced.
    Normal,
    /// 1: a second will be inserted.
    Insert,
    /// 2: a second will be deleted.
    Delete,
    /// 3: the clock is not synchronised.
    Unsynchronised,
}

impl Leap {
    /// The number that stands for it in a reply, from 0 to 3.
    pub fn code(self) -> u16
        ensures { result ≡ code_of self }
    {
        match self {
            Leap::Normal => 0,
            Leap::Insert => 1,
            Leap::Delete => 2,
            Leap::Unsynchronised => 3,
        }
    }
}

/// When the clock was last updated, as the three words of candm.h's `Timespec`. This project compares them, to tell
/// one update from another, and never interprets them: they need not be a time.
#[derive(Clone, Copy, Debug, PartialEq, Eq, Hash)]
pub struct RefTime {
    /// The high half of the seconds, `uint32_t tv_sec_high`; any number.
    pub high: u32,
    /// The low half of the seconds, `uint32_t tv_sec_low`; any number.
    pub low: u32,
    /// The nanoseconds, `uint32_t tv_nsec`; any number, also one of 1,000,000,000 or more.
    pub nsec: u32,
}

/// What chronyd tells of the clock in a tracking reply. A packed number may be any of 32 bits, of either sign.
/// Source: candm.h, `CMD_Reply` and `RPY_Tracking`, and chrony's documentation of "tracking".
#[derive(Clone, Copy, Debug, PartialEq, Eq, Hash)]
pub struct Tracking {
    /// The number of the request that is answered, `uint32_t`; any number.
    pub sequence: u32,
    /// The reference ID of the source that the clock follows, `uint32_t`; any number. For an IPv4 source it is the
    /// address, and 0 where there is no source.
    pub ref_id: u32,
    /// The address of that source: the 16 bytes of `IPAddr` as one number, the first byte highest. An IPv4 address
    /// stands in the first 4.
    pub address: u128,
    /// The kind of that address, `uint16_t`: 0 none, 1 IPv4, 2 IPv6. Any number is taken.
    pub family: u16,
    /// How many computers the clock is away from a reference clock, `uint16_t`; any number. 0 where it is not
    /// synchronised.
    pub stratum: u16,
    /// The leap status, `uint16_t`; 0 to 3.
    pub leap: Leap,
    /// When the clock was last updated, `Timespec`; compared and never interpreted.
    pub ref_time: RefTime,
    /// What is to be added to the system clock to give NTP time: seconds, `Float`. Positive where the clock is slow.
    pub current_correction: Packed,
    /// The offset that the last update found: seconds, `Float`.
    pub last_offset: Packed,
    /// A long-term average of the offset: seconds, `Float`.
    pub rms_offset: Packed,
    /// How much the system clock would gain or lose if chronyd did not correct it: parts per million, `Float`.
    pub freq_ppm: Packed,
    /// How far the frequency of the source is from the one in use: parts per million, `Float`.
    pub resid_freq_ppm: Packed,
    /// The estimated error of the frequency: parts per million, `Float`.
    pub skew_ppm: Packed,
    /// The network delay of the whole way to the reference clock and back: seconds, `Float`.
    pub root_delay: Packed,
    /// The dispersion of the whole way to the reference clock: seconds, `Float`.
    pub root_dispersion: Packed,
    /// The time between the last two updates: seconds, `Float`.
    pub last_update_interval: Packed,
}

/// Why bytes are no tracking reply: the first fault, in this order.
#[derive(Clone, Copy, Debug, PartialEq, Eq, Hash)]
pub enum ReplyFault {
    /// There are fewer than 104 bytes.
    Short,
    /// The protocol version, byte 0, is not 6.
    Version,
    /// The packet type, byte 1, is not 2, a reply.
    PacketType,
    /// The command, bytes 4 and 5, is not 33, tracking.
    Command,
    /// The reply, bytes 6 and 7, is not 5, tracking.
    NotTracking,
    /// The status, bytes 8 and 9, which it holds, is not 0, success.
    Status(u16),
    /// The leap, bytes 54 and 55, which it holds, is above 3.
    Leap(u16),
}
