ghost use Rattle.std.specs.Prelude.{◌≡◌};
ghost use Rattle.status_machine.specs.Poll.{heard_of, reference_of};

use candm_codec::{RefTime, ReplyFault, Tracking, read_reply};

/// What came back when chronyd was asked.
#[derive(Clone, Copy, Debug, PartialEq, Eq)]
pub enum Heard {
    /// A readable reply.
    Reply(Tracking),
    /// Nothing.
    Missing,
    /// Bytes that are no tracking reply, with their first fault.
    Refused(ReplyFault),
}

/// What these bytes of a reply say: `Missing` where there are none, else what `read_reply` gives.
pub fn hear(reply: &[u8]) -> Heard
    ensures { result ≡ heard_of reply.now }
{
    if reply.is_empty() {
        return Heard::Missing;
    }
    match read_reply(reply) {
        Ok(tracking) => Heard::Reply(tracking),
        Err(fault) => Heard::Refused(fault),
    }
}

impl Heard {
    // The reference time of a readable reply.
    pub(crate) fn reference(&self) -> Option<RefTime>
        ensures { result ≡ reference_of self.now }
    {
        match self {
            Heard::Reply(tracking) => Some(tracking.ref_time),
            Heard::Missing | Heard::Refused(_) => None,
        }
    }
}
