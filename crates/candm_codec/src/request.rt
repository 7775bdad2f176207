/// A request for tracking. Source: candm.h, `CMD_Request`.
#[derive(Clone, Copy, Debug, PartialEq, Eq, Hash)]
pub struct Request {
    /// The number that the reply repeats, `uint32_t`; any number.
    pub sequence: u32,
    /// How often the client sent this request before, counted from 0, `uint16_t`; any number.
    pub attempt: u16,
}

/// Why bytes are no request for tracking: the first fault, in this order.
#[derive(Clone, Copy, Debug, PartialEq, Eq, Hash)]
pub enum RequestFault {
    /// There are fewer than 104 bytes.
    Short,
    /// The protocol version, byte 0, is not 6.
    Version,
    /// The packet type, byte 1, is not 1, a request.
    PacketType,
    /// The command, bytes 4 and 5, is not 33, tracking.
    Command,
}
