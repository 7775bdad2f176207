use status_machine::Heard;

/// What one poll gives to the publisher.
#[derive(Clone, Copy, Debug, PartialEq, Eq)]
pub struct Feed {
    /// The number of the poll, from 1.
    pub number: u32,
    /// What came back: what `hear` makes of the poll's reply.
    pub heard: Heard,
    /// After how many of the ten stores of this poll the daemon stops, from 0 to 10; `None` where it goes on.
    pub stop: Option<u8>,
}
