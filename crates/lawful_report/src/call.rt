/// One call of a client.
#[derive(Clone, Copy, Debug, PartialEq, Eq)]
pub struct Call {
    /// The client, from 1.
    pub client: u32,
    /// The number of the call among those of this client, from 1.
    pub number: u32,
    /// How often it tries, from 1 to 1,000.
    pub tries: u16,
}
