/// The counts of a report, in the order of its last line.
#[derive(Clone, Copy, Debug, PartialEq, Eq)]
pub struct Counts {
    pub publications: u32,
    pub answers: u32,
    /// The answers with an interval; the four counts below are of these, by status.
    pub times: u32,
    pub unknown: u32,
    pub synchronized: u32,
    pub free_running: u32,
    pub disrupted: u32,
}
