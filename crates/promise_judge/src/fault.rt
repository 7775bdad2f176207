/// A test that finds a fault. The tests stand in the order in which they are made. They are this project's own.
#[derive(Clone, Copy, Debug, PartialEq, Eq, Hash)]
pub enum Why {
    /// As many publications as the period of the layout, or more, were finished inside the read: `at` tells how many.
    Wrap,
    /// No poll of the run gave the base: the record stood in the image, or its base did. `at` is 0.
    Image,
    /// A clock row from the base poll's second one to the claim's tells no truth: `at` is the first such row.
    Untold,
    /// At the base poll's second clock row the clock was farther from the truth than the record's bound: `at` is this row.
    Bound,
    /// From one clock row to the next the clock's offset from the truth changed by more than the drift, and no disruption
    /// after the base poll's marker load lies between them: `at` is the later row of the first such pair.
    Drift,
    /// The counter was disrupted after the base poll's marker load and before the claim's clock row, and no page row told
    /// it before the client's marker load: `at` is the host position of the first such disruption.
    Mark,
    /// A page row finished at the client's marker load has another marker than the page just before it, and that of an
    /// earlier page: `at` is the host position of the first such row.
    Repeat,
}

/// The first fault of a claim.
#[derive(Clone, Copy, Debug, PartialEq, Eq, Hash)]
pub struct Fault {
    /// The test that finds it.
    pub why: Why,
    /// Where, as each test tells it.
    pub at: u64,
}
