use promise_judge::Why;

/// Whether the promises of a run's answers were kept.
#[derive(Clone, Copy, Debug, PartialEq, Eq, Hash)]
pub enum Premises {
    /// Each answer that is Synchronized or Free Running passes all tests.
    Held,
    /// The first such answer that doesn't, in the order of the events: call `call` of client `client`, both from 1, with the
    /// first test that finds a fault, and where.
    Failed {
        client: u32,
        call: u32,
        why: Why,
        at: u64,
    },
}
