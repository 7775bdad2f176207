//! Where a worker can be held.

/// A place that workers pass between their jobs, so that a test can hold one there. `who` is 0 for the host, 1 for the daemon,
/// `1 + c` for client c, from 1 to 64, and 66 for the poller. `point` is `2 * j` just before job j begins and `2 * j + 1` just after it
/// ended, jobs being counted from 1 (of the host, its rows after the first; of the daemon and the poller, the polls; of a client, its calls).
/// No clause: what a pass does is nothing that a worker rests on.
pub trait Gate {
    /// Passes this point; it may take as long as it likes.
    fn pass(&self, who: u32, point: u32);
}

/// A gate that holds nobody.
pub struct NoGate;

impl Gate for NoGate {
    fn pass(&self, _who: u32, _point: u32) {}
}
