use crate::lease::Lease;
use crate::waiting::Waiting;

/// What commit wait and the lease make of an answer.
#[derive(Clone, Copy, Debug, PartialEq, Eq)]
pub struct Step {
    pub wait: Waiting,
    pub lease: Lease,
}
