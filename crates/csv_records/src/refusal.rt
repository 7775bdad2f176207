//! Why a record is refused, wherever it stands.
ghost use Rattle.std.specs.Prelude.{◌≡◌};
ghost use Rattle.csv_records.specs.declared.refusal.Refusal.TheVariants.{Memory, By};

use crate::reason::Reason;
use std::alloc::{AllocError, AllocFailed};

/// Why a record gives no line.
#[derive(Drop)]
pub enum Refusal {
    /// No memory was found.
    Memory,
    /// The record is refused for this reason.
    By(Reason),
}

impl From<AllocError> for Refusal {
    ghost from_gives = { λ _ e. e ≡ Memory };

    fn from(_error: AllocError) -> Refusal {
        Refusal::Memory
    }
}

impl From<Reason> for Refusal {
    ghost from_gives = { λ reason e. e ≡ By reason };

    fn from(reason: Reason) -> Refusal {
        Refusal::By(reason)
    }
}
