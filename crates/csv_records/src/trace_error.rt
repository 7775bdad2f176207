//! Why a text is refused, and at which record.
ghost use Rattle.std.specs.Prelude.{◌≡◌};
ghost use Rattle.csv_records.specs.declared.trace_error.TraceError.TheVariants.{Memory};

use crate::reason::Reason;
use std::alloc::{AllocError, AllocFailed};
use std::fmt;
use thiserror::Error;

/// The first record of a text that is refused, and the first reason to refuse it. Shown as `line 3: clockback`.
#[derive(Clone, Copy, Debug, PartialEq, Eq, Hash)]
pub struct TraceFault {
    /// The number of the record, from 1. Empty lines aren't counted.
    pub line: u32,
    pub reason: Reason,
}

impl fmt::Display for TraceFault {
    ghost use Rattle.std.specs.Prelude.{Some};
    ghost use Rattle.csv_records.specs.TraceError.{fault_text};

    ghost output = { λ fault. Some (fault_text fault) };

    #[tactic(auto, unfolding(crate::specs::TraceError::fault_text))]
    fn fmt<W: fmt::Write>(&self, f: &mut fmt::Formatter<W>) -> fmt::Result {
        let (line, reason) = (self.line, self.reason);
        write!(f, "line {line}: {reason}")
    }
}

/// Why a text was not read.
#[derive(Debug, Drop, Error)]
pub enum TraceError {
    /// One of its records is refused.
    #[error("{0}")]
    Refused(TraceFault),
    /// No memory was found.
    #[error("out of memory")]
    Memory,
}

impl From<AllocError> for TraceError {
    ghost from_gives = { λ _ e. e ≡ Memory };

    fn from(_error: AllocError) -> TraceError {
        TraceError::Memory
    }
}

impl<T: Drop> From<AllocFailed<T>> for TraceError {
    ghost from_gives = { λ _ e. e ≡ Memory };

    fn from(_error: AllocFailed<T>) -> TraceError {
        TraceError::Memory
    }
}
