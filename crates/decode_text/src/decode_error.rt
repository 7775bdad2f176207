ghost use Rattle.std.specs.Prelude.{◌≡◌};
ghost use Rattle.decode_text.specs.declared.decode_error.DecodeError.TheVariants.{Memory};

use std::alloc::AllocError;
use thiserror::Error;

/// Why a text is not decoded.
#[derive(Clone, Copy, Debug, PartialEq, Eq, Hash, Error)]
pub enum DecodeError {
    /// It has a byte that is neither a digit nor a blank, or an odd number of digits.
    #[error("hex")]
    Hex,
    /// No memory was found.
    #[error("out of memory")]
    Memory,
}

impl From<AllocError> for DecodeError {
    ghost from_gives = { λ _ e. e ≡ Memory };

    fn from(_error: AllocError) -> DecodeError {
        DecodeError::Memory
    }
}
