//! Why a text is not read.

ghost use Rattle.std.specs.Prelude.{◌≡◌};

use json::Invalid;
use std::alloc::{AllocError, AllocFailed};

/// Why a text is not read as JSON.
#[derive(Clone, Copy, Debug, PartialEq, Eq, thiserror::Error)]
pub enum ReadErr {
    /// It is no JSON.
    #[error("the text is no JSON")]
    Syntax,
    /// Memory ran out.
    #[error("out of memory")]
    NoMemory,
}

impl From<AllocError> for ReadErr {
    ghost use Rattle.json_reading.specs.declared.error.ReadErr.TheVariants.{NoMemory};

    ghost from_gives = { λ _ e. e ≡ NoMemory };

    fn from(_error: AllocError) -> ReadErr {
        ReadErr::NoMemory
    }
}

impl<T: Drop> From<AllocFailed<T>> for ReadErr {
    ghost use Rattle.json_reading.specs.declared.error.ReadErr.TheVariants.{NoMemory};

    ghost from_gives = { λ _ e. e ≡ NoMemory };

    fn from(_error: AllocFailed<T>) -> ReadErr {
        ReadErr::NoMemory
    }
}

impl From<Invalid> for ReadErr {
    ghost use Rattle.json_reading.specs.declared.error.ReadErr.TheVariants.{Syntax};

    ghost from_gives = { λ _ e. e ≡ Syntax };

    fn from(_error: Invalid) -> ReadErr {
        ReadErr::Syntax
    }
}
