//! Why a program has no code.
ghost use Rattle.std.specs.Prelude.{◌≡◌};

use std::alloc::{AllocError, AllocFailed};

/// Why a program has no code.
#[derive(Clone, Copy, Debug, PartialEq, Eq, thiserror::Error)]
pub enum CodeError {
    /// The program breaks a rule of types or scopes, which no program that typing made does.
    #[error("the program is malformed")]
    Malformed,
    /// The program has an expression or a statement of a kind that has no code yet.
    #[error("the program has parts that have no code yet")]
    Unbuilt,
    /// Memory ran out.
    #[error("out of memory")]
    NoMemory,
}

impl From<AllocError> for CodeError {
    ghost use Rattle.codegen.specs.declared.error.CodeError.TheVariants.{NoMemory};

    ghost from_gives = { λ _ e. e ≡ NoMemory };

    fn from(_error: AllocError) -> CodeError {
        CodeError::NoMemory
    }
}

impl<T: Drop> From<AllocFailed<T>> for CodeError {
    ghost use Rattle.codegen.specs.declared.error.CodeError.TheVariants.{NoMemory};

    ghost from_gives = { λ _ e. e ≡ NoMemory };

    fn from(_error: AllocFailed<T>) -> CodeError {
        CodeError::NoMemory
    }
}
