//! Why a value is not read as functions, and why a line is given no score.

ghost use Rattle.std.specs.Prelude.{◌≡◌};

use std::alloc::AllocError;

/// Why a value gives no list of functions.
#[derive(Debug, Drop, thiserror::Error)]
pub enum FunErr {
    /// The path of the first place that is wrong: `functions`, `functions.3`, or `functions.3.weight`.
    #[error("{0} is wrong")]
    Bad(String),
    /// Memory ran out.
    #[error("out of memory")]
    NoMemory,
}

impl From<AllocError> for FunErr {
    ghost use Rattle.function_score.specs.declared.error.FunErr.TheVariants.{NoMemory};

    ghost from_gives = { λ _ e. e ≡ NoMemory };

    fn from(_error: AllocError) -> FunErr {
        FunErr::NoMemory
    }
}

/// Why a filter or a script gives nothing.
#[derive(Drop)]
pub enum RunErr<E> {
    /// It ends the line.
    Failed(E),
    /// Memory ran out.
    NoMemory,
}

/// Why a line is given no score.
#[derive(Drop)]
pub enum ScoreErr<E> {
    /// The filter or the script of the function with this number, counted from 0, ends the line.
    At(usize, E),
    /// Memory ran out.
    NoMemory,
}
