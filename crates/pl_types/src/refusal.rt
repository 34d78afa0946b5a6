//! Why a script is refused, and why a stage that reads one gives nothing.

ghost use Rattle.std.specs.Prelude.{◌≡◌};

use std::alloc::{AllocError, AllocFailed};

/// Why a script is refused, and where.
#[derive(Clone, Copy, Debug, PartialEq, Eq)]
pub struct Refusal {
    /// The number of the rule that is broken, from 1 to 20, as `rules` names them.
    pub number: u8,
    /// Where it is broken: a byte of the script, counted from 0.
    pub offset: u32,
}

/// Why a stage that reads a script gives nothing.
#[derive(Debug, Drop, thiserror::Error)]
pub enum Fail {
    /// The script breaks a rule.
    #[error("the script is refused by rule {} at byte {}", .0.number, .0.offset)]
    Refused(Refusal),
    /// Memory ran out.
    #[error("out of memory")]
    NoMemory,
}

impl From<AllocError> for Fail {
    ghost use Rattle.pl_types.specs.declared.refusal.Fail.TheVariants.{NoMemory};

    ghost from_gives = { λ _ e. e ≡ NoMemory };

    fn from(_error: AllocError) -> Fail {
        Fail::NoMemory
    }
}

impl<T: Drop> From<AllocFailed<T>> for Fail {
    ghost use Rattle.pl_types.specs.declared.refusal.Fail.TheVariants.{NoMemory};

    ghost from_gives = { λ _ e. e ≡ NoMemory };

    fn from(_error: AllocFailed<T>) -> Fail {
        Fail::NoMemory
    }
}
