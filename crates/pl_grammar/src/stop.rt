//! Why reading goes no further.

ghost use Rattle.std.specs.Prelude.{◌≡◌};

use std::alloc::{AllocError, AllocFailed};

/// Why a part of a script is not read.
#[derive(Drop)]
pub enum Stop {
    /// Memory ran out.
    NoMemory,
    /// With this many tokens left, the next one continues no script.
    Unexpected(usize),
    /// The productions nest deeper than the levels that were given.
    TooDeep,
}

impl From<AllocError> for Stop {
    ghost use Rattle.pl_grammar.specs.declared.stop.Stop.TheVariants.{NoMemory};

    ghost from_gives = { λ _ e. e ≡ NoMemory };

    fn from(_error: AllocError) -> Stop {
        Stop::NoMemory
    }
}

impl<T: Drop> From<AllocFailed<T>> for Stop {
    ghost use Rattle.pl_grammar.specs.declared.stop.Stop.TheVariants.{NoMemory};

    ghost from_gives = { λ _ e. e ≡ NoMemory };

    fn from(_error: AllocFailed<T>) -> Stop {
        Stop::NoMemory
    }
}
