//! Why a listing is refused.

use std::alloc::AllocError;

/// Why a listing is refused.
#[derive(Clone, Copy, Debug)]
pub enum ListingErr {
    /// The first line, from 1, with which no code's listing goes on; where the file only ends too early, the line in which it
    /// ends, even an empty one. Numbers past 32 bits stand still.
    Syntax(u32),
    /// The first line is `painless` and another number than 1.
    Version,
    /// Memory was wanting.
    NoMemory,
}

impl From<AllocError> for ListingErr {
    ghost use Rattle.std.specs.Prelude.{◌≡◌};
    ghost use Rattle.pl_code.specs.declared.error.ListingErr.TheVariants.{NoMemory};

    ghost from_gives = { λ e r. r ≡ NoMemory };

    fn from(_error: AllocError) -> ListingErr {
        ListingErr::NoMemory
    }
}
