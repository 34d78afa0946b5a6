//! Why an allowlist file gives no list.

ghost use Rattle.std.specs.Prelude.{◌≡◌};

use std::alloc::AllocError;

/// Why an allowlist file gives no list. Lines are counted from 1.
#[derive(Debug, Drop, thiserror::Error)]
pub enum AllowErr {
    /// The line has no form of an allowlist file, or stands in a wrong place, or the file ends inside a class there.
    #[error("line {0} of the allowlist is not written as an allowlist")]
    Syntax(u32),
    /// The line names a class or a member that the catalogue lacks, or one that was named before.
    #[error("line {0} of the allowlist names what is not known")]
    Unknown(u32),
    /// Memory ran out.
    #[error("out of memory")]
    NoMemory,
}

impl From<AllocError> for AllowErr {
    ghost use Rattle.allowlist.specs.declared.error.AllowErr.TheVariants.{NoMemory};

    ghost from_gives = { λ _ e. e ≡ NoMemory };

    fn from(_error: AllocError) -> AllowErr {
        AllowErr::NoMemory
    }
}
