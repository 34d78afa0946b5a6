//! Why a value is not read as a pipeline.

ghost use Rattle.std.specs.Prelude.{◌≡◌};

use std::alloc::AllocError;

/// Why a value gives no pipeline.
#[derive(Debug, Drop, thiserror::Error)]
pub enum PipeErr {
    /// The path of the first place that is wrong: `pipeline`, `pipeline.3`, `pipeline.3.set` or `pipeline.3.set.field`.
    #[error("{0} is wrong")]
    Bad(String),
    /// Memory ran out.
    #[error("out of memory")]
    NoMemory,
}

impl From<AllocError> for PipeErr {
    ghost use Rattle.ingest_pipe.specs.declared.error.PipeErr.TheVariants.{NoMemory};

    ghost from_gives = { λ _ e. e ≡ NoMemory };

    fn from(_error: AllocError) -> PipeErr {
        PipeErr::NoMemory
    }
}
