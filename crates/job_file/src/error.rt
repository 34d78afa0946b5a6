//! Why a job file gives no job.

ghost use Rattle.std.specs.Prelude.{◌≡◌};

use std::alloc::AllocError;

/// Why a job file gives no job.
#[derive(Debug, Drop, thiserror::Error)]
pub enum JobErr {
    /// The bytes are not read as a JSON object.
    #[error("the job is not read as an object")]
    Syntax,
    /// A key is unknown, missing or has a value of another type.
    #[error("the key {0} of the job is unknown, missing or of another type")]
    Field(String),
    /// A number is out of its range.
    #[error("the number of {0} is out of its range")]
    Range(String),
    /// A field of the mapping has no name or none of the kinds; the empty name also where there are too many.
    #[error("the field {0} of the mapping is bad")]
    Mapping(String),
    /// Memory ran out.
    #[error("out of memory")]
    NoMemory,
}

impl From<AllocError> for JobErr {
    ghost use Rattle.job_file.specs.declared.error.JobErr.TheVariants.{NoMemory};

    ghost from_gives = { λ _ e. e ≡ NoMemory };

    fn from(_error: AllocError) -> JobErr {
        JobErr::NoMemory
    }
}
