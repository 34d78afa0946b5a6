//! A job and its allowlist, read from files.
#![tactic(auto)]

mod reading;
mod stops;

pub use allowlist::{Allow, Catalogue};
pub use reading::{ReadJob, job_of, list_for, read_job, seed_of};
pub use stops::key_refused;
