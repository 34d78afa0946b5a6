//! Job files: a job, or the first thing that is wrong with it.
#![tactic(auto)]

mod context;
mod error;
mod job;
mod keys;
mod limits;
mod lookup;
mod mapping;
mod numbers;
mod particulars;
mod reading;
mod values;

pub use context::{JobCommand, JobContext};
pub use error::JobErr;
pub use job::Job;
pub use limits::JobLimits;
pub use mapping::{FieldKind, MapErr, Mapping};
pub use particulars::JobParticulars;
pub use values::{has_whole_numbers, members_have_whole_numbers};
