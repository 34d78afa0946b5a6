//! The command `pipe`: documents through the pipeline of a job.
#![tactic(auto)]

mod command;
mod preparing;
mod reading;

pub use command::pipe;
pub use job_commands::{check, gen_, list, run};
