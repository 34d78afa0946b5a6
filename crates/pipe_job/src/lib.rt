//! Documents through a pipeline whose scripts are compiled: the reply to each line of a job.
#![tactic(auto)]

mod answers;
mod document;
mod job;
mod runner;

pub use answers::{PipeAnswer, PipedScript};
pub use ingest_pipe::{IngestDoc, PipeErr, PipeScript, Pipeline};
pub use job::{PipeJob, PipeScratch};
