//! Pipelines of processors: read from JSON, and a document run through one.
#![tactic(auto)]

mod error;
mod forms;
mod keys;
mod literal;
mod paths;
mod processors;
mod reading;
mod running;
mod scripts;
mod settings;

pub use error::PipeErr;
pub use literal::Literal;
pub use pipe_fields::{Field, IngestDoc, Place, WhenMissing, WhenThere};
pub use processors::{Action, Follows, Guard, Pipeline, Processors};
pub use running::{Changed, PipeEnd, ScriptRunner, Tested};
pub use scripts::PipeScript;
