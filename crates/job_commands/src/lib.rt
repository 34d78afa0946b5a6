//! The commands that run jobs: `check`, `list`, and `run` over documents, of jobs in files; and `gen`, of a fixed job over documents that
//! are made.
#![tactic(auto)]

mod answer;
mod check_command;
mod codes;
mod contexts;
mod documents;
mod fixed_job;
mod gen_command;
mod generator;
mod list_command;
mod preparing;
mod run_command;
mod script;
mod starts;
mod tally;

pub use check_command::check;
pub use codes::{listings_of, push_listings};
pub use contexts::{context_types, is_test};
pub use gen_command::gen_;
pub use list_command::list;
pub use preparing::{JobScripts, PreparedJob, prepare, script_of};
pub use run_command::{report_of, run};
pub use script::LimitedScript;
pub use script_engine::{Limits, Script, VerifiedPrelude, code_laws, script_laws};
pub use starts::lines_start_well;
