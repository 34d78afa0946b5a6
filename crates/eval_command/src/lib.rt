//! The command `eval`: the script of a file, and the line that it is answered by.
#![tactic(auto)]

mod eval_file;
mod reply;
mod script;

pub use eval_file::eval;
pub use script_engine::{code_laws, script_laws};
