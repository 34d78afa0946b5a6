//! Scripts: texts that are compiled once and then run.
#![tactic(auto)]

mod compiling;
mod executable;
mod laws;
mod prelude;
mod rules;
mod running;
mod verifying;

pub use compiling::{Script, compile, compile_beside};
pub use laws::{code_laws, script_laws};
pub use prelude::VerifiedPrelude;
pub use rules::programs_keep_their_rules;
pub use running::ScriptRun;
pub use static_types::ContextTypes;
pub use verified_machine::{Limits, RunMemory};
