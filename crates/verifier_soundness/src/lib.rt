//! Verified code is never stuck, and ends: laws of its runs, and tests of what they ask of code and arguments.
#![tactic(auto)]

mod arguments;
mod laws;
mod rows;
mod types;

pub use arguments::fit_main;
pub use laws::verified_run_laws;
pub use rows::have_rows;
