//! The code of a program, and that it does what the program means.
#![tactic(auto)]

mod laws;
mod traps;

pub use laws::{compiler_laws, small_program};
pub use traps::covering_laws;
