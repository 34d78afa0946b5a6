//! What code means: a step for each instruction.
#![tactic(auto)]

mod laws;
mod word;

pub use laws::code_laws;
pub use word::Word;
