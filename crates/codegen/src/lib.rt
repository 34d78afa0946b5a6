//! From typed programs to code.
//!
//! A function's code is written in one pass: what is still to be written lies as items on a worklist, a stack, and each item puts lines at the
//! end, or other items on the worklist. A jump names a label until the end, when each label has its line.
#![tactic(auto, using(crate::proofs::Memory::only_memory))]

mod checks;
mod config;
mod conversions;
mod error;
mod expressions;
mod flows;
mod functions;
mod labels;
mod members;
mod naming;
mod operands;
mod operations;
mod pieces;
mod representation;
mod scopes;
mod statements;
mod step;
mod symbols;
mod targets;
mod tries;
mod values;
mod work_item;
mod writer;

pub use error::CodeError;
pub use functions::generate;
