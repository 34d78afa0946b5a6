//! The value stack of the parser: the values of the symbols that were read and that no rule has taken yet.
#![tactic(auto)]

mod optional_values;
mod required_values;
mod stack;

pub use stack::Stack;
