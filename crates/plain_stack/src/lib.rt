//! Stacks that contracts see as lists. Passes whose parts lie on a stack of their own take it from here.
#![tactic(auto)]

mod stack;
#[cfg(test)]
mod tests;

pub use stack::Stack;
