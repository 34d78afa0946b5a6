//! What holds of the grammar and of the function that reads by it: theorems over its table, and no code.
#![tactic(auto)]

mod laws;

pub use laws::grammar_laws;
