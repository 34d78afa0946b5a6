//! Reading by the rules of the grammar: from tokens to a script, over whatever keeps what is read.
#![tactic(auto)]

mod control;
mod cursor;
mod parsing;
mod reader;
mod script;

pub use parsing::parse_by;
