//! One builder for each rule of the grammar: what the rule makes of the values of its symbols, which are on the stack.
#![tactic(auto)]

mod arguments;
mod builder;
mod creations;
mod expressions;
mod literals;
mod loops;
mod members;
mod projections;
mod reducing;
mod script;
mod series;
mod statements;
mod types;

pub use builder::Builder;
