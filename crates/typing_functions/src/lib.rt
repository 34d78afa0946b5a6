//! Function values: which of them a place takes, and what they come to.
#![tactic(auto)]

pub mod bodies;
pub mod captures;
pub mod chosen;
pub mod entering;
mod nodes;
pub mod references;
mod refuse;
pub mod wanted;
mod words;

pub use wanted::{Callee, Wanted};
