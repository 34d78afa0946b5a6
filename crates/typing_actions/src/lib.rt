//! What typing does once the parts of a node are typed: each act takes its parts off the stacks that typing owns, and puts there what the
//! node comes to. So no function that goes through a tree holds typed parts.
#![tactic(auto)]

pub mod bodies;
mod config;
pub mod expressions;
pub mod members;
pub mod places;
mod stack;
pub mod statements;

pub use config::Config;
pub use stack::{take_top, take_up};
