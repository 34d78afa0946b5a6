//! Commands to a store of scripts, as lines of JSON.
#![tactic(auto)]

mod command;
mod keys;
mod reading;

pub use command::ServeCommand;
pub use reading::command_in;
