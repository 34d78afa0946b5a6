//! Scripted metrics: shards of lines that take turns, and what comes of their states.
#![tactic(auto)]

mod laws;
mod line;
mod moves;
mod phase;
mod reduce;
mod scripts;
mod shards;
mod standing;
mod states;
mod task;

pub use laws::own_lines_alone;
pub use line::split;
pub use phase::Phase;
pub use reduce::bind_states;
pub use scripts::{Advance, FinishedScript, ShardScripts};
pub use shards::Shards;
pub use states::{StateErr, states_of};
pub use task::ShardTask;
pub use task_core::{Task, Turn};
