//! Tasks that run in slices or take steps over what they share, and the order in which they take turns.
#![tactic(auto)]

mod order;
mod step;
mod step_order;
mod task;

pub use order::run_order;
pub use step::Step;
pub use step_order::run_order_with;
pub use task::{Task, Turn};
