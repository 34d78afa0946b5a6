//! The pass of typing over a tree: items on a worklist, each a part that is to be typed, or what is done once parts are. An item is taken,
//! and the items that it comes to are put in its place, until none is left.
#![tactic(auto)]

mod acts;
mod done;
mod pass;
mod planned;
mod reached;

pub use pass::run;
pub use typing_worklist::{Act, StatementAct, StatementItem, WorkItem, Worklist};
