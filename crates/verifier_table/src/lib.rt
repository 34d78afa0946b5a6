//! The kinds that stand at the lines of a function, in a table in which equal stacks are one.
#![tactic(auto)]

mod node;
mod slots;
mod stacks;
mod table;
mod windows;

pub use slots::is_same_slot;
pub use table::ShapeTable;
pub use windows::{window_of_copies, window_with};
