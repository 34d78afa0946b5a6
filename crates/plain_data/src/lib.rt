//! Owners that contracts see as what they own, so that a tree made of them is plain data.
#![tactic(auto)]

mod items;
mod subtree;
mod text;

pub use items::Items;
pub use sqlite_items::Boxed;
pub use subtree::{Subtree, nodes_of};
pub use text::Text;
