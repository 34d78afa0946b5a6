//! Typing: from the tree of a script to its program.
#![tactic(auto)]

mod body;
mod program;

pub use allowlist::Allow;
pub use program::elaborate;
pub use typing_rules::ContextTypes;
