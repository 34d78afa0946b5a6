//! The texts by which code and replies name members.
#![tactic(auto)]

mod laws;
mod text;

pub use laws::names_of_members;
pub use text::member_text;
