//! The members that are built, behind one name: what a call of a member comes to, by its number in the catalogue.
#![tactic(auto)]

mod laws;
mod member;

pub use laws::{built_laws, members_give_types, members_keep_fit};
pub use member::{call, is_built};
