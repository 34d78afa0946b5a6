//! The members of lists, arrays, sets, views, maps, entries and iterators, behind one name: what a call of a member comes to, by its
//! number in the catalogue and its receiver.
#![tactic(auto)]

mod built;
mod family;
mod laws;
mod member;

pub use built::is_of_containers;
pub use laws::{built_laws, members_give_types, members_keep_fit};
pub use member::call;
