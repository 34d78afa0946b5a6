//! Which values are of a type in a store, and what keeps them so.
#![tactic(auto)]

mod laws;

pub use laws::{members_keep_types, values_keep_types};
