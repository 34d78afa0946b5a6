//! That each value of a program is of its type in the store of its moment.
#![tactic(auto)]

mod laws;

pub use laws::source_keeps_types;
