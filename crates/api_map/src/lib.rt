//! The members of Map and Map.Entry, the constructors of maps and sets, and the members of Collection of sets and of views of maps.
#![tactic(auto)]

mod affording;
mod arguments;
mod bulk;
mod collections;
mod entries;
mod errors;
mod guards;
mod holding;
mod laws;
mod making;
mod maps;
mod member;
mod removing;
mod searching;
mod sources;
mod whole;

pub use bulk::{Bulk, Choice, SiftErr, choice_of};
pub use holding::{entry_in, value_in};
pub use laws::members_keep_fit;
pub use member::call;
pub use sources::{Source, source_at};
