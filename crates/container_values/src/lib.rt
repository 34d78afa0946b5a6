//! The elements of lists, arrays, sets and views of maps as lists of values, and the entries that are made for them.
#![tactic(auto)]

mod elements;
mod taking;

pub use elements::{collection_at, entry_count, entry_key_at, map_shown, value_at, value_count};
pub use taking::{entries, entry_references, taken};
