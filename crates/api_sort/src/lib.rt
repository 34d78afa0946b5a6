//! Natural order among the elements of lists and collections: `sort`, `max` and `min` of Collections.
#![tactic(auto)]

mod choosing;
mod keys;
mod ordering;
mod sorting;

pub use choosing::{Extreme, extreme_of};
pub use sorting::sorted;
