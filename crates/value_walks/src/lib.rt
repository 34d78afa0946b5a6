//! Walks over values: deep equality, and the text of a value. A walk visits the values that it compares or writes, at most 100 levels
//! deep and with as many visits as its budget.
#![tactic(auto)]

mod equality;
mod error;
mod keyed;
mod laws;
mod outputs;
mod words;
mod writing;

pub use equality::{Walked, equal, equal_entries};
pub use error::TextErr;
pub use laws::{entries_compare_as_objects, walk_limits};
pub use outputs::Output;
pub use writing::{push_entry, push_text, text, text_within, text_written};

/// How many levels deep a walk goes at most.
pub const LEVELS: u32 = 100;

/// How many values a member's walk visits at most.
pub const VISITS: u64 = 1_000_000;
