//! Texts as scripts see them: lists of UTF-16 code units, as Java's strings are.
#![tactic(auto)]

mod convert;
mod direction;
mod laws;
mod number;
mod periods;
mod search;
mod text;

pub use laws::{order_is_total, utf8_is_kept};
pub use number::{decimal, parse_int, parse_long};
pub use search::find_units;
pub use text::UText;
