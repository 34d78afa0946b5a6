//! Paths through code: frequent instructions one after the other, in frames that are held by value.
#![tactic(auto)]

mod boxes;
mod fast_calls;
mod fast_path;
mod number_rows;
mod numbers;
mod value_path;
mod value_rows;

pub use boxes::boxed;
pub use fast_path::{FastRun, begins_fast, run_fast};
pub use numbers::{is_shift, on_ints, on_longs, takes_one, word_of};
pub use value_path::{begins_values, run_values};
