//! Operators and casts of values whose types are found at run time, and the members of numbers, chars and truth values.
#![tactic(auto)]

mod affording;
mod casts;
mod chars;
mod errors;
mod laws;
mod member;
mod names;
mod numbers;
mod operators;
mod order;
mod outcome;
mod relations;
mod values;

pub use arithmetic::casts::{low_byte, low_char, low_int, low_short};
pub use arithmetic::{Num, Op, Zero, arith};
pub use casts::to_type;
pub use errors::compare_message;
pub use laws::{operators_keep_fit, relation_laws};
pub use member::call;
pub use operators::{concatenate, def_op};
pub use order::natural;
pub use relations::{equal, is_instance, is_same, throw_value};
