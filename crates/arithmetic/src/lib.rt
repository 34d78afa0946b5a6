//! The arithmetic of numbers: operators on `int` and `long`, and the casts between the number types.
//!
//! One definition serves whoever calculates: operators whose types are settled, operators on `def` values, and constants.
#![tactic(auto)]

pub mod casts;
pub mod int;
mod laws;
pub mod long;
mod operator;

pub use laws::arithmetic_laws;
pub use operator::{Num, Op, Zero, arith, takes_left};
