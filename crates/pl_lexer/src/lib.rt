//! Tokens of scripts.
#![tactic(auto)]

mod bytes;
mod cutting;
mod enclosed;
mod found;
mod laws;
mod numbers;
mod reading;
mod signs;
mod token;
mod words;

pub use cutting::lex;
pub use laws::each_text_has_one_reading;
pub use token::{Kind, Sign, Token, Word};

/// The most bytes that a script has.
pub const MOST_BYTES: u32 = 65_535;
