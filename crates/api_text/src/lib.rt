//! The members of CharSequence, String and StringBuilder, and the constructors and messages of exceptions.
#![tactic(auto)]

mod builders;
mod errors;
mod exceptions;
mod joining;
mod laws;
mod making;
mod member;
mod outcome;
mod paying;
mod pieces;
mod sequences;
mod texts;
mod writing;

pub use laws::{members_keep_fit, piece_laws};
pub use member::call;
