//! The members of Iterable, Iterator and ScriptDocValues: what lists, arrays, sets and views have in common.
#![tactic(auto)]

mod errors;
mod iterating;
mod joining;
mod laws;
mod member;
mod values;

pub use laws::members_keep_fit;
pub use member::call;
