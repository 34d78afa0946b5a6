//! The rules of the grammar as the parser has them: tables of symbols, and which rule the tokens ahead tell.
#![tactic(auto)]

mod beginning;
mod choice;
mod form;
mod rule;

pub use beginning::{absent, first};
pub use choice::{choose, is_function_ahead, scan};
pub use form::{Form, Listed, Series, listed_form, series_form};
pub use rule::{Rule, Symbol, symbols};
