//! What rules make of trees: the trees of expressions, statements and types, from their parts.
#![tactic(auto)]

mod arguments;
mod chains;
mod collections;
mod creations;
mod expressions;
mod lists;
mod loops;
mod members;
mod token;

pub use arguments::{lambda_of, reference_of};
pub use chains::{chained, joined, suffixed_by};
pub use collections::collected;
pub use creations::{bracket_first, created_as};
pub use expressions::{with_elvis, with_rest, with_step};
pub use lists::{before, or_none};
pub use loops::{any_expr, for_statement};
pub use members::{name_or_call, suffix_of};
pub use token::{access_of, base_of, constant_of, jump_of, operator_of, step_of, unary_of};
