//! The parts of a listing's lines, each written and read: numbers, names, types, members, and texts in quotes.
#![tactic(auto)]

mod names;
mod numbers;
mod quoted;
mod split;

pub use names::{ClassName, ConstructorName, FieldName, MethodName, TypeName, Word, place_of};
pub use numbers::{count, int, long, natural};
pub use quoted::{push_quoted, unquoted};
pub use split::split_at_blank;
