//! What the parser holds of a symbol that it read: the symbol's tree, whatever its form. And what it does with such values.
#![tactic(auto)]

mod actions;
mod value;

pub use actions::Actions;
pub use value::Value;
