//! Values of scripts, and the objects that they refer to: every kind that the language has.
#![tactic(auto)]

mod elements;
mod object;
mod pairs;
mod parts;
mod seed;
mod table;
mod value;

pub use elements::Elements;
pub use object::{Guard, Object, Owner, Part, Target};
pub use pairs::Pairs;
pub use pl_units::UText;
pub use seed::Seed;
pub use value::Value;
