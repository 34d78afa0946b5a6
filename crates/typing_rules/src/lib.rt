//! The rules of typing: what each node of a script comes to, by what its parts came to. Each rule is a pure function of parts that are
//! typed; the definition puts them together over the tree.
#![tactic(auto)]

mod digits;
mod header;
mod lineage;
mod part;
mod refuse;
pub mod rules;
mod scopes;
mod state;
mod texts;
mod words;

pub use header::{ContextTypes, Header};
pub use part::{Caught, Each, Form, Location, Part, Place, Step};
pub use scopes::{Entry, Scopes, Standing};
pub use state::State;
