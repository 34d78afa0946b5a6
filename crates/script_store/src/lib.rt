//! Scripts that are stored under ids, and a cache of what they are compiled to.
#![tactic(auto)]

mod cache;
mod compiler;
mod kind;
mod laws;
mod store;
mod stored;

pub use compiler::Compiler;
pub use kind::ServeKind;
pub use laws::cache_is_unseen;
pub use store::ScriptStore;
pub use stored::Stored;
