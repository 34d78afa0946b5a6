//! What a call comes to that a function value may come into: what the value calls, with the casts of its arguments, the interfaces that
//! they take, and the casts of what it gives. See `docs/LANGUAGE.md`, "Function values".
#![tactic(auto)]

mod aim;
mod applying;
mod called;
mod casting;
mod laws;
mod naming;
mod passing;
mod resolved;
mod stage;
mod taking;
mod texts;

pub use applying::apply;
pub use called::{Called, Dues};
pub use casting::cast_due;
pub use laws::{chains_end, function_calls_laws};
pub use naming::{call_found, call_named};
pub use passing::meet;
pub use resolved::Resolved;
pub use texts::{Texts, Work};
