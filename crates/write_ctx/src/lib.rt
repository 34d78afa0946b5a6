//! Contexts over documents that a script changes: what a line of an update or an ingest is bound to, and the reply to a run over it.
#![tactic(auto)]

mod checking;
mod keys;
mod laws;
mod line;
mod placing;
mod replies;

pub use checking::is_line;
pub use json_bridge::{BindErr, Bound, Params};
pub use keys::WriteKind;
pub use laws::{lines_are_typed, lines_fit, replies_have_no_float};
pub use line::{bind_document, bind_line};
pub use object_values::Seed;
pub use replies::reply;
