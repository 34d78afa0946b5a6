//! Fields of documents, and what `set`, `remove` and `rename` do to a document.
#![tactic(auto)]

mod depth;
mod document;
mod edit;
mod failure;
mod field;
mod ways;

pub use document::IngestDoc;
pub use edit::{WhenMissing, WhenThere, remove, rename, set};
pub use failure::{EditErr, FieldFault};
pub use field::{Field, ID, INDEX, Place};
