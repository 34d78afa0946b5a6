//! Contexts over documents: the doc values of a document, and what a line of input is bound to.
#![tactic(auto)]

mod doc;
mod error;
mod fields;
mod laws;
mod line;
mod placing;
mod values;
mod walk;
mod words;

pub use doc::FieldDoc;
pub use error::DocErr;
pub use fields::Fields;
pub use json_bridge::{BindErr, Bound, Params};
pub use laws::{
    fields_stay, job_fields_are_distinct, lines_are_typed, lines_fit, params_are_objects,
    placing_keeps_fit, read_fields_are_distinct,
};
pub use line::{SearchKind, bind_document, bind_line};
pub use object_values::Seed;
pub use placing::place_doc;
pub use values::FieldValues;
pub use words::Words;
