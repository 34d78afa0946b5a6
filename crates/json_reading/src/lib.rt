//! JSON values of texts, as `serde_json` reads them, with memory that is kept from one text to the next.
#![tactic(auto)]

mod error;
mod numbers;
mod reading;
mod scratch;

pub use error::ReadErr;
pub use reading::read_json;
pub use scratch::Scratch;
