//! The members of Collection and List, of lists; the constructor of lists, and the makers of frozen ones.
#![tactic(auto)]

mod arguments;
mod bulk;
mod comparing;
mod entering;
mod indexing;
mod laws;
mod lists;
mod making;
mod member;
mod orders;
mod searching;
mod taking;
mod told;

pub use comparing::compare;
pub use indexing::{read_index, write_index};
pub use laws::members_keep_fit;
pub use member::call;
