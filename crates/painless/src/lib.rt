//! The top call of the program: from the words of a process to what is written and the report, over files, an input and a sink.
#![tactic(auto)]

mod laws;
mod top;
mod words;

pub use command_parts::{Report, Status};
pub use laws::{one_thing_is_told, painless_surely};
pub use top::painless;
pub use words::{Command, words_behind};
