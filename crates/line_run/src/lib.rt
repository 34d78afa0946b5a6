//! Lines of an input, each with its reply, from a source into a sink.
#![tactic(auto)]

mod passing;
mod ran;
mod replier;
mod replies;
mod stateless;
mod talker;

pub use passing::run_lines;
pub use ran::Ran;
pub use replier::{Replier, ReplyLine};
pub use stateless::Stateless;
pub use talker::Talker;
