//! Replies and refusals as lines of JSON.
#![tactic(auto)]

mod errors;
mod line;
mod plain;
mod refusals;
mod replies;
mod results;
mod searching;
mod showing;

pub use line::{Line, line_of, refusal_line, reply_line};
pub use refusals::name_of;
pub use replies::reply_of;
pub use results::kind_reply;
pub use searching::search_reply_line;
pub use showing::{ShownKeys, shown_line, shown_reply_line};
