//! Lines of JSON about jobs: refusals of jobs, of allowlists and of scripts, errors of lines of the input, and the listings before the replies.
#![tactic(auto)]

mod line_fault;
mod listings;
mod refusals;

pub use line_fault::LineFault;
pub use listings::{prelude_listing_line, script_listing_line};
pub use refusals::{
    accepted_line, field_refusal_line, job_refusal_line, list_refusal_line, script_refusal_line,
};
