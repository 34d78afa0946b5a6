//! What the clauses of job files, of JSON values, of documents and of runs over lines do not say, by texts and what they come to.
#![tactic(auto)]

#[cfg(test)]
mod document_replies_tests;
pub mod first_bytes;
#[cfg(test)]
mod job_file_tests;
#[cfg(test)]
mod json_bridge_tests;
#[cfg(test)]
mod line_run_tests;
#[cfg(test)]
mod search_ctx_tests;
pub mod talks;
#[cfg(test)]
mod written;
