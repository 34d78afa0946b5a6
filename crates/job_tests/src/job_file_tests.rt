//! What the clauses of `job_file` don't say: job files with their answers, the defaults, and that each call which takes
//! memory answers where there is some.

mod files;
mod jobs;
mod keys;
mod one_command;
