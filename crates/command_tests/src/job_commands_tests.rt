//! What the clauses of `job_commands` don't say: jobs with their documents, and the exact bytes that answer them.

mod changes;
mod checking;
mod inputs;
mod lines;
mod shown;
mod worlds;
