//! What the clauses of `painless` don't say: words that are no command, each command over what never fails, and pipelines with their
//! documents.
#![tactic(auto)]

#[cfg(test)]
mod pipe_jobs;
#[cfg(test)]
mod pipe_lines;
#[cfg(test)]
mod pipe_worlds;
#[cfg(test)]
mod tests;
