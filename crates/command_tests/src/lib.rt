//! What the clauses of replies and of the commands do not say: scripts, jobs and documents, with the exact bytes that answer them.
#![tactic(auto)]

#[cfg(test)]
mod eval_command_tests;
#[cfg(test)]
mod job_commands_tests;
#[cfg(test)]
mod json_replies_tests;
