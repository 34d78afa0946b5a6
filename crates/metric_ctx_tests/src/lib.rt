//! What the clauses of `metric_ctx` do not say: that shards come to their endings at every slice and in every order over scripts that
//! count their instructions, lines with their shards, and that with ample memory each call answers.
#![tactic(auto)]

mod counting;
#[cfg(test)]
mod lines;
#[cfg(test)]
mod noting;
#[cfg(test)]
mod orders;
#[cfg(test)]
mod turns;

pub use counting::{Counting, CountingRun};
