//! What the clauses of `function_score` do not say: lists of functions with their answers, and lines with their scores.
#![tactic(auto)]

#[cfg(test)]
mod fixed;
#[cfg(test)]
mod lines;
#[cfg(test)]
mod lists;
