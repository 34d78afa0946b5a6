//! What the clauses of the rules of function values do not say: that they answer, where memory is ample.
#![tactic(auto)]

#[cfg(test)]
mod bodies_tests;
#[cfg(test)]
mod references_tests;
