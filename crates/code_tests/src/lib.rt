//! What the clauses of listings and of the verifier do not say: listings, good and bad, and codes that may run and that may not.
#![tactic(auto)]

#[cfg(test)]
mod pl_code_tests;
#[cfg(test)]
mod verifier_tests;
