//! What the clauses of typing do not say: deep trees that are let go, and scripts with the rule that each breaks.
#![tactic(auto)]

#[cfg(test)]
mod static_types_tests;
#[cfg(test)]
mod typed_tree_tests;
