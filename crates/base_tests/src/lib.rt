//! What the clauses of the lowest crates do not say: types, texts, numbers, turns, files and allowlists.
#![tactic(auto)]

#[cfg(test)]
mod allowlist_tests;
#[cfg(test)]
mod arithmetic_tests;
#[cfg(test)]
mod outer_io_tests;
#[cfg(test)]
mod pl_types_tests;
#[cfg(test)]
mod pl_units_tests;
#[cfg(test)]
mod task_core_tests;
