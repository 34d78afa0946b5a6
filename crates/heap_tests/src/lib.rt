//! What the clauses of objects, of walks over values and of operators do not say, by rows of values.
#![tactic(auto)]

#[cfg(test)]
mod number_ops_tests;
#[cfg(test)]
mod object_heap_tests;
#[cfg(test)]
mod object_values_tests;
#[cfg(test)]
mod value_walks_tests;
