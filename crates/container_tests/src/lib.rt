//! What the clauses of containers and their members do not say, by rows of values.
#![tactic(auto)]

#[cfg(test)]
mod api_iter_tests;
#[cfg(test)]
mod api_list_tests;
#[cfg(test)]
mod api_map_tests;
#[cfg(test)]
mod container_calls_tests;
#[cfg(test)]
mod container_ops_tests;
#[cfg(test)]
mod container_parts_tests;
