//! Operators, casts and boxes in whole scripts, over each pair of types, and how the scripts end.
#![tactic(auto)]

#[cfg(test)]
mod boxes;
#[cfg(test)]
mod cells;
#[cfg(test)]
mod operands;
#[cfg(test)]
mod operators;
#[cfg(test)]
mod pair_tables;
#[cfg(test)]
mod pairs;
#[cfg(test)]
mod tests;
