//! What the clauses of pipelines do not say: by texts, what they come to.
#![tactic(auto)]

#[cfg(test)]
mod edits;
#[cfg(test)]
mod fields;
mod fixed;
#[cfg(test)]
mod large;
#[cfg(test)]
mod reading;
#[cfg(test)]
mod runs;
#[cfg(test)]
mod scripts;
#[cfg(test)]
mod settings;
#[cfg(test)]
mod shown;

pub use fixed::{Fixed, Says};
