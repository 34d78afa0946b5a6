//! How deep brackets nest, and how far a token reaches.
#![tactic(auto)]

mod nesting;

pub use nesting::nesting_fault;
