//! What every run of a program keeps of the store and of its values.
#![tactic(auto)]

mod laws;

pub use laws::source_fits;
