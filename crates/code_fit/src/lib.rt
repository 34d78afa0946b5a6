//! What every run of code keeps of the store and of its words.
#![tactic(auto)]

mod laws;

pub use laws::code_fits;
