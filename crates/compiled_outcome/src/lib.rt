//! How a program ends, and that its code ends so.
#![tactic(auto)]

mod laws;

pub use laws::programs_end;
