//! What holds of every program that typing gives.
#![tactic(auto)]

mod laws;

pub use laws::{typed_programs_are_well_formed, typed_programs_keep_types};
