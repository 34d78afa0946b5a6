//! That code of well-formed programs is well shaped.
#![tactic(auto)]

mod laws;

pub use laws::code_is_well_shaped;
