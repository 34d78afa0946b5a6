//! That runs of the code of well-formed programs end within a bound that is known before they begin.
#![tactic(auto)]

mod laws;

pub use compiled_shapes::code_is_well_shaped;
pub use laws::programs_run;
pub use verifier_soundness::verified_run_laws;
