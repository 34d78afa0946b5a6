//! Which code may run.
#![tactic(auto)]

mod act;
mod call;
mod fault;
mod functions;
mod laws;
mod line;
mod pass;
mod signatures;
mod successors;
mod take;
mod verified;

pub use fault::{FaultKind, VerifyErr};
pub use laws::shape_laws;
pub use verified::{Verified, verify};
