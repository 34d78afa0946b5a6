//! What a run keeps of the store: the objects fit, and those with which it began are still there, each of its kind, or with an
//! interface that it has taken.
#![tactic(auto)]

mod laws;

pub use laws::effects_fit;
