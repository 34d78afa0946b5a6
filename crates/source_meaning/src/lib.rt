//! What a script means, said of its typed tree.
#![tactic(auto)]

mod laws;

pub use laws::meaning_laws;
