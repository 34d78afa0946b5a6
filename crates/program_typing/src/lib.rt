//! Well-formed programs: their parts agree in their types, and none of them comes to nothing.
#![tactic(auto)]

mod laws;

pub use laws::never_more;
