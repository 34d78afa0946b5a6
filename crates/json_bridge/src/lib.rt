//! JSON values as values of scripts, and back; the params of a job, bound once; and with what a run over a line of input starts.
#![tactic(auto)]

mod binding;
mod error;
mod giving;
mod job_params;
mod laws;
mod names;
mod start;
mod without;

pub use binding::bind;
pub use error::{BindErr, GiveErr, NumErr};
pub use giving::give;
pub use job_params::Params;
pub use laws::{binding_freezes, binding_keeps_fit, bound_is_given_back, giving_has_no_float};
pub use start::Bound;
pub use without::give_without;
