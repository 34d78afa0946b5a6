//! What a call on a value, a name behind its dot and an index mean, where the class of the value is found when the script runs;
//! what a function value fits; and what is thrown where nothing is there. See `docs/LANGUAGE.md`, "def".
#![tactic(auto)]

mod access;
mod callee;
mod class;
mod failure;
mod function;
mod laws;
mod lookup;
mod message;

pub use access::{IndexAccess, NameAccess, Place, Purpose, index_access, name_access, place_of};
pub use callee::{Callee, resolve};
pub use class::class_of;
pub use failure::{
    throw_beyond, throw_gone, throw_no_accessor, throw_no_index, throw_no_method, throw_unfit,
};
pub use function::{Reference, constructor_of, fits, reference_of};
pub use laws::resolution_laws;
