//! The catalogue of classes and members, the files that allow some of it, and which member a call means.
#![tactic(auto)]

mod allow;
mod build;
mod declares;
mod error;
mod form;
mod index;
mod laws;
mod lookup;
mod member;
mod name;
mod names;
mod reading;
mod scan;
mod table;

pub use allow::{Allow, Catalogue};
pub use error::AllowErr;
pub use laws::catalogue_laws;
pub use member::{MemberKind, MemberType, Origin};
pub use name::Accessor;
pub use table::MEMBER_COUNT;
