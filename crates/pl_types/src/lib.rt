//! The types of scripts, their promotions and casts, and what a refusal of a script is.
#![tactic(auto)]

mod casting;
pub mod classes;
mod conversion;
mod full_names;
mod host;
mod lineage;
mod names;
mod primitive;
mod promotion;
mod refusal;
pub mod rules;
mod texts;
mod ty;

pub use casting::{box_class, cast, cast_laws, unboxed, widens_to};
pub use classes::{class_below, class_full, class_laws, class_lineage, class_parents, class_short};
pub use conversion::Cast;
pub use full_names::{class_of_full_bytes, class_of_full_name, name_laws};
pub use host::{HostRule, NoHost};
pub use lineage::Lineage;
pub use names::TypeNames;
pub use primitive::Primitive;
pub use promotion::{literal_fits, promote};
pub use refusal::{Fail, Refusal};
pub use rules::{name_of_rule, rule_laws};
pub use texts::{ClassNames, primitive_of_word, primitive_word, push_type, text_laws};
pub use ty::Ty;
