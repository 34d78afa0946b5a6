//! What the instructions of code name, what they take from the stack and put on it, and where they go on.
#![tactic(auto)]

mod action;
mod actions;
mod copying;
mod faults;
mod flow;
mod members;
mod types;

pub use action::{Action, Takes};
pub use actions::action_of;
pub use copying::Copying;
pub use faults::{
    is_bad_jump, is_bad_member, is_bad_target, is_bad_trap_class, is_bad_trap_order,
    is_bad_trap_target, is_value_function,
};
pub use flow::{Flow, flow_of};
pub use members::{constructor_of, field_of, method_of};
pub use types::{
    catalogue_class, dimensions_of, interface_method, is_known_type, kind_of_primitive,
    kind_of_text, kind_of_type,
};
