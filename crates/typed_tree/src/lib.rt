//! Scripts whose names and types are settled. Contracts see them as plain data.
//!
//! What is strict, an operator, a cast, a literal of a list or a call, is one node: an operation, and its parts, which are taken from
//! the left to the right. What may leave a part out, binds a name or jumps has a node of its own. Variables keep their names, types
//! and casts are all there, and members have their numbers and their texts. Places are bytes of the script, counted from 0.
#![tactic(auto)]

mod nodes;
mod operation;
mod program;
mod statement;
mod typed;

pub use operation::{Change, Constant, Gives, Logical, Member, Operation, Operator, Target};
pub use plain_data::{Items, Text};
pub use program::{FunctionKind, Named, Program, TypedFunction};
pub use statement::{StatementNode, TypedCatch, TypedStatement, TypedVariable};
pub use typed::{Node, Typed};
