//! Trees of scripts as they are written. Contracts see them as plain data.
//!
//! A tree has one variant for each production of the grammar. Places are bytes of the script, counted from 0.
//! A node's place is its first token, if nothing else is said.
#![tactic(auto)]

mod nodes;
mod operator;
mod tree;

pub use operator::{Access, BinaryOperator, Constant, Step, UnaryOperator};
pub use tree::{
    Argument, Block, Body, Catch, Declaration, Entry, Expr, First, Function, LambdaBody, Parameter,
    Spelled, Statement, Tree, TypeBase, TypeName, Variable,
};
