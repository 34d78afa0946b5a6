//! How many nodes a tree has. Each count is a sum of those of its children, and stands still at the largest.

use crate::statement::{StatementNode, TypedCatch, TypedStatement, TypedVariable};
use crate::typed::{Node, Typed};
use plain_data::{Items, Subtree, nodes_of};

fn nodes_if_any<T>(part: &Option<Subtree<T>>) -> u32 {
    match part {
        Some(part) => part.nodes(),
        None => 0,
    }
}

impl Typed {
    /// The number of nodes, or the largest count.
    pub(crate) fn nodes(&self) -> u32 {
        self.nodes_below().saturating_add(1)
    }

    fn nodes_below(&self) -> u32 {
        match &self.node {
            Node::Apply {
                operation: _,
                parts,
            } => nodes_of(parts.as_slice()),
            Node::Guarded {
                operation: _,
                parts,
            } => nodes_of(parts.as_slice()),
            Node::Logical {
                operator: _,
                left,
                right,
            } => left.nodes().saturating_add(right.nodes()),
            Node::Conditional { condition, yes, no } => condition
                .nodes()
                .saturating_add(yes.nodes())
                .saturating_add(no.nodes()),
            Node::Elvis { left, right } => left.nodes().saturating_add(right.nodes()),
            Node::Assign {
                target: _,
                parts,
                value,
            } => nodes_of(parts.as_slice()).saturating_add(value.nodes()),
            Node::Change {
                target: _,
                parts,
                change: _,
                right,
                gives: _,
            } => nodes_of(parts.as_slice()).saturating_add(right.nodes()),
            _ => 0,
        }
    }
}

fn nodes_of_variables(variables: &Items<TypedVariable>) -> u32 {
    let mut sum = 0u32;
    for variable in variables.as_slice() {
        sum = sum.saturating_add(nodes_if_any(&variable.value));
    }
    sum
}

fn nodes_of_catches(catches: &Items<TypedCatch>) -> u32 {
    let mut sum = 0u32;
    for catch in catches.as_slice() {
        sum = sum.saturating_add(catch.body.nodes());
    }
    sum
}

impl TypedStatement {
    /// The number of nodes, or the largest count.
    pub(crate) fn nodes(&self) -> u32 {
        self.nodes_below().saturating_add(1)
    }

    fn nodes_below(&self) -> u32 {
        match &self.node {
            StatementNode::Expression(value) => value.nodes(),
            StatementNode::Declare(variables) => nodes_of_variables(variables),
            StatementNode::Block(statements) => nodes_of(statements.as_slice()),
            StatementNode::If {
                condition,
                then,
                otherwise,
            } => condition
                .nodes()
                .saturating_add(then.nodes())
                .saturating_add(nodes_if_any(otherwise)),
            StatementNode::Loop {
                first,
                condition,
                update,
                body,
            } => nodes_if_any(first)
                .saturating_add(nodes_if_any(condition))
                .saturating_add(nodes_if_any(update))
                .saturating_add(nodes_if_any(body)),
            StatementNode::Do { body, condition } => {
                body.nodes().saturating_add(nodes_if_any(condition))
            }
            StatementNode::Try { body, catches } => {
                body.nodes().saturating_add(nodes_of_catches(catches))
            }
            StatementNode::Break => 0,
            StatementNode::Continue => 0,
            StatementNode::Return(value) => nodes_if_any(value),
            StatementNode::Throw(value) => value.nodes(),
        }
    }
}
