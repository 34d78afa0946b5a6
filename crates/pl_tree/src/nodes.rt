//! How many nodes a tree has. Each count is a sum of those of its children, and stands still at the largest.

ghost use Rattle.std.specs.Prelude.{◌≡◌, IfOk};

use crate::tree::{
    Argument, Block, Body, Catch, Declaration, Entry, Expr, First, LambdaBody, Statement, Variable,
};
use plain_data::{Items, Subtree, nodes_of};
use std::alloc::{AllocError, Global};

impl Block {
    pub(crate) fn nodes(&self) -> u32 {
        nodes_of(self.statements.as_slice())
    }
}

impl Body {
    pub(crate) fn nodes(&self) -> u32 {
        match self {
            Body::Block(block) => block.nodes(),
            Body::Statement(statement) => statement.nodes(),
        }
    }
}

impl First {
    pub(crate) fn nodes(&self) -> u32 {
        match self {
            First::Declare(declaration) => declaration.nodes(),
            First::Expression(expr) => expr.nodes(),
        }
    }
}

impl Declaration {
    pub(crate) fn nodes(&self) -> u32 {
        let mut sum = 0u32;
        for variable in self.variables.as_slice() {
            sum = sum.saturating_add(variable.nodes());
        }
        sum
    }
}

impl Variable {
    pub(crate) fn nodes(&self) -> u32 {
        match &self.value {
            Some(value) => value.nodes(),
            None => 0,
        }
    }
}

impl Catch {
    pub(crate) fn nodes(&self) -> u32 {
        self.block.nodes()
    }
}

impl Entry {
    pub(crate) fn nodes(&self) -> u32 {
        self.key.nodes().saturating_add(self.value.nodes())
    }
}

impl Argument {
    pub(crate) fn nodes(&self) -> u32 {
        match self {
            Argument::Value(expr) => expr.nodes(),
            Argument::Lambda {
                at: _,
                parameters: _,
                body,
            } => body.nodes(),
            _ => 0,
        }
    }
}

impl LambdaBody {
    pub(crate) fn nodes(&self) -> u32 {
        match self {
            LambdaBody::Block(block) => block.nodes(),
            LambdaBody::Expression(expr) => expr.nodes(),
        }
    }
}

fn nodes_of_body(body: &Option<Body>) -> u32 {
    match body {
        Some(body) => body.nodes(),
        None => 0,
    }
}

fn nodes_if_any(expr: &Option<Subtree<Expr>>) -> u32 {
    match expr {
        Some(expr) => expr.nodes(),
        None => 0,
    }
}

fn nodes_of_first(first: &Option<First>) -> u32 {
    match first {
        Some(first) => first.nodes(),
        None => 0,
    }
}

fn nodes_of_catches(catches: &Items<Catch>) -> u32 {
    let mut sum = 0u32;
    for catch in catches.as_slice() {
        sum = sum.saturating_add(catch.nodes());
    }
    sum
}

fn nodes_of_entries(entries: &Items<Entry>) -> u32 {
    let mut sum = 0u32;
    for entry in entries.as_slice() {
        sum = sum.saturating_add(entry.nodes());
    }
    sum
}

fn nodes_of_arguments(arguments: &Items<Argument>) -> u32 {
    let mut sum = 0u32;
    for argument in arguments.as_slice() {
        sum = sum.saturating_add(argument.nodes());
    }
    sum
}

impl Statement {
    /// In a box, with the count of its nodes.
    pub fn held(alloc: Global, statement: Statement) -> Result<Subtree<Statement>, AllocError>
        ensures { IfOk result (λ held. held ≡ statement) }
    {
        let nodes = statement.nodes();
        Subtree::new(alloc, statement, nodes)
    }

    /// The number of nodes, or the largest count.
    pub(crate) fn nodes(&self) -> u32 {
        self.nodes_below().saturating_add(1)
    }

    fn nodes_below(&self) -> u32 {
        match self {
            Statement::If {
                at: _,
                condition,
                then,
                otherwise,
            } => condition
                .nodes()
                .saturating_add(then.nodes())
                .saturating_add(nodes_of_body(otherwise)),
            Statement::While {
                at: _,
                condition,
                body,
            } => condition.nodes().saturating_add(nodes_of_body(body)),
            Statement::For {
                at: _,
                first,
                condition,
                update,
                body,
            } => nodes_of_first(first)
                .saturating_add(nodes_if_any(condition))
                .saturating_add(nodes_if_any(update))
                .saturating_add(nodes_of_body(body)),
            Statement::ForEach {
                at: _,
                of: _,
                name: _,
                over,
                body,
            } => over.nodes().saturating_add(body.nodes()),
            Statement::ForIn {
                at: _,
                name: _,
                over,
                body,
            } => over.nodes().saturating_add(body.nodes()),
            Statement::Try {
                at: _,
                block,
                catches,
            } => block.nodes().saturating_add(nodes_of_catches(catches)),
            Statement::Do {
                at: _,
                block,
                condition,
            } => block.nodes().saturating_add(condition.nodes()),
            Statement::Declare(declaration) => declaration.nodes(),
            Statement::Continue { at: _ } => 0,
            Statement::Break { at: _ } => 0,
            Statement::Return { at: _, value } => match value {
                Some(value) => value.nodes(),
                None => 0,
            },
            Statement::Throw { at: _, value } => value.nodes(),
            Statement::Expression { at: _, value } => value.nodes(),
        }
    }
}

impl Expr {
    /// In a box, with the count of its nodes.
    pub fn held(alloc: Global, expr: Expr) -> Result<Subtree<Expr>, AllocError>
        ensures { IfOk result (λ held. held ≡ expr) }
    {
        let nodes = expr.nodes();
        Subtree::new(alloc, expr, nodes)
    }

    /// The number of nodes, or the largest count.
    pub(crate) fn nodes(&self) -> u32 {
        self.nodes_below().saturating_add(1)
    }

    fn nodes_below(&self) -> u32 {
        match self {
            Expr::Assign {
                operator: _,
                at: _,
                target,
                value,
            } => target.nodes().saturating_add(value.nodes()),
            Expr::Conditional {
                at: _,
                condition,
                yes,
                no,
            } => condition
                .nodes()
                .saturating_add(yes.nodes())
                .saturating_add(no.nodes()),
            Expr::Elvis { at: _, left, right } => left.nodes().saturating_add(right.nodes()),
            Expr::Binary {
                operator: _,
                at: _,
                left,
                right,
            } => left.nodes().saturating_add(right.nodes()),
            Expr::Instanceof {
                at: _,
                operand,
                of: _,
            } => operand.nodes(),
            Expr::Unary {
                operator: _,
                at: _,
                operand,
            } => operand.nodes(),
            Expr::Prefix {
                step: _,
                at: _,
                target,
            } => target.nodes(),
            Expr::Postfix {
                step: _,
                at: _,
                target,
            } => target.nodes(),
            Expr::Cast {
                at: _,
                of: _,
                operand,
            } => operand.nodes(),
            Expr::Bracketed { at: _, inner } => inner.nodes(),
            Expr::Integer { at: _, spelling: _ } => 0,
            Expr::Text { at: _, spelling: _ } => 0,
            Expr::Constant { constant: _, at: _ } => 0,
            Expr::List { at: _, items } => nodes_of(items.as_slice()),
            Expr::Map { at: _, entries } => nodes_of_entries(entries),
            Expr::Name { at: _, spelling: _ } => 0,
            Expr::Call {
                at: _,
                spelling: _,
                arguments,
            } => nodes_of_arguments(arguments),
            Expr::New {
                at: _,
                of: _,
                arguments,
            } => nodes_of_arguments(arguments),
            Expr::NewArray {
                at: _,
                of: _,
                sizes,
            } => nodes_of(sizes.as_slice()),
            Expr::NewItems {
                at: _,
                of: _,
                items,
            } => nodes_of(items.as_slice()),
            Expr::Type { of: _ } => 0,
            Expr::Member {
                access: _,
                at: _,
                receiver,
                spelling: _,
            } => receiver.nodes(),
            Expr::Method {
                access: _,
                at: _,
                receiver,
                spelling: _,
                arguments,
            } => receiver
                .nodes()
                .saturating_add(nodes_of_arguments(arguments)),
            Expr::Element {
                access: _,
                at: _,
                receiver,
                spelling: _,
            } => receiver.nodes(),
            Expr::Index {
                at: _,
                receiver,
                index,
            } => receiver.nodes().saturating_add(index.nodes()),
        }
    }
}
