//! Statements.

ghost use Rattle.std.specs.Prelude.{◌≡◌, ◌≤◌, max, IfOk};
ghost use Rattle.typed_tree.specs.declared.statement.TypedStatement.{size-TypedStatement};

use crate::typed::Typed;
use pl_types::Ty;
use plain_data::{Items, Subtree, Text};
use std::alloc::{AllocError, Global};

/// A statement, at its first token.
#[cycle(statement)]
pub struct TypedStatement {
    pub at: u32,
    pub node: StatementNode,
}

/// What a statement does. Names that a block, a loop or the body of an `if` declares are gone behind it.
#[cycle(statement)]
pub enum StatementNode {
    /// An expression whose value is dropped.
    Expression(Subtree<Typed>),
    Declare(Items<TypedVariable>),
    Block(Items<Subtree<TypedStatement>>),
    If {
        condition: Subtree<Typed>,
        then: Subtree<TypedStatement>,
        otherwise: Option<Subtree<TypedStatement>>,
    },
    /// A `while` or a `for`: what is done first, the test before each turn, the turn, and what is done behind it. There is no test
    /// where it is missing in the script, or is the literal `true`. A loop over elements is a `for` that declares an iterator under a
    /// name that no script has (Java Language Specification, 14.14.2).
    Loop {
        first: Option<Subtree<TypedStatement>>,
        condition: Option<Subtree<Typed>>,
        update: Option<Subtree<Typed>>,
        body: Option<Subtree<TypedStatement>>,
    },
    /// A loop whose test stands behind each turn.
    Do {
        body: Subtree<TypedStatement>,
        condition: Option<Subtree<Typed>>,
    },
    Try {
        body: Subtree<TypedStatement>,
        catches: Items<TypedCatch>,
    },
    Break,
    Continue,
    Return(Option<Subtree<Typed>>),
    Throw(Subtree<Typed>),
}

/// A variable that is declared, at its name. Without a value it begins with its type's default.
pub struct TypedVariable {
    pub at: u32,
    pub name: Text,
    pub of: Ty,
    pub value: Option<Subtree<Typed>>,
}

impl Drop for TypedVariable {
    fn drop(self) {
        let TypedVariable {
            at: _,
            name: _name,
            of: _of,
            value: _value,
        } = self;
    }
}

/// A catch: the class whose instances it takes, the name that they have in it, and what it does.
#[cycle(statement)]
pub struct TypedCatch {
    pub at: u32,
    pub class: u32,
    pub name: Text,
    pub body: Subtree<TypedStatement>,
}

impl Drop for TypedCatch {
    #[cycle(letting_go)]
    fn drop(self) {
        let TypedCatch {
            at: _,
            class: _,
            name: _name,
            body: _body,
        } = self;
    }
}

/// The one of most nodes of two statements. The other is let go.
#[cycle(letting_go)]
fn heavier(left: Subtree<TypedStatement>, right: Subtree<TypedStatement>) -> Subtree<TypedStatement>
    ensures smaller { size-TypedStatement result ≤ max (size-TypedStatement left) (size-TypedStatement right) }
{
    if left.nodes() < right.nodes() {
        right
    } else {
        left
    }
}

impl Drop for TypedStatement {
    /// Statements inside statements are let go in a loop, since they may nest too deep for the machine's stack: it goes on with the
    /// one of most nodes, and the others are let go by calls. Those of a block stand in brackets, which do not nest so deep.
    #[cycle(letting_go)]
    fn drop(mut self) {
        loop {
            let TypedStatement { at: _, node } = self;
            let last = match node {
                StatementNode::Expression(_value) => return,
                StatementNode::Declare(_variables) => return,
                StatementNode::Block(_statements) => return,
                StatementNode::If {
                    condition: _condition,
                    then,
                    otherwise,
                } => match otherwise {
                    Some(other) => heavier(then, other),
                    None => then,
                },
                StatementNode::Loop {
                    first: _first,
                    condition: _condition,
                    update: _update,
                    body,
                } => match body {
                    Some(body) => body,
                    None => return,
                },
                StatementNode::Do {
                    body,
                    condition: _condition,
                } => body,
                StatementNode::Try {
                    body,
                    catches: _catches,
                } => body,
                StatementNode::Break => return,
                StatementNode::Continue => return,
                StatementNode::Return(_value) => return,
                StatementNode::Throw(_value) => return,
            };
            self = last.into_inner();
        }
    }
}

impl TypedStatement {
    /// In a box, with the count of its nodes.
    pub fn held(
        alloc: Global,
        statement: TypedStatement,
    ) -> Result<Subtree<TypedStatement>, AllocError>
        ensures { IfOk result (λ held. held ≡ statement) }
    {
        let nodes = statement.nodes();
        Subtree::new(alloc, statement, nodes)
    }

    /// Lets it go.
    pub fn discard(self) {}
}
