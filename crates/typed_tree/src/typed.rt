//! Expressions.

ghost use Rattle.std.specs.Prelude.{◌≡◌, ◌<◌, ◌≤◌, max, IfOk, IfSome};
ghost use Rattle.typed_tree.specs.declared.typed.Typed.{size-Typed};
ghost use Rattle.typed_tree.specs.Depths.{above};

use crate::operation::{Change, Constant, Gives, Logical, Operation, Target};
use pl_types::Ty;
use plain_data::{Items, Subtree, Text};
use std::alloc::{AllocError, Global};

/// An expression: its place, its type, and what it does.
///
/// The place is its first token; of a binary expression, an assignment, a conditional, an elvis and an `instanceof` the operator; of a
/// member the name; of an index the `[`. A cast that typing adds stands where the expression stands that is cast.
#[cycle(typed)]
pub struct Typed {
    pub at: u32,
    pub of: Ty,
    pub node: Node,
}

/// What an expression does.
#[cycle(typed)]
pub enum Node {
    Constant(Constant),
    /// A text, in UTF-8.
    Text(Text),
    /// A variable, by its name.
    Local(Text),
    /// What is strict: the parts are taken from the left to the right, and then the operation is done.
    Apply {
        operation: Operation,
        parts: Items<Subtree<Typed>>,
    },
    /// The same where the first part is not null; else it is null, and the other parts are left out.
    Guarded {
        operation: Operation,
        parts: Items<Subtree<Typed>>,
    },
    /// `&&` or `||` of two booleans.
    Logical {
        operator: Logical,
        left: Subtree<Typed>,
        right: Subtree<Typed>,
    },
    /// `condition ? yes : no`
    Conditional {
        condition: Subtree<Typed>,
        yes: Subtree<Typed>,
        no: Subtree<Typed>,
    },
    /// `left ?: right`: the right side where the left is null.
    Elvis {
        left: Subtree<Typed>,
        right: Subtree<Typed>,
    },
    /// A plain assignment: the target's parts, the value, and then the write. It gives the value.
    Assign {
        target: Target,
        parts: Items<Subtree<Typed>>,
        value: Subtree<Typed>,
    },
    /// A compound assignment, `++` or `--`: the target's parts, its value, the first cast, the right side, the operator, the second
    /// cast, and then the write.
    Change {
        target: Target,
        parts: Items<Subtree<Typed>>,
        change: Change,
        right: Subtree<Typed>,
        gives: Gives,
    },
    /// A function value: the interface that it has, if one is known, and the number of its function, which says what it copies.
    Lambda {
        interface: Option<u32>,
        function: u32,
    },
    /// `class::name`, which is looked for when it is called.
    Reference {
        interface: Option<u32>,
        class: u32,
        name: Text,
    },
    /// `of::new`, which is looked for when it is called.
    NewReference {
        interface: Option<u32>,
        of: Ty,
    },
}

/// The part of most nodes, if there is one. The others are let go.
#[cycle(letting_go)]
fn heaviest(mut parts: Items<Subtree<Typed>>) -> Option<Subtree<Typed>>
    ensures smaller { IfSome result (λ part. size-Typed part < above parts) }
{
    let Some(mut best) = parts.pop() else {
        return None;
    };
    while let Some(part) = parts.pop() {
        if best.nodes() < part.nodes() {
            best = part;
        } else {
            let _lighter = part;
        }
    }
    Some(best)
}

/// The one of most nodes of two parts. The other is let go.
#[cycle(letting_go)]
fn heavier(left: Subtree<Typed>, right: Subtree<Typed>) -> Subtree<Typed>
    ensures smaller { size-Typed result ≤ max (size-Typed left) (size-Typed right) }
{
    if left.nodes() < right.nodes() {
        right
    } else {
        left
    }
}

impl Drop for Typed {
    /// Expressions inside expressions are let go in a loop, since they may nest too deep for the machine's stack: it goes on with the
    /// one of most nodes, and the others are let go by calls, which nest at most as the logarithm of the number of nodes.
    #[cycle(letting_go)]
    fn drop(mut self) {
        loop {
            let Typed {
                at: _,
                of: _of,
                node,
            } = self;
            let last = match node {
                Node::Constant(_) => return,
                Node::Text(_text) => return,
                Node::Local(_name) => return,
                Node::Apply {
                    operation: _operation,
                    parts,
                } => match heaviest(parts) {
                    Some(part) => part,
                    None => return,
                },
                Node::Guarded {
                    operation: _operation,
                    parts,
                } => match heaviest(parts) {
                    Some(part) => part,
                    None => return,
                },
                Node::Logical {
                    operator: _,
                    left,
                    right,
                } => heavier(left, right),
                Node::Conditional { condition, yes, no } => {
                    let side = heavier(yes, no);
                    heavier(condition, side)
                }
                Node::Elvis { left, right } => heavier(left, right),
                Node::Assign {
                    target: _target,
                    parts,
                    value,
                } => match heaviest(parts) {
                    Some(part) => heavier(part, value),
                    None => value,
                },
                Node::Change {
                    target: _target,
                    parts,
                    change: _,
                    right,
                    gives: _,
                } => match heaviest(parts) {
                    Some(part) => heavier(part, right),
                    None => right,
                },
                Node::Lambda {
                    interface: _,
                    function: _,
                } => return,
                Node::Reference {
                    interface: _,
                    class: _,
                    name: _name,
                } => return,
                Node::NewReference {
                    interface: _,
                    of: _of,
                } => return,
            };
            self = last.into_inner();
        }
    }
}

impl Typed {
    /// In a box, with the count of its nodes.
    pub fn held(alloc: Global, typed: Typed) -> Result<Subtree<Typed>, AllocError>
        ensures { IfOk result (λ held. held ≡ typed) }
    {
        let nodes = typed.nodes();
        Subtree::new(alloc, typed, nodes)
    }

    /// Lets it go.
    pub fn discard(self) {}
}
