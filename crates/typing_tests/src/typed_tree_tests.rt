//! Typed trees, let go of without depth.

use arithmetic::Op;
use pl_types::{Primitive, Ty};
use plain_data::{Items, Subtree, Text};
use std::alloc::{AllocError, Global};
use std::test::Fail as TestFail;
use typed_tree::{
    Constant, Logical, Node, Operation, Operator, StatementNode, Target, Typed, TypedStatement,
};

// As deep as a script of 65,535 bytes may make a tree.
const LEVELS: usize = 32_000;

// In which part the tree goes on.
#[derive(Clone, Copy)]
enum Side {
    FirstPart,
    LastPart,
    Left,
    Right,
    Assigned,
    Otherwise,
}

const SIDES: [Side; 6] = [
    Side::FirstPart,
    Side::LastPart,
    Side::Left,
    Side::Right,
    Side::Assigned,
    Side::Otherwise,
];

fn int() -> Ty {
    Ty::Prim(Primitive::Int)
}

fn leaf(alloc: Global) -> Result<Subtree<Typed>, AllocError> {
    Typed::held(
        alloc,
        Typed {
            at: 0,
            of: int(),
            node: Node::Constant(Constant::Int(1)),
        },
    )
}

fn applied(alloc: Global, first: Subtree<Typed>, last: Subtree<Typed>) -> Result<Node, AllocError> {
    let mut parts = Items::new(alloc);
    parts.push(first)?;
    parts.push(last)?;
    let operation = Operation::Operator(Operator::Int(Op::Add));
    Ok(Node::Apply { operation, parts })
}

fn assigned(alloc: Global, value: Subtree<Typed>) -> Result<Node, AllocError> {
    let name = Text::new(alloc, "a")?;
    Ok(Node::Assign {
        target: Target::Local(name),
        parts: Items::new(alloc),
        value,
    })
}

// One level more.
fn grown(alloc: Global, side: Side, inner: Subtree<Typed>) -> Result<Node, AllocError> {
    let other = leaf(alloc)?;
    match side {
        Side::FirstPart => applied(alloc, inner, other),
        Side::LastPart => applied(alloc, other, inner),
        Side::Left => Ok(Node::Logical {
            operator: Logical::And,
            left: inner,
            right: other,
        }),
        Side::Right => Ok(Node::Elvis {
            left: other,
            right: inner,
        }),
        Side::Assigned => assigned(alloc, inner),
        Side::Otherwise => {
            let condition = leaf(alloc)?;
            Ok(Node::Conditional {
                condition,
                yes: other,
                no: inner,
            })
        }
    }
}

fn deep(alloc: Global, side: Side) -> Result<Subtree<Typed>, AllocError> {
    let mut tree = leaf(alloc)?;
    for _ in 0..LEVELS {
        let node = grown(alloc, side, tree)?;
        tree = Typed::held(
            alloc,
            Typed {
                at: 0,
                of: int(),
                node,
            },
        )?;
    }
    Ok(tree)
}

#[test]
fn deep_expressions_are_let_go(rt: HostRuntime) -> Result<(), TestFail> {
    let alloc = rt.alloc();
    for side in SIDES {
        let tree = deep(alloc, side)?;
        assert!(rt; tree.nodes() as usize > LEVELS);
        tree.into_inner().discard();
    }
    Ok(())
}

fn nothing(alloc: Global) -> Result<Subtree<TypedStatement>, AllocError> {
    TypedStatement::held(
        alloc,
        TypedStatement {
            at: 0,
            node: StatementNode::Block(Items::new(alloc)),
        },
    )
}

// `if (1) {} else if (1) {} else ..`, or `if (1) if (1) ..`
fn ifs(alloc: Global, chained: bool) -> Result<Subtree<TypedStatement>, AllocError> {
    let mut tree = nothing(alloc)?;
    for _ in 0..LEVELS {
        let condition = leaf(alloc)?;
        let other = nothing(alloc)?;
        let node = if chained {
            StatementNode::If {
                condition,
                then: other,
                otherwise: Some(tree),
            }
        } else {
            StatementNode::If {
                condition,
                then: tree,
                otherwise: Some(other),
            }
        };
        tree = TypedStatement::held(alloc, TypedStatement { at: 0, node })?;
    }
    Ok(tree)
}

#[test]
fn deep_statements_are_let_go(rt: HostRuntime) -> Result<(), TestFail> {
    let alloc = rt.alloc();
    for chained in [false, true] {
        let tree = ifs(alloc, chained)?;
        assert!(rt; tree.nodes() as usize > LEVELS);
        tree.into_inner().discard();
    }
    Ok(())
}
