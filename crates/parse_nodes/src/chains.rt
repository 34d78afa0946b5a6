//! Operators and members that follow one another.

ghost use Rattle.std.specs.Prelude.{◌≡◌, IfOk};
ghost use Rattle.pl_grammar.specs.Making as making;

use crate::lists::reversed;
use pl_grammar::{Operation, Placed, Suffix};
use pl_tree::Expr;
use plain_data::{Items, Subtree};
use std::alloc::{AllocError, Global};

/// An expression with one operation more, to the right.
fn applied(alloc: Global, left: Placed, operation: Operation) -> Result<Placed, AllocError>
    ensures { IfOk result (λ placed. placed ≡ making.applied left operation) }
{
    let Placed {
        start,
        expr: operand,
    } = left;
    match operation {
        Operation::Binary(operator, at, right) => {
            let whole = Expr::Binary {
                operator,
                at,
                left: operand,
                right,
            };
            let expr = Expr::held(alloc, whole)?;
            Ok(Placed { start, expr })
        }
        Operation::Test(at, of) => {
            let expr = Expr::held(alloc, Expr::Instanceof { at, operand, of })?;
            Ok(Placed { start, expr })
        }
    }
}

/// An expression and the operations after it, which group to the left.
pub fn joined(
    alloc: Global,
    left: Placed,
    operations: Items<Operation>,
) -> Result<Placed, AllocError>
    ensures { IfOk result (λ placed. placed ≡ making.joined left operations) }
{
    let mut whole = left;
    let mut more = reversed(alloc, operations)?;
    'operations: while let Some(operation) = more.pop() {
        whole = applied(alloc, whole, operation)?;
    }
    Ok(whole)
}

/// What a suffix takes of an expression.
fn suffix_on(receiver: Subtree<Expr>, suffix: Suffix) -> Expr
    ensures { result ≡ making.suffixed_by receiver suffix }
{
    match suffix {
        Suffix::Member(access, at, spelling) => Expr::Member {
            access,
            at,
            receiver,
            spelling,
        },
        Suffix::Method(access, at, spelling, arguments) => Expr::Method {
            access,
            at,
            receiver,
            spelling,
            arguments,
        },
        Suffix::Element(access, at, spelling) => Expr::Element {
            access,
            at,
            receiver,
            spelling,
        },
        Suffix::Index(at, index) => Expr::Index {
            at,
            receiver,
            index,
        },
    }
}

/// What a suffix takes of an expression, in a box.
pub fn suffixed_by(
    alloc: Global,
    of: Subtree<Expr>,
    suffix: Suffix,
) -> Result<Subtree<Expr>, AllocError>
    ensures { IfOk result (λ expr. expr ≡ making.suffixed_by of suffix) }
{
    Expr::held(alloc, suffix_on(of, suffix))
}

fn followed_by(alloc: Global, of: Placed, suffix: Suffix) -> Result<Placed, AllocError>
    ensures { IfOk result (λ placed. placed ≡ making.followed_by of suffix) }
{
    let Placed { start, expr } = of;
    let expr = suffixed_by(alloc, expr, suffix)?;
    Ok(Placed { start, expr })
}

/// An expression and the suffixes after it, from the left.
pub fn chained(alloc: Global, of: Placed, suffixes: Items<Suffix>) -> Result<Placed, AllocError>
    ensures { IfOk result (λ placed. placed ≡ making.chained of suffixes) }
{
    let mut whole = of;
    let mut more = reversed(alloc, suffixes)?;
    'suffixes: while let Some(suffix) = more.pop() {
        whole = followed_by(alloc, whole, suffix)?;
    }
    Ok(whole)
}
