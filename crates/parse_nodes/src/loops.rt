//! Loops.

ghost use Rattle.std.specs.Prelude.{◌≡◌, IfOk};
ghost use Rattle.pl_grammar.specs.Making as making;

use pl_grammar::{ForRest, Placed, Three};
use pl_tree::{Expr, Statement};
use plain_data::Subtree;
use std::alloc::{AllocError, Global};

fn loop_of(at: u32, rest: ForRest) -> Statement
    ensures { result ≡ making.for_statement at rest }
{
    match rest {
        ForRest::Three(first, three) => {
            let Three {
                condition,
                update,
                body,
            } = three;
            Statement::For {
                at,
                first,
                condition,
                update,
                body,
            }
        }
        ForRest::Each(of, name, over, body) => Statement::ForEach {
            at,
            of,
            name,
            over,
            body,
        },
        ForRest::In(name, over, body) => Statement::ForIn {
            at,
            name,
            over,
            body,
        },
    }
}

/// A `for`, in a box.
pub fn for_statement(
    alloc: Global,
    at: u32,
    rest: ForRest,
) -> Result<Subtree<Statement>, AllocError>
    ensures { IfOk result (λ statement. statement ≡ making.for_statement at rest) }
{
    Statement::held(alloc, loop_of(at, rest))
}

/// The expression, without its place.
pub fn any_expr(any: Option<Placed>) -> Option<Subtree<Expr>>
    ensures { result ≡ making.any_expr any }
{
    match any {
        Some(one) => Some(one.expr),
        None => None,
    }
}
