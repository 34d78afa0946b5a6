//! New objects and arrays.

ghost use Rattle.std.specs.Prelude.{◌≡◌, IfOk};
ghost use Rattle.pl_grammar.specs.Making as making;

use crate::lists::before;
use pl_grammar::{New, Placed};
use pl_tree::{Expr, TypeName};
use std::alloc::{AllocError, Global};

/// What `new of` and what follows make.
fn creation(at: u32, of: TypeName, rest: New) -> Expr
    ensures { record { start = at; expr = result } ≡ making.created_as at of rest }
{
    match rest {
        New::Object(brackets, arguments) => Expr::New {
            at,
            of: of.with_brackets(brackets),
            arguments,
        },
        New::Sized(sizes) => Expr::NewArray { at, of, sizes },
        New::Filled(items) => Expr::NewItems { at, of, items },
    }
}

/// What `new of` and what follows make, with its place.
pub fn created_as(alloc: Global, at: u32, of: TypeName, rest: New) -> Result<Placed, AllocError>
    ensures { IfOk result (λ placed. placed ≡ making.created_as at of rest) }
{
    let expr = Expr::held(alloc, creation(at, of, rest))?;
    Ok(Placed { start: at, expr })
}

/// What follows the first `[` of a type, which is one of its brackets if a `]` follows.
pub fn bracket_first(alloc: Global, at: u32, rest: New) -> Result<New, AllocError>
    ensures { IfOk result (λ made. made ≡ making.bracket_first at rest) }
{
    match rest {
        New::Object(brackets, arguments) => {
            let brackets = before(alloc, at, brackets)?;
            Ok(New::Object(brackets, arguments))
        }
        New::Sized(sizes) => Ok(New::Sized(sizes)),
        New::Filled(items) => Ok(New::Filled(items)),
    }
}
