//! Lists and maps.

ghost use Rattle.std.specs.Prelude.{◌≡◌, IfOk};
ghost use Rattle.pl_grammar.specs.Making as making;

use crate::lists::{before, single};
use pl_grammar::{Contents, More};
use pl_tree::{Entry, Expr};
use plain_data::{Items, Subtree};
use std::alloc::{AllocError, Global};

/// The list or map that begins with this expression.
fn filled_as(
    alloc: Global,
    at: u32,
    one: Subtree<Expr>,
    more: Option<More>,
) -> Result<Expr, AllocError>
    ensures { IfOk result (λ expr. expr ≡ making.filled_as at one more) }
{
    match more {
        None => {
            let items = single(alloc, one)?;
            Ok(Expr::List { at, items })
        }
        Some(More::Items(others)) => {
            let items = before(alloc, one, others)?;
            Ok(Expr::List { at, items })
        }
        Some(More::Entries(value, others)) => {
            let entry = Entry { key: one, value };
            let entries = before(alloc, entry, others)?;
            Ok(Expr::Map { at, entries })
        }
    }
}

/// The list or map with these contents.
fn contents_of(alloc: Global, at: u32, inside: Option<Contents>) -> Result<Expr, AllocError>
    ensures { IfOk result (λ expr. expr ≡ making.collected at inside) }
{
    match inside {
        None => Ok(Expr::List {
            at,
            items: Items::new(alloc),
        }),
        Some(Contents::NoEntries) => Ok(Expr::Map {
            at,
            entries: Items::new(alloc),
        }),
        Some(Contents::Filled(one, more)) => filled_as(alloc, at, one, more),
    }
}

/// The list or map with these contents, in a box.
pub fn collected(
    alloc: Global,
    at: u32,
    inside: Option<Contents>,
) -> Result<Subtree<Expr>, AllocError>
    ensures { IfOk result (λ expr. expr ≡ making.collected at inside) }
{
    let expr = contents_of(alloc, at, inside)?;
    Expr::held(alloc, expr)
}
