//! Typed nodes.

ghost use Rattle.std.specs.Prelude.{◌≡◌, [], ◌∷◌, Ok};
ghost use Rattle.typing_rules.specs.Outcomes.{Keeps};
ghost use Rattle.typing_rules.specs.Rules.Nodes as spec;

use crate::part::{Form, Part};
use pl_types::{Fail, Primitive, Ty};
use plain_data::{Items, Subtree};
use std::alloc::Global;
use typed_tree::{Node, Typed};

/// The type of conditions.
pub(crate) fn boolean() -> Ty
    ensures { result ≡ spec.boolean }
{
    Ty::Prim(Primitive::Boolean)
}

/// An expression of a type at a place.
pub(crate) fn typed(alloc: Global, at: u32, of: Ty, node: Node) -> Result<Subtree<Typed>, Fail>
    ensures { Keeps (Ok (spec.typed at of node)) result }
{
    match Typed::held(alloc, Typed { at, of, node }) {
        Ok(typed) => Ok(typed),
        Err(_) => Err(Fail::NoMemory),
    }
}

/// The same, with what it is to the node around it.
pub(crate) fn part(alloc: Global, at: u32, form: Form, of: Ty, node: Node) -> Result<Part, Fail>
    ensures { Keeps (Ok (spec.part at form (spec.typed at of node))) result }
{
    match typed(alloc, at, of, node) {
        Ok(typed) => Ok(Part { at, form, typed }),
        Err(fail) => Err(fail),
    }
}

/// What an operation has that is on one part.
pub(crate) fn one_part(alloc: Global, x: Subtree<Typed>) -> Result<Items<Subtree<Typed>>, Fail>
    ensures { Keeps (Ok (x ∷ [])) result }
{
    let mut parts = Items::new(alloc);
    match parts.push(x) {
        Ok(()) => Ok(parts),
        Err(_) => Err(Fail::NoMemory),
    }
}

/// What an operation has that is on two parts.
pub(crate) fn two_parts(
    alloc: Global,
    x: Subtree<Typed>,
    y: Subtree<Typed>,
) -> Result<Items<Subtree<Typed>>, Fail>
    ensures { Keeps (Ok (x ∷ y ∷ [])) result }
{
    let mut parts = one_part(alloc, x)?;
    match parts.push(y) {
        Ok(()) => Ok(parts),
        Err(_) => Err(Fail::NoMemory),
    }
}

/// What is no literal and no statement.
pub(crate) fn plain(at: u32, typed: Subtree<Typed>) -> Part
    ensures { result ≡ spec.plain at typed }
{
    Part {
        at,
        form: Form::Other,
        typed,
    }
}

pub(crate) fn is_void(of: &Ty) -> bool
    ensures { result ≡ spec.is_void of.now }
{
    match of {
        Ty::Void => true,
        _ => false,
    }
}
