//! Lists, maps and arrays that scripts write.

ghost use Rattle.std.specs.Prelude.{◌≡◌};
ghost use Rattle.typing_rules.specs.Outcomes.{Keeps};
ghost use Rattle.typing_rules.specs.Rules.Containers as spec;

use crate::part::{Form, Part};
use crate::refuse::refuse;
use crate::rules::casts::cast_each;
use crate::rules::nodes::part;
use crate::rules::types::arrays;
use pl_types::{Fail, Primitive, Ty, classes, rules};
use plain_data::{Boxed, Items};
use std::alloc::Global;
use typed_tree::{Node, Operation, Operator};

/// Parts that are all cast to one type, and what is made of them.
fn made(
    alloc: Global,
    form: Form,
    at: u32,
    operator: Operator,
    of: Ty,
    to: &Ty,
    given: Vec<Part>,
) -> Result<Part, Fail>
    ensures { Keeps (spec.made form at operator of to.now given.items) result }
{
    let parts = cast_each(alloc, to, given, Items::new(alloc))?;
    let operation = Operation::Operator(operator);
    part(alloc, at, form, of, Node::Apply { operation, parts })
}

/// `[a, b]`, at its `[`.
///
/// BadCast (9): an element is void.
pub fn list_of(alloc: Global, at: u32, given: Vec<Part>) -> Result<Part, Fail>
    ensures { Keeps (spec.list_of at given.items) result }
{
    let of = Ty::Class(classes::ARRAY_LIST);
    made(
        alloc,
        Form::Literal,
        at,
        Operator::List,
        of,
        &Ty::Def,
        given,
    )
}

/// `[k: v, l: w]`, at its `[`, of the keys and values by turns.
///
/// BadCast (9): one is void.
pub fn map_of(alloc: Global, at: u32, given: Vec<Part>) -> Result<Part, Fail>
    ensures { Keeps (spec.map_of at given.items) result }
{
    let of = Ty::Class(classes::HASH_MAP);
    made(alloc, Form::Literal, at, Operator::Map, of, &Ty::Def, given)
}

/// `new T[n][m]`, at its `new`, of the sizes.
///
/// BadCast (9): a size is no int. OutOfProfile (19): there is none.
pub fn array_of(alloc: Global, at: u32, of: Ty, given: Vec<Part>) -> Result<Part, Fail>
    ensures { Keeps (spec.array_of at of given.items) result }
{
    if given.len() == 0 {
        return Err(refuse(rules::OUT_OF_PROFILE, at));
    }
    let of = arrays(alloc, given.len(), of)?;
    let to = Ty::Prim(Primitive::Int);
    made(alloc, Form::Deed, at, Operator::NewArray, of, &to, given)
}

/// `new T[] {a, b}`, at its `new`.
///
/// BadCast (9): an element has another type.
pub fn array_with(alloc: Global, at: u32, of: Ty, given: Vec<Part>) -> Result<Part, Fail>
    ensures { Keeps (spec.array_with at of given.items) result }
{
    let to = of.share(alloc)?;
    let of = Ty::Array(Boxed::new(alloc, of)?);
    made(alloc, Form::Deed, at, Operator::ArrayOf, of, &to, given)
}
