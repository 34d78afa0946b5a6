//! Casts.

ghost use Rattle.std.specs.Prelude.{◌≡◌, [], ◌∷◌, ◌++◌, drop, reverse, Ok, OnOk};
ghost use Rattle.typing_rules.specs.Outcomes.{Keeps, KeepsIn, bind};
ghost use Rattle.typing_rules.specs.Rules.Casts as spec;
ghost use Rattle.typing_rules.specs.Rules.Members.{cast_all};
ghost use Rattle.typing_rules.specs.Rules.Nodes as nodes;
ghost use Rattle.typed_tree.specs.declared.typed.Node.TheVariants as node;

use crate::lineage::Classes;
use crate::part::{Form, Part};
use crate::refuse::refuse;
use crate::rules::nodes::{boolean, one_part, plain, typed};
use pl_types::{Cast, Fail, Primitive, Ty, cast, rules};
use plain_data::{Items, Subtree};
use std::alloc::Global;
use typed_tree::{Constant, Node, Operation, Typed};

fn byte_of(value: i32) -> Option<Constant>
    ensures { result ≡ spec.as_byte value }
{
    if -128 <= value && value <= 127 {
        Some(Constant::Byte(value as i8))
    } else {
        None
    }
}

fn short_of(value: i32) -> Option<Constant>
    ensures { result ≡ spec.as_short value }
{
    if -32768 <= value && value <= 32767 {
        Some(Constant::Short(value as i16))
    } else {
        None
    }
}

fn char_of(value: i32) -> Option<Constant>
    ensures { result ≡ spec.as_char value }
{
    if 0 <= value && value <= 65535 {
        Some(Constant::Char(value as u16))
    } else {
        None
    }
}

/// The constant of a narrower type that a literal stands for.
fn standing(form: Form, to: &Ty) -> Option<Constant>
    ensures { result ≡ spec.standing form to.now }
{
    let Form::Number(value) = form else {
        return None;
    };
    match to {
        Ty::Prim(Primitive::Byte) => byte_of(value),
        Ty::Prim(Primitive::Short) => short_of(value),
        Ty::Prim(Primitive::Char) => char_of(value),
        _ => None,
    }
}

/// What a cast of the table gives, at a place. `broken` is where the expression stands that is cast.
pub(crate) fn cast_by(
    alloc: Global,
    by: Option<Cast>,
    broken: u32,
    at: u32,
    to: &Ty,
    x: Subtree<Typed>,
) -> Result<Subtree<Typed>, Fail>
    ensures { Keeps (spec.cast_by by broken at to.now x) result }
{
    let Some(by) = by else {
        return Err(refuse(rules::BAD_CAST, broken));
    };
    if x.get().of.is(to) {
        return Ok(x);
    }
    let parts = one_part(alloc, x)?;
    let of = to.share(alloc)?;
    let operation = Operation::Cast(by);
    typed(alloc, at, of, Node::Apply { operation, parts })
}

/// A cast of the table, written or added, at a place.
pub(crate) fn cast_at(
    alloc: Global,
    at: u32,
    to: &Ty,
    x: Part,
    written: bool,
) -> Result<Subtree<Typed>, Fail>
    ensures { Keeps (spec.cast_at at to.now x written) result }
{
    let broken = x.at;
    let by = cast(&Classes, x.of(), to, written);
    cast_by(alloc, by, broken, at, to, x.into_typed())
}

/// A constant of a type at a place.
fn constant_of(alloc: Global, at: u32, of: &Ty, constant: Constant) -> Result<Subtree<Typed>, Fail>
    ensures { Keeps (Ok (nodes.typed at of.now (node.Constant constant))) result }
{
    let of = of.share(alloc)?;
    typed(alloc, at, of, Node::Constant(constant))
}

/// A cast that typing adds, where the expression stands that is cast. An int literal may stand for a narrower type.
///
/// BadCast (9): there is none.
pub fn cast_to(alloc: Global, to: &Ty, x: Part) -> Result<Subtree<Typed>, Fail>
    ensures { Keeps (spec.cast_to to.now x) result }
{
    let at = x.at;
    match standing(x.form, to) {
        Some(constant) => constant_of(alloc, at, to, constant),
        None => cast_at(alloc, at, to, x, false),
    }
}

/// The next argument cast to its parameter's type, behind what is there. The next is the last of what is given; where nothing is left,
/// nothing is done.
pub(crate) fn cast_next(
    alloc: Global,
    of: &Ty,
    given: &mut Vec<Part>,
    casts: &mut Items<Subtree<Typed>>,
) -> Result<(), Fail>
    ensures cast { KeepsIn (bind (cast_all (of.now ∷ []) (reverse given.old.items)) (λ ys. Ok (casts.old ++ ys))) result casts.new }
    ensures left { OnOk result (reverse given.new.items ≡ drop 1 (reverse given.old.items)) }
{
    match given.pop() {
        Some(x) => cast_behind(alloc, of, x, casts),
        None => Ok(()),
    }
}

/// An argument cast to its parameter's type, behind what is there.
fn cast_behind(
    alloc: Global,
    of: &Ty,
    x: Part,
    casts: &mut Items<Subtree<Typed>>,
) -> Result<(), Fail>
    ensures { KeepsIn (bind (cast_all (of.now ∷ []) (x ∷ [])) (λ ys. Ok (casts.old ++ ys))) result casts.new }
{
    let cast = cast_to(alloc, of, x)?;
    match casts.push(cast) {
        Ok(()) => Ok(()),
        Err(_) => Err(Fail::NoMemory),
    }
}

/// Parts that are all cast to one type, behind what is there.
pub(crate) fn cast_each(
    alloc: Global,
    to: &Ty,
    mut given: Vec<Part>,
    before: Items<Subtree<Typed>>,
) -> Result<Items<Subtree<Typed>>, Fail>
    ensures { Keeps (bind (spec.cast_each to.now given.items) (λ ys. Ok (before ++ ys))) result }
{
    let mut casts = before;
    given.reverse();
    while let Some(x) = given.pop() {
        cast_behind(alloc, to, x, &mut casts)?;
    }
    Ok(casts)
}

/// What has to be a boolean.
///
/// BadCast (9): it is none.
pub(crate) fn cast_to_boolean(alloc: Global, x: Part) -> Result<Subtree<Typed>, Fail>
    ensures { Keeps (spec.cast_to nodes.boolean x) result }
{
    cast_to(alloc, &boolean(), x)
}

/// A cast that is written.
///
/// BadCast (9): there is none.
pub fn asked(alloc: Global, at: u32, to: &Ty, x: Part) -> Result<Part, Fail>
    ensures { Keeps (spec.asked at to.now x) result }
{
    let typed = cast_at(alloc, at, to, x, true)?;
    Ok(plain(at, typed))
}
