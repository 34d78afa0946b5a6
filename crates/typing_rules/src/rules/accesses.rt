//! What is read of a value: an element in brackets, a name behind a dot, and an element by its number.

ghost use Rattle.std.specs.Prelude.{◌≡◌, ◌<◌, [], ◌∷◌, IfOk, Ok, length};
ghost use Rattle.typing_rules.specs.Outcomes.{Keeps, bind};
ghost use Rattle.typing_rules.specs.Rules.Accesses as spec;

use crate::digits::magnitude;
use crate::part::{Form, Part};
use crate::refuse::refuse;
use crate::rules::casts::cast_at;
use crate::rules::literals::{INTS, int_literal};
use crate::rules::members::{accessed, guards, instance_call, meant, plainly, read_named};
use crate::rules::nodes::{one_part, part, two_parts, typed};
use crate::rules::places::copy;
use allowlist::{Allow, MemberKind};
use pl_tree::Access;
use pl_types::{Cast, Fail, Primitive, Ty, class_below, classes, rules};
use plain_data::{Subtree, Text};
use std::alloc::{AllocError, Global};
use typed_tree::{Node, Operation, Operator, Typed};

pub(crate) fn is_list(class: u32) -> bool
    ensures { result ≡ spec.is_list class }
{
    class_below(class, classes::LIST)
}

/// Whether a class is one of maps, whose names are keys.
pub(crate) fn is_map(class: u32) -> bool
    ensures { result ≡ spec.is_map class }
{
    classes::MAP <= class && class <= classes::LINKED_HASH_MAP
}

// ---- indexes

/// Where the cast of an index stands: where the index does, or at the assignment that reads and writes.
fn stands(by: Option<u32>, i: &Part) -> u32
    ensures { result ≡ spec.stands by i.now }
{
    match by {
        None => i.at,
        Some(at) => at,
    }
}

/// An index, as a value of a type.
fn index_as(alloc: Global, to: &Ty, by: Option<u32>, i: Part) -> Result<Subtree<Typed>, Fail>
    ensures { Keeps (spec.index_as to.now by i) result }
{
    let at = stands(by, &i);
    cast_at(alloc, at, to, i, false)
}

/// A position in an array.
pub(crate) fn position(alloc: Global, by: Option<u32>, i: Part) -> Result<Subtree<Typed>, Fail>
    ensures { Keeps (spec.position by i) result }
{
    let of = Ty::Prim(Primitive::Int);
    index_as(alloc, &of, by, i)
}

fn boxed(alloc: Global, at: u32, y: Subtree<Typed>) -> Result<Subtree<Typed>, Fail>
    ensures { Keeps (Ok (spec.boxed at y)) result }
{
    let parts = one_part(alloc, y)?;
    let operation = Operation::Cast(Cast::Wrap(Primitive::Int, Primitive::Int));
    let of = Ty::Class(classes::INTEGER);
    typed(alloc, at, of, Node::Apply { operation, parts })
}

/// A position in a list, in its box.
pub(crate) fn boxed_position(
    alloc: Global,
    by: Option<u32>,
    i: Part,
) -> Result<Subtree<Typed>, Fail>
    ensures { Keeps (spec.boxed_position by i) result }
{
    let at = stands(by, &i);
    let y = position(alloc, by, i)?;
    boxed(alloc, at, y)
}

/// A key of a map, or an index of a def.
pub(crate) fn key(alloc: Global, by: Option<u32>, i: Part) -> Result<Subtree<Typed>, Fail>
    ensures { Keeps (spec.key by i) result }
{
    index_as(alloc, &Ty::Def, by, i)
}

/// The member that reads an element of a list or a map.
pub(crate) fn get_of(alloc: Global, allow: &Allow, at: u32, class: u32) -> Result<u32, Fail>
    ensures rule { Keeps (spec.get_of allow.now at class) result }
    ensures within { IfOk result (λ number. number < length allow.now.members) }
{
    let name = Text::new(alloc, "get")?;
    meant(allow, MemberKind::Instance, at, class, &name, 1)
}

/// What is given to a member that reads.
fn alone(alloc: Global, i: Part) -> Result<Vec<Part>, AllocError>
    ensures { IfOk result (λ given. given.items ≡ i ∷ []) }
{
    let mut given = Vec::new(alloc);
    given.push(i)?;
    Ok(given)
}

/// `get` of a list or a map.
fn got(
    alloc: Global,
    allow: &Allow,
    access: Access,
    at: u32,
    class: u32,
    x: Part,
    i: Part,
) -> Result<Part, Fail>
    ensures { Keeps (spec.got allow.now access at class x i) result }
{
    let number = get_of(alloc, allow, at, class)?;
    let given = alone(alloc, i)?;
    let y = instance_call(alloc, allow, access, at, number, x, given)?;
    Ok(plainly(y))
}

fn element_node(
    alloc: Global,
    at: u32,
    of: Ty,
    operation: Operation,
    x: Part,
    y: Subtree<Typed>,
) -> Result<Part, Fail>
    ensures { Keeps (Ok (spec.element_node at of operation x y)) result }
{
    let parts = two_parts(alloc, x.into_typed(), y)?;
    part(alloc, at, Form::Other, of, Node::Apply { operation, parts })
}

fn element_of_array(alloc: Global, at: u32, of: Ty, x: Part, i: Part) -> Result<Part, Fail>
    ensures { Keeps (spec.element_of_array at of x i) result }
{
    let y = position(alloc, None, i)?;
    let operation = Operation::Operator(Operator::Element);
    element_node(alloc, at, of, operation, x, y)
}

fn element_of_list(
    alloc: Global,
    allow: &Allow,
    at: u32,
    class: u32,
    x: Part,
    i: Part,
) -> Result<Part, Fail>
    ensures { Keeps (spec.element_of_list allow.now at class x i) result }
{
    let _number = get_of(alloc, allow, at, class)?;
    let y = boxed_position(alloc, None, i)?;
    element_node(alloc, at, Ty::Def, Operation::DefIndex, x, y)
}

fn element_of_def(alloc: Global, at: u32, x: Part, i: Part) -> Result<Part, Fail>
    ensures { Keeps (spec.element_of_def at x i) result }
{
    let y = key(alloc, None, i)?;
    element_node(alloc, at, Ty::Def, Operation::DefIndex, x, y)
}

fn indexed_class(
    alloc: Global,
    allow: &Allow,
    class: u32,
    at: u32,
    x: Part,
    i: Part,
) -> Result<Part, Fail>
    ensures { Keeps (spec.indexed_class allow.now class at x i) result }
{
    if is_map(class) {
        got(alloc, allow, Access::Plain, at, class, x, i)
    } else if is_list(class) {
        element_of_list(alloc, allow, at, class, x, i)
    } else {
        Err(refuse(rules::UNKNOWN_MEMBER, at))
    }
}

/// An element in brackets, at the `[`.
///
/// UnknownMember (7): the value's type has no elements, or the list lacks the member that reads them. BadCast (9): an index of another
/// type.
pub fn index_of(alloc: Global, allow: &Allow, at: u32, x: Part, i: Part) -> Result<Part, Fail>
    ensures { Keeps (spec.index_of allow.now at x i) result }
{
    match x.of() {
        Ty::Array(element) => {
            let of = element.get().share(alloc)?;
            element_of_array(alloc, at, of, x, i)
        }
        Ty::Class(class) => {
            let class = *class;
            indexed_class(alloc, allow, class, at, x, i)
        }
        Ty::Def => element_of_def(alloc, at, x, i),
        _ => Err(refuse(rules::UNKNOWN_MEMBER, at)),
    }
}

// ---- names

/// A name, as a key of a map.
pub(crate) fn text_part(alloc: Global, at: u32, name: &Text) -> Result<Part, Fail>
    ensures { Keeps (Ok (spec.text_part at name.now)) result }
{
    let name = copy(alloc, name)?;
    let of = Ty::Class(classes::STRING);
    part(alloc, at, Form::Literal, of, Node::Text(name))
}

fn def_name(alloc: Global, access: Access, at: u32, name: &Text, x: Part) -> Result<Part, Fail>
    ensures { Keeps (Ok (spec.def_name access at name.now x)) result }
{
    let name = copy(alloc, name)?;
    let parts = one_part(alloc, x.into_typed())?;
    let node = accessed(access, Operation::DefName(name), parts);
    part(alloc, at, Form::Other, Ty::Def, node)
}

fn length_of(alloc: Global, access: Access, at: u32, x: Part) -> Result<Part, Fail>
    ensures { Keeps (spec.length_of access at x) result }
{
    if guards(access) {
        return Err(refuse(rules::BAD_NULLABLE, at));
    }
    let parts = one_part(alloc, x.into_typed())?;
    let of = Ty::Prim(Primitive::Int);
    let operation = Operation::Operator(Operator::Length);
    part(alloc, at, Form::Other, of, Node::Apply { operation, parts })
}

pub(crate) fn is_length(name: &Text) -> bool
    ensures { result ≡ spec.is_length name.now }
{
    name.as_str() == "length"
}

fn named_array(alloc: Global, access: Access, at: u32, name: &Text, x: Part) -> Result<Part, Fail>
    ensures { Keeps (spec.named_array access at name.now x) result }
{
    if is_length(name) {
        length_of(alloc, access, at, x)
    } else {
        Err(refuse(rules::UNKNOWN_MEMBER, at))
    }
}

fn named_class(
    alloc: Global,
    allow: &Allow,
    class: u32,
    access: Access,
    at: u32,
    name: &Text,
    x: Part,
) -> Result<Part, Fail>
    ensures { Keeps (spec.named_class allow.now class access at name.now x) result }
{
    if is_map(class) {
        let i = text_part(alloc, at, name)?;
        got(alloc, allow, access, at, class, x, i)
    } else {
        read_named(alloc, allow, access, at, name, class, x)
    }
}

/// What a name of a value means, at its `.` or `?.`: the length of an array, a key of a map, or else its getter.
///
/// UnknownMember (7): the value's type has no such name, or the list lacks the member that reads it. BadNullable (17): `?.` before what
/// gives a primitive. OutOfProfile (19): the getter is not built.
pub fn read_of(
    alloc: Global,
    allow: &Allow,
    access: Access,
    at: u32,
    name: &Text,
    x: Part,
) -> Result<Part, Fail>
    ensures { Keeps (spec.read_of allow.now access at name.now x) result }
{
    match x.of() {
        Ty::Class(class) => {
            let class = *class;
            named_class(alloc, allow, class, access, at, name, x)
        }
        Ty::Array(_) => named_array(alloc, access, at, name, x),
        Ty::Def => def_name(alloc, access, at, name, x),
        _ => Err(refuse(rules::UNKNOWN_MEMBER, at)),
    }
}

// ---- numbers behind a dot

/// The number, which is an int.
pub(crate) fn number_at(alloc: Global, at: u32, digits: &Text) -> Result<Part, Fail>
    ensures { Keeps (spec.number_at at digits.now) result }
{
    match magnitude(digits.as_str().as_bytes()) {
        Some(value) if value < INTS => int_literal(alloc, at, value as i32),
        _ => Err(refuse(rules::LITERAL_RANGE, at)),
    }
}

fn numbered_list(
    alloc: Global,
    allow: &Allow,
    class: u32,
    access: Access,
    at: u32,
    digits: &Text,
    x: Part,
) -> Result<Part, Fail>
    ensures { Keeps (bind (spec.number_at at digits.now) (λ i. spec.got allow.now access at class x i)) result }
{
    let i = number_at(alloc, at, digits)?;
    got(alloc, allow, access, at, class, x, i)
}

fn numbered_class(
    alloc: Global,
    allow: &Allow,
    class: u32,
    access: Access,
    at: u32,
    digits: &Text,
    x: Part,
) -> Result<Part, Fail>
    ensures { Keeps (spec.numbered_class allow.now class access at digits.now x) result }
{
    if is_map(class) {
        let i = text_part(alloc, at, digits)?;
        got(alloc, allow, access, at, class, x, i)
    } else if is_list(class) {
        numbered_list(alloc, allow, class, access, at, digits, x)
    } else {
        Err(refuse(rules::UNKNOWN_MEMBER, at))
    }
}

/// An element by its number, at that.
///
/// UnknownMember (7): the value's type has no such element, or the list lacks the member that reads it. LiteralRange (18): the number is
/// no int, and the value a list.
pub fn numbered_of(
    alloc: Global,
    allow: &Allow,
    access: Access,
    at: u32,
    digits: &Text,
    x: Part,
) -> Result<Part, Fail>
    ensures { Keeps (spec.numbered_of allow.now access at digits.now x) result }
{
    match x.of() {
        Ty::Class(class) => {
            let class = *class;
            numbered_class(alloc, allow, class, access, at, digits, x)
        }
        Ty::Def => def_name(alloc, access, at, digits, x),
        _ => Err(refuse(rules::UNKNOWN_MEMBER, at)),
    }
}
