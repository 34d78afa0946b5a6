//! What is written to that is no variable. A plain assignment writes; one with an operator, `++` and `--` read too, and then the cast of
//! an index stands at them.

ghost use Rattle.std.specs.Prelude.{◌≡◌, ◌<◌, [], ◌∷◌, IfOk, IfSome, Ok, length};
ghost use Rattle.allowlist.specs.declared.member.MemberKind.TheVariants as kind;
ghost use Rattle.typing_rules.specs.Outcomes.{Keeps, bind};
ghost use Rattle.typing_rules.specs.Rules.Accesses as get;
ghost use Rattle.typing_rules.specs.Rules.Locations as spec;
ghost use Rattle.typing_rules.specs.Rules.Members as members;

use crate::part::{Location, Part, Place};
use crate::refuse::refuse;
use crate::rules::accesses::{
    boxed_position, get_of, is_length, is_list, is_map, key, number_at, position, text_part,
};
use crate::rules::lookups::{getter, member_at, setter, wanted};
use crate::rules::members::{meant, member};
use crate::rules::nodes::{one_part, two_parts};
use crate::rules::places::copy;
use allowlist::{Allow, MemberKind};
use pl_types::{Fail, Ty, rules};
use plain_data::{Items, Subtree, Text};
use std::alloc::{AllocError, Global};
use typed_tree::{Operation, Operator, Target, Typed};

/// What reads, where something is read.
fn reading_if(by: Option<u32>, read: Operation) -> Option<Operation>
    ensures { result ≡ spec.reading_if by read }
{
    match by {
        None => None,
        Some(_) => Some(read),
    }
}

/// What one operation reads and another writes, of one type.
fn held(
    alloc: Global,
    by: Option<u32>,
    read: Operation,
    write: Operation,
    parts: Items<Subtree<Typed>>,
    of: Ty,
) -> Result<Place, Fail>
    ensures { Keeps (Ok (spec.held by read write parts of of)) result }
{
    let gives = of.share(alloc)?;
    let read = reading_if(by, read);
    Ok(Place::Written(Location {
        target: Target::Place { read, write },
        parts,
        gives,
        takes: of,
    }))
}

fn instance_if(
    alloc: Global,
    allow: &Allow,
    number: Option<u32>,
) -> Result<Option<Operation>, AllocError>
    requires { IfSome number (λ number. number < length allow.now.members) }
    ensures { IfOk result (λ read. read ≡ spec.instance_if allow.now number) }
{
    match number {
        None => Ok(None),
        Some(number) => {
            let member = member(alloc, allow, number)?;
            Ok(Some(Operation::Instance(member)))
        }
    }
}

/// The type of what is read; where nothing is, that of what is written.
fn given_by(alloc: Global, allow: &Allow, number: Option<u32>, takes: &Ty) -> Result<Ty, AllocError>
    requires { IfSome number (λ number. number < length allow.now.members) }
    ensures { IfOk result (λ of. of ≡ spec.given_by allow.now number takes.now) }
{
    match number {
        None => takes.share(alloc),
        Some(number) => member_at(allow, number).result.share(alloc),
    }
}

/// What a member reads, if one does, and another writes.
fn held_by(
    alloc: Global,
    allow: &Allow,
    read: Option<u32>,
    write: u32,
    parts: Items<Subtree<Typed>>,
    takes: Ty,
) -> Result<Place, Fail>
    requires read { IfSome read (λ number. number < length allow.now.members) }
    requires write { write < length allow.now.members }
    ensures { Keeps (Ok (spec.held_by allow.now read write parts takes)) result }
{
    let gives = given_by(alloc, allow, read, &takes)?;
    let read = instance_if(alloc, allow, read)?;
    let write = Operation::Instance(member(alloc, allow, write)?);
    Ok(Place::Written(Location {
        target: Target::Place { read, write },
        parts,
        gives,
        takes,
    }))
}

// ---- elements in brackets

fn in_array(alloc: Global, by: Option<u32>, of: Ty, x: Part, i: Part) -> Result<Place, Fail>
    ensures { Keeps (spec.in_array by of x i) result }
{
    let y = position(alloc, by, i)?;
    let parts = two_parts(alloc, x.into_typed(), y)?;
    let read = Operation::Operator(Operator::Element);
    let write = Operation::Operator(Operator::PutElement);
    held(alloc, by, read, write, parts, of)
}

/// The member that reads an element, where something is read.
fn get_if(
    alloc: Global,
    allow: &Allow,
    by: Option<u32>,
    at: u32,
    class: u32,
) -> Result<Option<u32>, Fail>
    ensures rule { Keeps (spec.read_if by (get.get_of allow.now at class)) result }
    ensures within { IfOk result (λ read. IfSome read (λ number. number < length allow.now.members)) }
{
    match by {
        None => Ok(None),
        Some(_) => {
            let number = get_of(alloc, allow, at, class)?;
            Ok(Some(number))
        }
    }
}

/// The member that writes an element of a list.
fn set_of(alloc: Global, allow: &Allow, at: u32, class: u32) -> Result<u32, Fail>
    ensures rule { Keeps (spec.set_of allow.now at class) result }
    ensures within { IfOk result (λ number. number < length allow.now.members) }
{
    let name = Text::new(alloc, "set")?;
    meant(allow, MemberKind::Instance, at, class, &name, 2)
}

/// The member that writes under a key of a map.
fn put_of(alloc: Global, allow: &Allow, at: u32, class: u32) -> Result<u32, Fail>
    ensures rule { Keeps (spec.put_of allow.now at class) result }
    ensures within { IfOk result (λ number. number < length allow.now.members) }
{
    let name = Text::new(alloc, "put")?;
    meant(allow, MemberKind::Instance, at, class, &name, 2)
}

/// What is found when the script runs, of two parts.
fn held_dynamic(alloc: Global, by: Option<u32>, x: Part, y: Subtree<Typed>) -> Result<Place, Fail>
    ensures { Keeps (Ok (spec.held by Operation.DefIndex Operation.PutDefIndex (x.typed ∷ y ∷ []) Ty.Def Ty.Def)) result }
{
    let parts = two_parts(alloc, x.into_typed(), y)?;
    let read = Operation::DefIndex;
    let write = Operation::PutDefIndex;
    held(alloc, by, read, write, parts, Ty::Def)
}

fn in_list(
    alloc: Global,
    allow: &Allow,
    by: Option<u32>,
    at: u32,
    class: u32,
    x: Part,
    i: Part,
) -> Result<Place, Fail>
    ensures { Keeps (spec.in_list allow.now by at class x i) result }
{
    let _read = get_if(alloc, allow, by, at, class)?;
    let _write = set_of(alloc, allow, at, class)?;
    let y = boxed_position(alloc, by, i)?;
    held_dynamic(alloc, by, x, y)
}

fn in_map(
    alloc: Global,
    allow: &Allow,
    by: Option<u32>,
    at: u32,
    class: u32,
    x: Part,
    i: Part,
) -> Result<Place, Fail>
    ensures { Keeps (spec.in_map allow.now by at class x i) result }
{
    let read = get_if(alloc, allow, by, at, class)?;
    let write = put_of(alloc, allow, at, class)?;
    let y = key(alloc, by, i)?;
    let parts = two_parts(alloc, x.into_typed(), y)?;
    held_by(alloc, allow, read, write, parts, Ty::Def)
}

fn in_def(alloc: Global, by: Option<u32>, x: Part, i: Part) -> Result<Place, Fail>
    ensures { Keeps (spec.in_def by x i) result }
{
    let y = key(alloc, by, i)?;
    held_dynamic(alloc, by, x, y)
}

fn in_class(
    alloc: Global,
    allow: &Allow,
    class: u32,
    by: Option<u32>,
    at: u32,
    x: Part,
    i: Part,
) -> Result<Place, Fail>
    ensures { Keeps (spec.in_class allow.now class by at x i) result }
{
    if is_map(class) {
        in_map(alloc, allow, by, at, class, x, i)
    } else if is_list(class) {
        in_list(alloc, allow, by, at, class, x, i)
    } else {
        Err(refuse(rules::UNKNOWN_MEMBER, at))
    }
}

/// An element in brackets as what is written to, at the `[`, and read too where an assignment with an operator stands at a place.
///
/// UnknownMember (7): the value's type has no elements, or the list lacks a member that writes or reads them. BadCast (9): an index of
/// another type.
pub fn index_location(
    alloc: Global,
    allow: &Allow,
    by: Option<u32>,
    at: u32,
    x: Part,
    i: Part,
) -> Result<Place, Fail>
    ensures { Keeps (spec.index_location allow.now by at x i) result }
{
    match x.of() {
        Ty::Array(element) => {
            let of = element.get().share(alloc)?;
            in_array(alloc, by, of, x, i)
        }
        Ty::Class(class) => {
            let class = *class;
            in_class(alloc, allow, class, by, at, x, i)
        }
        Ty::Def => in_def(alloc, by, x, i),
        _ => Err(refuse(rules::UNKNOWN_MEMBER, at)),
    }
}

// ---- names

/// What a member takes first.
fn taken_by(alloc: Global, allow: &Allow, number: u32) -> Result<Ty, AllocError>
    requires { number < length allow.now.members }
    ensures { IfOk result (λ of. of ≡ spec.taken_by allow.now number) }
{
    match member_at(allow, number).params.as_slice() {
        [] => Ok(Ty::Def),
        [of, ..] => of.share(alloc),
    }
}

/// The getter of a name, where something is read.
fn getter_if(
    allow: &Allow,
    by: Option<u32>,
    at: u32,
    name: &Text,
    class: u32,
) -> Result<Option<u32>, Fail>
    ensures rule { Keeps (spec.read_if by (members.wanted allow.now kind.Instance at (members.getter allow.now class name.now))) result }
    ensures within { IfOk result (λ read. IfSome read (λ number. number < length allow.now.members)) }
{
    match by {
        None => Ok(None),
        Some(_) => {
            let found = getter(allow, class, name.as_str());
            let number = wanted(allow, MemberKind::Instance, at, found)?;
            Ok(Some(number))
        }
    }
}

fn by_accessors(
    alloc: Global,
    allow: &Allow,
    by: Option<u32>,
    at: u32,
    name: &Text,
    class: u32,
    x: Part,
) -> Result<Place, Fail>
    ensures { Keeps (spec.by_accessors allow.now by at name.now class x) result }
{
    let read = getter_if(allow, by, at, name, class)?;
    let found = setter(allow, class, name.as_str());
    let write = wanted(allow, MemberKind::Instance, at, found)?;
    let parts = one_part(alloc, x.into_typed())?;
    let takes = taken_by(alloc, allow, write)?;
    held_by(alloc, allow, read, write, parts, takes)
}

fn name_in_class(
    alloc: Global,
    allow: &Allow,
    class: u32,
    by: Option<u32>,
    at: u32,
    name: &Text,
    x: Part,
) -> Result<Place, Fail>
    ensures { Keeps (spec.name_in_class allow.now class by at name.now x) result }
{
    if is_map(class) {
        let i = text_part(alloc, at, name)?;
        in_map(alloc, allow, by, at, class, x, i)
    } else {
        by_accessors(alloc, allow, by, at, name, class, x)
    }
}

fn name_in_array(at: u32, name: &Text) -> Result<Place, Fail>
    ensures { Keeps (spec.name_in_array at name.now) result }
{
    if is_length(name) {
        Ok(Place::Fixed)
    } else {
        Err(refuse(rules::UNKNOWN_MEMBER, at))
    }
}

fn name_in_def(alloc: Global, by: Option<u32>, name: &Text, x: Part) -> Result<Place, Fail>
    ensures { Keeps (Ok (spec.name_in_def by name.now x)) result }
{
    let read = Operation::DefName(copy(alloc, name)?);
    let write = Operation::PutDefName(copy(alloc, name)?);
    let parts = one_part(alloc, x.into_typed())?;
    held(alloc, by, read, write, parts, Ty::Def)
}

/// A name of a value as what is written to, at its `.`, and read too where an assignment with an operator stands at a place.
///
/// UnknownMember (7): the value's type has no such name, or the list lacks a member that writes or reads it. OutOfProfile (19): such a
/// member is not built.
pub fn name_location(
    alloc: Global,
    allow: &Allow,
    by: Option<u32>,
    at: u32,
    name: &Text,
    x: Part,
) -> Result<Place, Fail>
    ensures { Keeps (spec.name_location allow.now by at name.now x) result }
{
    match x.of() {
        Ty::Class(class) => {
            let class = *class;
            name_in_class(alloc, allow, class, by, at, name, x)
        }
        Ty::Array(_) => name_in_array(at, name),
        Ty::Def => name_in_def(alloc, by, name, x),
        _ => Err(refuse(rules::UNKNOWN_MEMBER, at)),
    }
}

// ---- numbers behind a dot

fn number_in_list(
    alloc: Global,
    allow: &Allow,
    by: Option<u32>,
    at: u32,
    class: u32,
    x: Part,
    i: Part,
) -> Result<Place, Fail>
    ensures { Keeps (spec.number_in_list allow.now by at class x i) result }
{
    let read = get_if(alloc, allow, by, at, class)?;
    let write = set_of(alloc, allow, at, class)?;
    let y = position(alloc, by, i)?;
    let parts = two_parts(alloc, x.into_typed(), y)?;
    held_by(alloc, allow, read, write, parts, Ty::Def)
}

fn number_in_lists(
    alloc: Global,
    allow: &Allow,
    by: Option<u32>,
    at: u32,
    class: u32,
    digits: &Text,
    x: Part,
) -> Result<Place, Fail>
    ensures { Keeps (bind (get.number_at at digits.now) (λ i. spec.number_in_list allow.now by at class x i)) result }
{
    let i = number_at(alloc, at, digits)?;
    number_in_list(alloc, allow, by, at, class, x, i)
}

fn number_in_class(
    alloc: Global,
    allow: &Allow,
    class: u32,
    by: Option<u32>,
    at: u32,
    digits: &Text,
    x: Part,
) -> Result<Place, Fail>
    ensures { Keeps (spec.number_in_class allow.now class by at digits.now x) result }
{
    if is_map(class) {
        let i = text_part(alloc, at, digits)?;
        in_map(alloc, allow, by, at, class, x, i)
    } else if is_list(class) {
        number_in_lists(alloc, allow, by, at, class, digits, x)
    } else {
        Err(refuse(rules::UNKNOWN_MEMBER, at))
    }
}

/// An element by its number as what is written to, at that, and read too where an assignment with an operator stands at a place.
///
/// UnknownMember (7): the value's type has no such element, or the list lacks a member that writes or reads it. LiteralRange (18): the
/// number is no int, and the value a list.
pub fn number_location(
    alloc: Global,
    allow: &Allow,
    by: Option<u32>,
    at: u32,
    digits: &Text,
    x: Part,
) -> Result<Place, Fail>
    ensures { Keeps (spec.number_location allow.now by at digits.now x) result }
{
    match x.of() {
        Ty::Class(class) => {
            let class = *class;
            number_in_class(alloc, allow, class, by, at, digits, x)
        }
        Ty::Def => name_in_def(alloc, by, digits, x),
        _ => Err(refuse(rules::UNKNOWN_MEMBER, at)),
    }
}
