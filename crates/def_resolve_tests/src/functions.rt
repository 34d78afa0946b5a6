//! Rows of references, and of the interfaces that function values take.
use crate::members::owner;
use crate::sample::{Listed, allow, function, heap};
use allowlist::Allow;
use def_resolve::{Reference, constructor_of, fits, reference_of};
use object_values::{Object, Owner, Target};
use pl_types::classes::{
    ARRAY_LIST, BI_FUNCTION, BINARY_OPERATOR, CHAR_SEQUENCE, COMPARATOR, CONSUMER, FUNCTION,
    INTEGER, LINKED_HASH_MAP, LIST, MATH, OBJ_INT_CONSUMER, PREDICATE, STRING, SUPPLIER,
    TO_LONG_FUNCTION, UNARY_OPERATOR,
};
use pl_types::{Primitive, Ty};
use plain_data::{Boxed, Text};
use std::alloc::{AllocError, Global};
use std::test::Fail;

/// What a reference means, by the class that has the member.
#[derive(Clone, Copy)]
enum Means {
    Nothing,
    Static(u32),
    Instance(u32),
}

const REFERENCES: [(Listed, u32, &str, u32, Means); 15] = [
    (Listed::All, INTEGER, "parseInt", 1, Means::Static(INTEGER)),
    (Listed::All, INTEGER, "parseInt", 0, Means::Nothing),
    (Listed::All, INTEGER, "parseInt", 2, Means::Nothing),
    (Listed::All, INTEGER, "toString", 1, Means::Static(INTEGER)),
    (Listed::All, INTEGER, "intValue", 1, Means::Instance(3)),
    (Listed::All, INTEGER, "intValue", 0, Means::Nothing),
    (Listed::All, INTEGER, "compare", 2, Means::Static(INTEGER)),
    (Listed::All, INTEGER, "compareTo", 2, Means::Instance(1)),
    (
        Listed::All,
        STRING,
        "length",
        1,
        Means::Instance(CHAR_SEQUENCE),
    ),
    (Listed::All, LIST, "get", 2, Means::Instance(LIST)),
    (Listed::All, FUNCTION, "apply", 2, Means::Instance(FUNCTION)),
    (Listed::All, INTEGER, "MAX_VALUE", 0, Means::Nothing),
    (Listed::All, INTEGER, "MAX_VALUE", 1, Means::Nothing),
    (Listed::GetAlone, LIST, "get", 2, Means::Instance(LIST)),
    (Listed::GetAlone, STRING, "length", 1, Means::Nothing),
];

fn is_meant(allow: &Allow, found: Option<Reference>, wanted: Means) -> bool {
    match (found, wanted) {
        (None, Means::Nothing) => true,
        (Some(Reference::Static(number)), Means::Static(class)) => {
            owner(allow, number) == Some(class)
        }
        (Some(Reference::Instance(number)), Means::Instance(class)) => {
            owner(allow, number) == Some(class)
        }
        _ => false,
    }
}

fn reference_means(
    alloc: Global,
    row: (Listed, u32, &str, u32, Means),
) -> Result<bool, AllocError> {
    let (listed, class, name, arity, wanted) = row;
    let allow = allow(alloc, listed)?;
    Ok(is_meant(&allow, reference_of(&allow, class, name, arity), wanted))
}

#[test]
fn references_mean_members(rt: HostRuntime) -> Result<(), Fail> {
    let mut at = 0u32;
    for row in &REFERENCES {
        let holds = reference_means(rt.alloc(), *row)?;
        assert!(rt; holds, "{at}");
        at = at.wrapping_add(1);
    }
    Ok(())
}

const MADE: [(Listed, u32, u32, bool); 9] = [
    (Listed::All, ARRAY_LIST, 0, true),
    (Listed::All, ARRAY_LIST, 1, true),
    (Listed::All, ARRAY_LIST, 2, false),
    (Listed::All, LIST, 0, false),
    // a parent's constructor is none
    (Listed::EmptyLists, ARRAY_LIST, 0, true),
    (Listed::EmptyLists, ARRAY_LIST, 1, false),
    (Listed::EmptyLists, LIST, 0, false),
    (Listed::All, LINKED_HASH_MAP, 0, true),
    (Listed::All, MATH, 0, false),
];

fn is_made(alloc: Global, row: (Listed, u32, u32, bool)) -> Result<bool, AllocError> {
    let (listed, class, arity, wanted) = row;
    let allow = allow(alloc, listed)?;
    Ok(constructor_of(&allow, class, arity).is_some() == wanted)
}

#[test]
fn classes_have_constructors(rt: HostRuntime) -> Result<(), Fail> {
    let mut at = 0u32;
    for row in &MADE {
        let holds = is_made(rt.alloc(), *row)?;
        assert!(rt; holds, "{at}");
        at = at.wrapping_add(1);
    }
    Ok(())
}

/// What a function value calls.
#[derive(Clone, Copy)]
pub enum Calls {
    /// A lambda that captured so many values and has so many parameters.
    Lambda(u32, u32),
    Member(u32, &'static str),
    New(u32),
    /// An array of ints.
    NewArray,
    /// An int, which has no constructor.
    NewInt,
    NewDef,
    Gone,
}

const FITS: [(Calls, u32, bool); 36] = [
    (Calls::Lambda(0, 1), FUNCTION, true),
    (Calls::Lambda(0, 1), UNARY_OPERATOR, true),
    (Calls::Lambda(0, 1), PREDICATE, true),
    (Calls::Lambda(0, 1), TO_LONG_FUNCTION, true),
    (Calls::Lambda(0, 1), BI_FUNCTION, false),
    (Calls::Lambda(0, 1), SUPPLIER, false),
    (Calls::Lambda(0, 0), SUPPLIER, true),
    (Calls::Lambda(0, 2), COMPARATOR, true),
    (Calls::Lambda(0, 2), OBJ_INT_CONSUMER, true),
    (Calls::Lambda(0, 2), CONSUMER, false),
    // what it captured comes first
    (Calls::Lambda(1, 2), FUNCTION, true),
    (Calls::Lambda(2, 2), SUPPLIER, true),
    (Calls::Lambda(2, 2), COMPARATOR, false),
    (Calls::Lambda(2, 4), BINARY_OPERATOR, true),
    (Calls::Lambda(2, 1), FUNCTION, false),
    (Calls::Lambda(1, 0), SUPPLIER, false),
    (Calls::Lambda(0, 4_294_967_295), FUNCTION, false),
    (Calls::Member(INTEGER, "parseInt"), FUNCTION, true),
    (Calls::Member(INTEGER, "parseInt"), SUPPLIER, false),
    (Calls::Member(STRING, "length"), FUNCTION, true),
    (Calls::Member(STRING, "length"), SUPPLIER, false),
    (Calls::Member(STRING, "nope"), FUNCTION, false),
    (Calls::Member(INTEGER, "compare"), COMPARATOR, true),
    (Calls::New(ARRAY_LIST), SUPPLIER, true),
    (Calls::New(ARRAY_LIST), FUNCTION, true),
    (Calls::New(ARRAY_LIST), BI_FUNCTION, false),
    (Calls::New(LIST), SUPPLIER, false),
    (Calls::NewArray, FUNCTION, true),
    (Calls::NewArray, SUPPLIER, false),
    (Calls::NewArray, BI_FUNCTION, false),
    (Calls::NewInt, FUNCTION, false),
    (Calls::NewDef, SUPPLIER, false),
    (Calls::Gone, SUPPLIER, true),
    (Calls::Gone, COMPARATOR, true),
    // no functional interface
    (Calls::Gone, LIST, false),
    (Calls::Lambda(0, 1), 4_294_967_295, false),
];

fn made(alloc: Global, ty: Ty) -> Result<Target, AllocError> {
    Ok(Target::New(Boxed::new(alloc, ty)?))
}

/// The target of a function value.
pub fn target(alloc: Global, calls: Calls) -> Result<Target, AllocError> {
    match calls {
        Calls::Lambda(_, _) => Ok(Target::Lambda(Owner::Script, 0)),
        Calls::Member(class, name) => {
            let name = Text::new(alloc, name)?;
            Ok(Target::Member(class, Boxed::new(alloc, name)?))
        }
        Calls::New(class) => made(alloc, Ty::Class(class)),
        Calls::NewArray => {
            let elem = Boxed::new(alloc, Ty::Prim(Primitive::Int))?;
            made(alloc, Ty::Array(elem))
        }
        Calls::NewInt => made(alloc, Ty::Prim(Primitive::Int)),
        Calls::NewDef => made(alloc, Ty::Def),
        Calls::Gone => Ok(Target::Gone),
    }
}

/// How many values it captured, and how many parameters are told of it.
pub fn counts(calls: Calls) -> (u32, u32) {
    match calls {
        Calls::Lambda(captured, params) => (captured, params),
        _ => (0, 7),
    }
}

fn takes(alloc: Global, row: (Calls, u32, bool)) -> Result<bool, AllocError> {
    let (calls, iface, wanted) = row;
    let (captured, params) = counts(calls);
    let target = target(alloc, calls)?;
    let function = function(alloc, None, target, captured)?;
    let allow = allow(alloc, Listed::All)?;
    Ok(fits(&allow, &function, params, iface) == wanted)
}

#[test]
fn function_values_take_interfaces(rt: HostRuntime) -> Result<(), Fail> {
    let mut at = 0u32;
    for row in &FITS {
        let holds = takes(rt.alloc(), *row)?;
        assert!(rt; holds, "{at}");
        at = at.wrapping_add(1);
    }
    Ok(())
}

fn takes_of(alloc: Global, id: u32) -> Result<bool, AllocError> {
    let heap = heap(alloc, 100)?;
    let allow = allow(alloc, Listed::All)?;
    match heap.get(id) {
        Some(object) => Ok(fits(&allow, object, 2, FUNCTION)),
        None => Ok(false),
    }
}

#[test]
fn other_objects_take_none(rt: HostRuntime) -> Result<(), Fail> {
    for (id, wanted) in [
        (0, false),
        (10, false),
        (13, true),
        (14, true),
        (15, true),
        (16, false),
    ] {
        let found = takes_of(rt.alloc(), id)?;
        assert!(rt; found == wanted, "{id}");
    }
    Ok(())
}
