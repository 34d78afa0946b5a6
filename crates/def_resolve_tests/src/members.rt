//! Rows of classes of values, and of calls.
use crate::sample::{Listed, Row, allow, heap, value};
use allowlist::Allow;
use def_resolve::{Callee, class_of, resolution_laws, resolve};
use object_heap::Heap;
use pl_types::classes::{
    ARRAY_LIST, BOOLEAN, BYTE, CHAR_SEQUENCE, CHARACTER, COLLECTION, COLLECTIONS, COMPARABLE,
    COMPARATOR, ENTRY, FUNCTION, HASH_MAP, HASH_SET, ILLEGAL_ARGUMENT_EXCEPTION, INTEGER, ITERABLE,
    ITERATOR, LINKED_HASH_MAP, LIST, LONG, MAP, NUMBER, OBJECT, SCRIPT_DOC_VALUES, SET, SHORT,
    STRING, STRING_BUILDER, SUPPLIER, UNARY_OPERATOR,
};
use std::alloc::{AllocError, Global};
use std::test::Fail;

const CLASSES: [(Row, Option<u32>); 26] = [
    (Row::Null, None),
    (Row::Flag(true), Some(BOOLEAN)),
    (Row::Byte(1), Some(BYTE)),
    (Row::Short(1), Some(SHORT)),
    (Row::Char(65), Some(CHARACTER)),
    (Row::Int(1), Some(INTEGER)),
    (Row::Long(1), Some(LONG)),
    (Row::Word(""), Some(STRING)),
    (Row::Object(0), Some(ARRAY_LIST)),
    (Row::Object(1), Some(HASH_MAP)),
    (Row::Object(2), Some(HASH_SET)),
    (Row::Object(3), None),
    (Row::Object(4), None),
    (Row::Object(5), None),
    (Row::Object(6), Some(SCRIPT_DOC_VALUES)),
    (Row::Object(7), Some(SET)),
    (Row::Object(8), Some(COLLECTION)),
    (Row::Object(9), Some(SET)),
    (Row::Object(10), Some(ENTRY)),
    (Row::Object(11), Some(ITERATOR)),
    (Row::Object(12), Some(STRING_BUILDER)),
    (Row::Object(13), None),
    (Row::Object(14), Some(FUNCTION)),
    (Row::Object(15), Some(COMPARATOR)),
    (Row::Object(16), Some(ILLEGAL_ARGUMENT_EXCEPTION)),
    (Row::Object(17), None),
];

fn is_of(heap: &Heap, row: Row, wanted: Option<u32>) -> Result<bool, AllocError> {
    let value = value(heap.alloc(), row)?;
    Ok(class_of(heap, &value) == wanted)
}

#[test]
fn values_have_classes(rt: HostRuntime) -> Result<(), Fail> {
    resolution_laws();
    let heap = heap(rt.alloc(), 100)?;
    let mut at = 0u32;
    for (row, wanted) in &CLASSES {
        let holds = is_of(&heap, *row, *wanted)?;
        assert!(rt; holds, "{at}");
        at = at.wrapping_add(1);
    }
    Ok(())
}

/// What a call means: the method of the interface, or a member, by the class that has it.
#[derive(Clone, Copy)]
enum Found {
    Nothing,
    Member(u32),
    Method(u32),
}

const CALLS: [(Listed, u32, &str, u32, Found); 58] = [
    // overloads go by the number of arguments
    (Listed::All, ARRAY_LIST, "add", 1, Found::Member(COLLECTION)),
    (Listed::All, ARRAY_LIST, "add", 2, Found::Member(LIST)),
    (Listed::All, ARRAY_LIST, "add", 0, Found::Nothing),
    (Listed::All, ARRAY_LIST, "add", 3, Found::Nothing),
    (Listed::All, STRING, "substring", 1, Found::Member(STRING)),
    (Listed::All, STRING, "substring", 2, Found::Member(STRING)),
    (Listed::All, STRING, "substring", 3, Found::Nothing),
    (Listed::All, STRING, "indexOf", 2, Found::Member(STRING)),
    (Listed::All, STRING_BUILDER, "indexOf", 2, Found::Nothing),
    // the class's own before a parent's
    (Listed::All, ARRAY_LIST, "remove", 1, Found::Member(LIST)),
    (Listed::All, LIST, "remove", 1, Found::Member(LIST)),
    (
        Listed::All,
        COLLECTION,
        "remove",
        1,
        Found::Member(COLLECTION),
    ),
    (
        Listed::All,
        HASH_SET,
        "remove",
        1,
        Found::Member(COLLECTION),
    ),
    (Listed::All, HASH_MAP, "remove", 1, Found::Member(MAP)),
    (Listed::All, HASH_MAP, "remove", 2, Found::Member(MAP)),
    // far parents, depth first
    (Listed::All, LINKED_HASH_MAP, "get", 1, Found::Member(MAP)),
    (
        Listed::All,
        SCRIPT_DOC_VALUES,
        "getValue",
        0,
        Found::Member(SCRIPT_DOC_VALUES),
    ),
    (
        Listed::All,
        SCRIPT_DOC_VALUES,
        "get",
        1,
        Found::Member(LIST),
    ),
    (
        Listed::All,
        SCRIPT_DOC_VALUES,
        "join",
        1,
        Found::Member(ITERABLE),
    ),
    (
        Listed::All,
        SCRIPT_DOC_VALUES,
        "toString",
        0,
        Found::Member(OBJECT),
    ),
    (
        Listed::All,
        STRING,
        "length",
        0,
        Found::Member(CHAR_SEQUENCE),
    ),
    (
        Listed::All,
        STRING,
        "compareTo",
        1,
        Found::Member(COMPARABLE),
    ),
    (Listed::All, STRING, "equals", 1, Found::Member(OBJECT)),
    (Listed::All, INTEGER, "intValue", 0, Found::Member(NUMBER)),
    (
        Listed::All,
        INTEGER,
        "compareTo",
        1,
        Found::Member(COMPARABLE),
    ),
    (Listed::All, INTEGER, "toString", 0, Found::Member(OBJECT)),
    // static members, fields and constructors are none
    (Listed::All, INTEGER, "toString", 1, Found::Nothing),
    (Listed::Texts, INTEGER, "toString", 1, Found::Nothing),
    (Listed::Texts, INTEGER, "toString", 0, Found::Member(OBJECT)),
    (Listed::All, INTEGER, "compare", 2, Found::Nothing),
    (Listed::All, COLLECTIONS, "max", 1, Found::Nothing),
    (Listed::All, INTEGER, "MAX_VALUE", 0, Found::Nothing),
    (Listed::All, ARRAY_LIST, "", 0, Found::Nothing),
    (Listed::All, ARRAY_LIST, "", 1, Found::Nothing),
    // what a list leaves out
    (
        Listed::ParentAlone,
        ARRAY_LIST,
        "size",
        0,
        Found::Member(COLLECTION),
    ),
    (
        Listed::ParentAlone,
        ARRAY_LIST,
        "add",
        1,
        Found::Member(COLLECTION),
    ),
    (Listed::ParentAlone, ARRAY_LIST, "add", 2, Found::Nothing),
    (
        Listed::ParentAlone,
        HASH_SET,
        "size",
        0,
        Found::Member(COLLECTION),
    ),
    (Listed::ParentAlone, COLLECTION, "clear", 0, Found::Nothing),
    (Listed::ParentAlone, HASH_MAP, "size", 0, Found::Nothing),
    (Listed::GetAlone, ARRAY_LIST, "get", 1, Found::Member(LIST)),
    (Listed::GetAlone, HASH_MAP, "get", 1, Found::Nothing),
    (Listed::GetAlone, ARRAY_LIST, "size", 0, Found::Nothing),
    (Listed::GetAlone, ARRAY_LIST, "toString", 0, Found::Nothing),
    (Listed::Nothing, STRING, "length", 0, Found::Nothing),
    // function values answer the method of their interface
    (Listed::All, FUNCTION, "apply", 1, Found::Method(FUNCTION)),
    (Listed::All, FUNCTION, "apply", 2, Found::Nothing),
    (Listed::All, FUNCTION, "accept", 1, Found::Nothing),
    (
        Listed::All,
        UNARY_OPERATOR,
        "apply",
        1,
        Found::Method(FUNCTION),
    ),
    (
        Listed::Nothing,
        UNARY_OPERATOR,
        "apply",
        1,
        Found::Method(FUNCTION),
    ),
    (Listed::All, SUPPLIER, "get", 0, Found::Method(SUPPLIER)),
    (
        Listed::All,
        COMPARATOR,
        "compare",
        2,
        Found::Method(COMPARATOR),
    ),
    (
        Listed::All,
        COMPARATOR,
        "reversed",
        0,
        Found::Member(COMPARATOR),
    ),
    (Listed::All, COMPARATOR, "naturalOrder", 0, Found::Nothing),
    (Listed::Nothing, COMPARATOR, "reversed", 0, Found::Nothing),
    (Listed::All, FUNCTION, "toString", 0, Found::Member(OBJECT)),
    // numbers that are no class's
    (Listed::All, 57, "toString", 0, Found::Nothing),
    (Listed::All, 4_294_967_295, "toString", 0, Found::Nothing),
];

/// The class that has a member.
pub fn owner(allow: &Allow, number: u32) -> Option<u32> {
    if number < allow.member_count() {
        Some(allow.member_type(number).owner)
    } else {
        None
    }
}

fn means(allow: &Allow, class: u32, name: &str, arity: u32, wanted: Found) -> bool {
    match (resolve(allow, class, name, arity), wanted) {
        (None, Found::Nothing) => true,
        (Some(Callee::Member(number)), Found::Member(class)) => owner(allow, number) == Some(class),
        (Some(Callee::Iface(number)), Found::Method(class)) => owner(allow, number) == Some(class),
        _ => false,
    }
}

fn call_means(
    alloc: Global,
    listed: Listed,
    class: u32,
    call: (&str, u32),
    wanted: Found,
) -> Result<bool, AllocError> {
    let allow = allow(alloc, listed)?;
    Ok(means(&allow, class, call.0, call.1, wanted))
}

#[test]
fn calls_mean_members(rt: HostRuntime) -> Result<(), Fail> {
    let mut at = 0u32;
    for (listed, class, name, arity, wanted) in &CALLS {
        let holds = call_means(rt.alloc(), *listed, *class, (*name, *arity), *wanted)?;
        assert!(rt; holds, "{at}");
        at = at.wrapping_add(1);
    }
    Ok(())
}
