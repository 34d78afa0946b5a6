//! Classes by their full names.

ghost use Rattle.std.specs.Prelude.{◌≡◌, ◌<◌, ℕ, List, Some};
ghost use Rattle.std.specs.List.{find};
ghost use Rattle.std.specs.Str.{bytes_eq};
ghost use Rattle.pl_types.specs.Classes.{full_name, short_name};
ghost use Rattle.pl_types.specs.Names.{class_of_full, numbers_of_length};

use crate::classes::{
    ARITHMETIC_EXCEPTION, ARRAY_INDEX_OUT_OF_BOUNDS_EXCEPTION, ARRAY_LIST, BI_CONSUMER,
    BI_FUNCTION, BI_PREDICATE, BINARY_OPERATOR, BOOLEAN, BYTE, CHAR_SEQUENCE, CHARACTER,
    CLASS_CAST_EXCEPTION, CLASS_COUNT, COLLECTION, COLLECTIONS, COMPARABLE, COMPARATOR,
    CONCURRENT_MODIFICATION_EXCEPTION, CONSUMER, ENTRY, EXCEPTION, FUNCTION, HASH_MAP, HASH_SET,
    ILLEGAL_ARGUMENT_EXCEPTION, ILLEGAL_STATE_EXCEPTION, INDEX_OUT_OF_BOUNDS_EXCEPTION, INTEGER,
    ITERABLE, ITERATOR, LINKED_HASH_MAP, LINKED_HASH_SET, LIST, LONG, MAP, MATH,
    NEGATIVE_ARRAY_SIZE_EXCEPTION, NO_SUCH_ELEMENT_EXCEPTION, NULL_POINTER_EXCEPTION, NUMBER,
    NUMBER_FORMAT_EXCEPTION, OBJ_INT_CONSUMER, OBJECT, PREDICATE, PRELUDE, RUNTIME_EXCEPTION,
    SCRIPT_DOC_VALUES, SET, SHORT, STATIC_IMPORT, STRING, STRING_BUILDER,
    STRING_INDEX_OUT_OF_BOUNDS_EXCEPTION, SUPPLIER, TO_INT_FUNCTION, TO_LONG_FUNCTION,
    UNARY_OPERATOR, UNSUPPORTED_OPERATION_EXCEPTION, class_full, class_short,
};

/// The numbers of the classes whose full names have so many bytes, by that length.
static BY_LENGTH: [&[u32]; 50] = [
    &[],
    &[],
    &[],
    &[],
    &[],
    &[],
    &[],
    &[PRELUDE],
    &[],
    &[],
    &[],
    &[],
    &[],
    &[SET, MAP, STATIC_IMPORT],
    &[BYTE, LONG, MATH, LIST],
    &[SHORT],
    &[OBJECT, NUMBER, STRING],
    &[INTEGER, BOOLEAN, HASH_SET, HASH_MAP],
    &[ITERABLE, ITERATOR],
    &[CHARACTER, ARRAY_LIST, ENTRY, EXCEPTION],
    &[COMPARABLE, COLLECTION, COMPARATOR],
    &[COLLECTIONS],
    &[CHAR_SEQUENCE],
    &[STRING_BUILDER, LINKED_HASH_SET, LINKED_HASH_MAP],
    &[],
    &[],
    &[RUNTIME_EXCEPTION],
    &[FUNCTION, CONSUMER, SUPPLIER],
    &[PREDICATE, CLASS_CAST_EXCEPTION],
    &[BI_FUNCTION, BI_CONSUMER, ARITHMETIC_EXCEPTION],
    &[BI_PREDICATE, NULL_POINTER_EXCEPTION],
    &[ILLEGAL_STATE_EXCEPTION, NUMBER_FORMAT_EXCEPTION],
    &[UNARY_OPERATOR, TO_INT_FUNCTION, NO_SUCH_ELEMENT_EXCEPTION],
    &[BINARY_OPERATOR, OBJ_INT_CONSUMER, TO_LONG_FUNCTION],
    &[ILLEGAL_ARGUMENT_EXCEPTION],
    &[INDEX_OUT_OF_BOUNDS_EXCEPTION],
    &[NEGATIVE_ARRAY_SIZE_EXCEPTION],
    &[],
    &[],
    &[UNSUPPORTED_OPERATION_EXCEPTION],
    &[ARRAY_INDEX_OUT_OF_BOUNDS_EXCEPTION],
    &[
        CONCURRENT_MODIFICATION_EXCEPTION,
        STRING_INDEX_OUT_OF_BOUNDS_EXCEPTION,
    ],
    &[],
    &[],
    &[],
    &[],
    &[],
    &[],
    &[],
    &[SCRIPT_DOC_VALUES],
];

/// The number of the class that has a full name, with `$` before the name of a nested one, as `class_full` gives it. The
/// two hidden classes have theirs. `None` exactly where no class has the name: a short name is none.
pub fn class_of_full_name(name: &str) -> Option<u32>
    ensures { result ≡ class_of_full name.now }
{
    class_of_full_bytes(name.as_bytes())
}

/// The same by the bytes of the name.
pub fn class_of_full_bytes(name: &[u8]) -> Option<u32>
    ensures { result ≡ class_of_full name.now }
{
    first_named(of_length(name.len()), name)
}

/// The first of some classes with a full name.
fn first_named(classes: &[u32], name: &[u8]) -> Option<u32>
    ensures { result ≡ find (λ class. bytes_eq (full_name class) name.now) classes.now }
{
    classes
        .iter()
        .copied()
        .find(|class| is_full_name_of(*class, name))
}

/// The classes whose full names have so many bytes.
fn of_length(length: usize) -> &'static [u32]
    ensures { result.now ≡ numbers_of_length length }
{
    if length < 50 { BY_LENGTH[length] } else { &[] }
}

fn is_full_name_of(class: u32, name: &[u8]) -> bool
    ensures { result ≡ bytes_eq (full_name class) name.now }
{
    full_or_empty(class).as_bytes() == name
}

/// The full name of a class, and no bytes where a number is no class's.
pub(crate) fn full_or_empty(class: u32) -> &'static str
    ensures { result.now ≡ full_name class }
{
    if class < CLASS_COUNT {
        class_full(class)
    } else {
        ""
    }
}

/// The short name of a class, and no bytes where a number is no class's.
pub(crate) fn short_or_empty(class: u32) -> &'static str
    ensures { result.now ≡ short_name class }
{
    if class < CLASS_COUNT {
        class_short(class)
    } else {
        ""
    }
}

/// The laws of full names: each class is found by its own, and what is found has the name.
pub fn name_laws()
    ensures named { (class : ℕ) → class < 57 → class_of_full (full_name class) ≡ Some class }
    ensures spelled { (name : List ℕ) (class : ℕ) → class_of_full name ≡ Some class → (class < 57) × (full_name class ≡ name) }
{}
