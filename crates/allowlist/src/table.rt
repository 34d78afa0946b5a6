//! The table of the catalogue's members.

ghost use Rattle.std.specs.Prelude.{◌≡◌, ◌<◌, ◌≤◌, map};
ghost use Rattle.allowlist.specs.Catalogue.{catalogue};
ghost use Rattle.allowlist.specs.Rows.{seen_row};
ghost use Rattle.allowlist.specs.Allow.{start_of, iface_method_of};

use crate::table::How::{
    Added, AddedPrelude, Field, Instance, Makes, Prelude, Static, StaticPrelude,
};
use pl_types::Primitive;
use pl_types::classes::{
    ARITHMETIC_EXCEPTION, ARRAY_INDEX_OUT_OF_BOUNDS_EXCEPTION, ARRAY_LIST, BI_CONSUMER,
    BI_FUNCTION, BI_PREDICATE, BOOLEAN as BOOLEAN_BOX, BYTE as BYTE_BOX, CHAR_SEQUENCE, CHARACTER,
    CLASS_CAST_EXCEPTION, CLASS_COUNT, COLLECTION, COLLECTIONS, COMPARABLE, COMPARATOR,
    CONCURRENT_MODIFICATION_EXCEPTION, CONSUMER, ENTRY, EXCEPTION, FUNCTION, HASH_MAP, HASH_SET,
    ILLEGAL_ARGUMENT_EXCEPTION, ILLEGAL_STATE_EXCEPTION, INDEX_OUT_OF_BOUNDS_EXCEPTION, INTEGER,
    ITERABLE, ITERATOR, LINKED_HASH_MAP, LINKED_HASH_SET, LIST, LONG as LONG_BOX, MAP, MATH,
    NEGATIVE_ARRAY_SIZE_EXCEPTION, NO_SUCH_ELEMENT_EXCEPTION, NULL_POINTER_EXCEPTION, NUMBER,
    NUMBER_FORMAT_EXCEPTION, OBJ_INT_CONSUMER, OBJECT, PREDICATE, PRELUDE, RUNTIME_EXCEPTION,
    SCRIPT_DOC_VALUES, SET, SHORT as SHORT_BOX, STRING, STRING_BUILDER,
    STRING_INDEX_OUT_OF_BOUNDS_EXCEPTION, SUPPLIER, TO_INT_FUNCTION, TO_LONG_FUNCTION,
    UNARY_OPERATOR, UNSUPPORTED_OPERATION_EXCEPTION,
};

/// A type that is no array, as a row of the table has it.
#[derive(Clone, Copy)]
pub enum Element {
    Def,
    Prim(Primitive),
    Class(u32),
}

/// A type as a row of the table has it.
#[derive(Clone, Copy)]
pub enum TypeRow {
    Void,
    One(Element),
    Array(Element),
    /// The class that the row is of.
    Owner,
}

/// How a member is used, and whose work it is.
#[derive(Clone, Copy)]
pub enum How {
    /// A constructor.
    Makes,
    Field,
    Static,
    Instance,
    /// The language adds it.
    Added,
    /// A function of the prelude.
    Prelude,
    StaticPrelude,
    AddedPrelude,
}

/// A member as the table has it: its class, how it is used, its result, its name and its parameters.
pub struct Row(
    pub u32,
    pub How,
    pub TypeRow,
    pub &'static str,
    pub &'static [TypeRow],
);

const OWNER: TypeRow = TypeRow::Owner;

const DEF: TypeRow = TypeRow::One(Element::Def);

const BOOLEAN: TypeRow = TypeRow::One(Element::Prim(Primitive::Boolean));

const OF_STRING: TypeRow = TypeRow::One(Element::Class(STRING));

const INT: TypeRow = TypeRow::One(Element::Prim(Primitive::Int));

const CHAR: TypeRow = TypeRow::One(Element::Prim(Primitive::Char));

const BYTE: TypeRow = TypeRow::One(Element::Prim(Primitive::Byte));

const SHORT: TypeRow = TypeRow::One(Element::Prim(Primitive::Short));

const LONG: TypeRow = TypeRow::One(Element::Prim(Primitive::Long));

const OF_INTEGER: TypeRow = TypeRow::One(Element::Class(INTEGER));

const OF_LONG: TypeRow = TypeRow::One(Element::Class(LONG_BOX));

const OF_CHAR_SEQUENCE: TypeRow = TypeRow::One(Element::Class(CHAR_SEQUENCE));

const OF_ITERABLE: TypeRow = TypeRow::One(Element::Class(ITERABLE));

const OF_STRING_ARRAY: TypeRow = TypeRow::Array(Element::Class(STRING));

const CHAR_ARRAY: TypeRow = TypeRow::Array(Element::Prim(Primitive::Char));

const OF_STRING_BUILDER: TypeRow = TypeRow::One(Element::Class(STRING_BUILDER));

const VOID: TypeRow = TypeRow::Void;

const OF_ITERATOR: TypeRow = TypeRow::One(Element::Class(ITERATOR));

const OF_CONSUMER: TypeRow = TypeRow::One(Element::Class(CONSUMER));

const OF_PREDICATE: TypeRow = TypeRow::One(Element::Class(PREDICATE));

const OF_LIST: TypeRow = TypeRow::One(Element::Class(LIST));

const OF_OBJ_INT_CONSUMER: TypeRow = TypeRow::One(Element::Class(OBJ_INT_CONSUMER));

const OF_FUNCTION: TypeRow = TypeRow::One(Element::Class(FUNCTION));

const OF_MAP: TypeRow = TypeRow::One(Element::Class(MAP));

const OF_COLLECTION: TypeRow = TypeRow::One(Element::Class(COLLECTION));

const DEF_ARRAY: TypeRow = TypeRow::Array(Element::Def);

const OF_UNARY_OPERATOR: TypeRow = TypeRow::One(Element::Class(UNARY_OPERATOR));

const OF_COMPARATOR: TypeRow = TypeRow::One(Element::Class(COMPARATOR));

const OF_SET: TypeRow = TypeRow::One(Element::Class(SET));

const OF_BI_FUNCTION: TypeRow = TypeRow::One(Element::Class(BI_FUNCTION));

const OF_BI_CONSUMER: TypeRow = TypeRow::One(Element::Class(BI_CONSUMER));

const OF_BI_PREDICATE: TypeRow = TypeRow::One(Element::Class(BI_PREDICATE));

static ROWS: [Row; 228] = [
    Row(OBJECT, Instance, BOOLEAN, "equals", &[DEF]),
    Row(OBJECT, Instance, OF_STRING, "toString", &[]),
    Row(COMPARABLE, Instance, INT, "compareTo", &[DEF]),
    Row(CHAR_SEQUENCE, Instance, CHAR, "charAt", &[INT]),
    Row(CHAR_SEQUENCE, Instance, INT, "length", &[]),
    Row(NUMBER, Instance, BYTE, "byteValue", &[]),
    Row(NUMBER, Instance, SHORT, "shortValue", &[]),
    Row(NUMBER, Instance, INT, "intValue", &[]),
    Row(NUMBER, Instance, LONG, "longValue", &[]),
    Row(BYTE_BOX, Field, BYTE, "MAX_VALUE", &[]),
    Row(BYTE_BOX, Field, BYTE, "MIN_VALUE", &[]),
    Row(BYTE_BOX, Static, INT, "toUnsignedInt", &[BYTE]),
    Row(SHORT_BOX, Field, SHORT, "MAX_VALUE", &[]),
    Row(SHORT_BOX, Field, SHORT, "MIN_VALUE", &[]),
    Row(INTEGER, Field, INT, "MAX_VALUE", &[]),
    Row(INTEGER, Field, INT, "MIN_VALUE", &[]),
    Row(INTEGER, Static, INT, "bitCount", &[INT]),
    Row(INTEGER, Static, INT, "compare", &[INT, INT]),
    Row(INTEGER, Static, INT, "max", &[INT, INT]),
    Row(INTEGER, Static, INT, "min", &[INT, INT]),
    Row(INTEGER, Static, INT, "parseInt", &[OF_STRING]),
    Row(INTEGER, Static, INT, "signum", &[INT]),
    Row(INTEGER, Static, OF_STRING, "toBinaryString", &[INT]),
    Row(INTEGER, Static, OF_STRING, "toHexString", &[INT]),
    Row(INTEGER, Static, OF_STRING, "toString", &[INT]),
    Row(INTEGER, Static, OF_INTEGER, "valueOf", &[INT]),
    Row(LONG_BOX, Field, LONG, "MAX_VALUE", &[]),
    Row(LONG_BOX, Field, LONG, "MIN_VALUE", &[]),
    Row(LONG_BOX, Static, INT, "bitCount", &[LONG]),
    Row(LONG_BOX, Static, INT, "compare", &[LONG, LONG]),
    Row(LONG_BOX, Static, LONG, "max", &[LONG, LONG]),
    Row(LONG_BOX, Static, LONG, "min", &[LONG, LONG]),
    Row(LONG_BOX, Static, LONG, "parseLong", &[OF_STRING]),
    Row(LONG_BOX, Static, INT, "signum", &[LONG]),
    Row(LONG_BOX, Static, OF_STRING, "toBinaryString", &[LONG]),
    Row(LONG_BOX, Static, OF_STRING, "toHexString", &[LONG]),
    Row(LONG_BOX, Static, OF_STRING, "toString", &[LONG]),
    Row(LONG_BOX, Static, OF_LONG, "valueOf", &[LONG]),
    Row(CHARACTER, Field, CHAR, "MAX_VALUE", &[]),
    Row(CHARACTER, Field, CHAR, "MIN_VALUE", &[]),
    Row(CHARACTER, Instance, CHAR, "charValue", &[]),
    Row(CHARACTER, Static, BOOLEAN, "isDigit", &[CHAR]),
    Row(CHARACTER, Static, BOOLEAN, "isLetter", &[CHAR]),
    Row(CHARACTER, Static, BOOLEAN, "isLetterOrDigit", &[CHAR]),
    Row(CHARACTER, Static, BOOLEAN, "isLowerCase", &[CHAR]),
    Row(CHARACTER, Static, BOOLEAN, "isUpperCase", &[CHAR]),
    Row(CHARACTER, Static, BOOLEAN, "isWhitespace", &[CHAR]),
    Row(CHARACTER, Static, CHAR, "toLowerCase", &[CHAR]),
    Row(CHARACTER, Static, CHAR, "toUpperCase", &[CHAR]),
    Row(BOOLEAN_BOX, Instance, BOOLEAN, "booleanValue", &[]),
    Row(BOOLEAN_BOX, Static, INT, "compare", &[BOOLEAN, BOOLEAN]),
    Row(BOOLEAN_BOX, Static, BOOLEAN, "parseBoolean", &[OF_STRING]),
    Row(MATH, Static, LONG, "abs", &[LONG]),
    Row(MATH, Static, LONG, "floorDiv", &[LONG, LONG]),
    Row(MATH, Static, LONG, "floorMod", &[LONG, LONG]),
    Row(MATH, Static, LONG, "max", &[LONG, LONG]),
    Row(MATH, Static, LONG, "min", &[LONG, LONG]),
    Row(MATH, Static, INT, "toIntExact", &[LONG]),
    Row(
        STRING,
        Static,
        OF_STRING,
        "join",
        &[OF_CHAR_SEQUENCE, OF_ITERABLE],
    ),
    Row(STRING, Static, OF_STRING, "valueOf", &[DEF]),
    Row(STRING, Instance, OF_STRING, "concat", &[OF_STRING]),
    Row(STRING, Instance, BOOLEAN, "contains", &[OF_CHAR_SEQUENCE]),
    Row(STRING, Instance, BOOLEAN, "endsWith", &[OF_STRING]),
    Row(STRING, Instance, BOOLEAN, "equalsIgnoreCase", &[OF_STRING]),
    Row(STRING, Instance, INT, "indexOf", &[OF_STRING]),
    Row(STRING, Instance, INT, "indexOf", &[OF_STRING, INT]),
    Row(STRING, Instance, BOOLEAN, "isEmpty", &[]),
    Row(STRING, Instance, INT, "lastIndexOf", &[OF_STRING]),
    Row(
        STRING,
        Instance,
        OF_STRING,
        "replace",
        &[OF_CHAR_SEQUENCE, OF_CHAR_SEQUENCE],
    ),
    Row(STRING, Added, OF_STRING_ARRAY, "splitOnToken", &[OF_STRING]),
    Row(
        STRING,
        Added,
        OF_STRING_ARRAY,
        "splitOnToken",
        &[OF_STRING, INT],
    ),
    Row(STRING, Instance, BOOLEAN, "startsWith", &[OF_STRING]),
    Row(STRING, Instance, BOOLEAN, "startsWith", &[OF_STRING, INT]),
    Row(STRING, Instance, OF_STRING, "substring", &[INT]),
    Row(STRING, Instance, OF_STRING, "substring", &[INT, INT]),
    Row(STRING, Instance, CHAR_ARRAY, "toCharArray", &[]),
    Row(STRING, Instance, OF_STRING, "toLowerCase", &[]),
    Row(STRING, Instance, OF_STRING, "toUpperCase", &[]),
    Row(STRING, Instance, OF_STRING, "trim", &[]),
    Row(STRING_BUILDER, Makes, OWNER, "", &[]),
    Row(STRING_BUILDER, Makes, OWNER, "", &[OF_CHAR_SEQUENCE]),
    Row(
        STRING_BUILDER,
        Instance,
        OF_STRING_BUILDER,
        "append",
        &[DEF],
    ),
    Row(
        STRING_BUILDER,
        Instance,
        OF_STRING_BUILDER,
        "deleteCharAt",
        &[INT],
    ),
    Row(STRING_BUILDER, Instance, INT, "indexOf", &[OF_STRING]),
    Row(
        STRING_BUILDER,
        Instance,
        OF_STRING_BUILDER,
        "insert",
        &[INT, DEF],
    ),
    Row(STRING_BUILDER, Instance, VOID, "setLength", &[INT]),
    Row(ITERABLE, Instance, OF_ITERATOR, "iterator", &[]),
    Row(ITERABLE, Prelude, VOID, "forEach", &[OF_CONSUMER]),
    Row(ITERABLE, AddedPrelude, BOOLEAN, "any", &[OF_PREDICATE]),
    Row(ITERABLE, Added, OF_LIST, "asList", &[]),
    Row(ITERABLE, AddedPrelude, INT, "count", &[OF_PREDICATE]),
    Row(ITERABLE, AddedPrelude, DEF, "each", &[OF_CONSUMER]),
    Row(
        ITERABLE,
        AddedPrelude,
        DEF,
        "eachWithIndex",
        &[OF_OBJ_INT_CONSUMER],
    ),
    Row(ITERABLE, AddedPrelude, BOOLEAN, "every", &[OF_PREDICATE]),
    Row(
        ITERABLE,
        AddedPrelude,
        OF_LIST,
        "findResults",
        &[OF_FUNCTION],
    ),
    Row(ITERABLE, AddedPrelude, OF_MAP, "groupBy", &[OF_FUNCTION]),
    Row(ITERABLE, Added, OF_STRING, "join", &[OF_STRING]),
    Row(COLLECTION, Instance, BOOLEAN, "add", &[DEF]),
    Row(COLLECTION, Instance, BOOLEAN, "addAll", &[OF_COLLECTION]),
    Row(COLLECTION, Instance, VOID, "clear", &[]),
    Row(COLLECTION, Instance, BOOLEAN, "contains", &[DEF]),
    Row(
        COLLECTION,
        Instance,
        BOOLEAN,
        "containsAll",
        &[OF_COLLECTION],
    ),
    Row(COLLECTION, Instance, BOOLEAN, "isEmpty", &[]),
    Row(COLLECTION, Instance, BOOLEAN, "remove", &[DEF]),
    Row(COLLECTION, Instance, BOOLEAN, "removeAll", &[OF_COLLECTION]),
    Row(COLLECTION, Instance, BOOLEAN, "retainAll", &[OF_COLLECTION]),
    Row(COLLECTION, Instance, INT, "size", &[]),
    Row(COLLECTION, Instance, DEF_ARRAY, "toArray", &[]),
    Row(COLLECTION, Prelude, BOOLEAN, "removeIf", &[OF_PREDICATE]),
    Row(COLLECTION, AddedPrelude, OF_LIST, "collect", &[OF_FUNCTION]),
    Row(COLLECTION, AddedPrelude, DEF, "find", &[OF_PREDICATE]),
    Row(
        COLLECTION,
        AddedPrelude,
        OF_LIST,
        "findAll",
        &[OF_PREDICATE],
    ),
    Row(COLLECTION, AddedPrelude, OF_LIST, "split", &[OF_PREDICATE]),
    Row(LIST, Instance, VOID, "add", &[INT, DEF]),
    Row(LIST, Instance, BOOLEAN, "addAll", &[INT, OF_COLLECTION]),
    Row(LIST, Instance, DEF, "get", &[INT]),
    Row(LIST, Added, INT, "getLength", &[]),
    Row(LIST, Instance, INT, "indexOf", &[DEF]),
    Row(LIST, Instance, INT, "lastIndexOf", &[DEF]),
    Row(LIST, Instance, DEF, "remove", &[INT]),
    Row(LIST, Prelude, VOID, "replaceAll", &[OF_UNARY_OPERATOR]),
    Row(LIST, Instance, DEF, "set", &[INT, DEF]),
    Row(LIST, Prelude, VOID, "sort", &[OF_COMPARATOR]),
    Row(ARRAY_LIST, Makes, OWNER, "", &[]),
    Row(ARRAY_LIST, Makes, OWNER, "", &[OF_COLLECTION]),
    Row(HASH_SET, Makes, OWNER, "", &[]),
    Row(HASH_SET, Makes, OWNER, "", &[OF_COLLECTION]),
    Row(LINKED_HASH_SET, Makes, OWNER, "", &[]),
    Row(LINKED_HASH_SET, Makes, OWNER, "", &[OF_COLLECTION]),
    Row(MAP, Instance, VOID, "clear", &[]),
    Row(MAP, Instance, BOOLEAN, "containsKey", &[DEF]),
    Row(MAP, Instance, BOOLEAN, "containsValue", &[DEF]),
    Row(MAP, Instance, OF_SET, "entrySet", &[]),
    Row(MAP, Instance, DEF, "get", &[DEF]),
    Row(MAP, Instance, DEF, "getOrDefault", &[DEF, DEF]),
    Row(MAP, Instance, BOOLEAN, "isEmpty", &[]),
    Row(MAP, Instance, OF_SET, "keySet", &[]),
    Row(MAP, Instance, DEF, "put", &[DEF, DEF]),
    Row(MAP, Instance, VOID, "putAll", &[OF_MAP]),
    Row(MAP, Instance, DEF, "putIfAbsent", &[DEF, DEF]),
    Row(MAP, Instance, DEF, "remove", &[DEF]),
    Row(MAP, Instance, BOOLEAN, "remove", &[DEF, DEF]),
    Row(MAP, Instance, DEF, "replace", &[DEF, DEF]),
    Row(MAP, Instance, INT, "size", &[]),
    Row(MAP, Instance, OF_COLLECTION, "values", &[]),
    Row(MAP, Prelude, DEF, "compute", &[DEF, OF_BI_FUNCTION]),
    Row(MAP, Prelude, DEF, "computeIfAbsent", &[DEF, OF_FUNCTION]),
    Row(
        MAP,
        Prelude,
        DEF,
        "computeIfPresent",
        &[DEF, OF_BI_FUNCTION],
    ),
    Row(MAP, Prelude, VOID, "forEach", &[OF_BI_CONSUMER]),
    Row(MAP, Prelude, DEF, "merge", &[DEF, DEF, OF_BI_FUNCTION]),
    Row(MAP, Prelude, VOID, "replaceAll", &[OF_BI_FUNCTION]),
    Row(MAP, AddedPrelude, OF_LIST, "collect", &[OF_BI_FUNCTION]),
    Row(MAP, AddedPrelude, INT, "count", &[OF_BI_PREDICATE]),
    Row(MAP, AddedPrelude, DEF, "each", &[OF_BI_CONSUMER]),
    Row(MAP, AddedPrelude, BOOLEAN, "every", &[OF_BI_PREDICATE]),
    Row(MAP, AddedPrelude, DEF, "find", &[OF_BI_PREDICATE]),
    Row(MAP, AddedPrelude, OF_MAP, "findAll", &[OF_BI_PREDICATE]),
    Row(MAP, AddedPrelude, OF_LIST, "findResults", &[OF_BI_FUNCTION]),
    Row(MAP, AddedPrelude, OF_MAP, "groupBy", &[OF_BI_FUNCTION]),
    Row(HASH_MAP, Makes, OWNER, "", &[]),
    Row(HASH_MAP, Makes, OWNER, "", &[OF_MAP]),
    Row(LINKED_HASH_MAP, Makes, OWNER, "", &[]),
    Row(LINKED_HASH_MAP, Makes, OWNER, "", &[OF_MAP]),
    Row(ENTRY, Instance, DEF, "getKey", &[]),
    Row(ENTRY, Instance, DEF, "getValue", &[]),
    Row(ENTRY, Instance, DEF, "setValue", &[DEF]),
    Row(ITERATOR, Instance, BOOLEAN, "hasNext", &[]),
    Row(ITERATOR, Instance, DEF, "next", &[]),
    Row(ITERATOR, Instance, VOID, "remove", &[]),
    Row(COLLECTIONS, Static, OF_LIST, "emptyList", &[]),
    Row(COLLECTIONS, Static, OF_MAP, "emptyMap", &[]),
    Row(COLLECTIONS, Static, DEF, "max", &[OF_COLLECTION]),
    Row(COLLECTIONS, Static, DEF, "min", &[OF_COLLECTION]),
    Row(COLLECTIONS, Static, VOID, "reverse", &[OF_LIST]),
    Row(COLLECTIONS, Static, OF_LIST, "singletonList", &[DEF]),
    Row(COLLECTIONS, Static, VOID, "sort", &[OF_LIST]),
    Row(
        COLLECTIONS,
        StaticPrelude,
        VOID,
        "sort",
        &[OF_LIST, OF_COMPARATOR],
    ),
    Row(COLLECTIONS, Static, VOID, "swap", &[OF_LIST, INT, INT]),
    Row(COMPARATOR, Instance, INT, "compare", &[DEF, DEF]),
    Row(COMPARATOR, Prelude, OF_COMPARATOR, "reversed", &[]),
    Row(
        COMPARATOR,
        Prelude,
        OF_COMPARATOR,
        "thenComparing",
        &[OF_COMPARATOR],
    ),
    Row(
        COMPARATOR,
        StaticPrelude,
        OF_COMPARATOR,
        "comparing",
        &[OF_FUNCTION],
    ),
    Row(
        COMPARATOR,
        StaticPrelude,
        OF_COMPARATOR,
        "naturalOrder",
        &[],
    ),
    Row(
        COMPARATOR,
        StaticPrelude,
        OF_COMPARATOR,
        "reverseOrder",
        &[],
    ),
    Row(FUNCTION, Instance, DEF, "apply", &[DEF]),
    Row(BI_FUNCTION, Instance, DEF, "apply", &[DEF, DEF]),
    Row(PREDICATE, Instance, BOOLEAN, "test", &[DEF]),
    Row(BI_PREDICATE, Instance, BOOLEAN, "test", &[DEF, DEF]),
    Row(CONSUMER, Instance, VOID, "accept", &[DEF]),
    Row(BI_CONSUMER, Instance, VOID, "accept", &[DEF, DEF]),
    Row(OBJ_INT_CONSUMER, Instance, VOID, "accept", &[DEF, INT]),
    Row(SUPPLIER, Instance, DEF, "get", &[]),
    Row(TO_INT_FUNCTION, Instance, INT, "applyAsInt", &[DEF]),
    Row(TO_LONG_FUNCTION, Instance, LONG, "applyAsLong", &[DEF]),
    Row(EXCEPTION, Makes, OWNER, "", &[]),
    Row(EXCEPTION, Makes, OWNER, "", &[OF_STRING]),
    Row(EXCEPTION, Instance, OF_STRING, "getMessage", &[]),
    Row(RUNTIME_EXCEPTION, Makes, OWNER, "", &[]),
    Row(RUNTIME_EXCEPTION, Makes, OWNER, "", &[OF_STRING]),
    Row(ARITHMETIC_EXCEPTION, Makes, OWNER, "", &[]),
    Row(ARITHMETIC_EXCEPTION, Makes, OWNER, "", &[OF_STRING]),
    Row(CLASS_CAST_EXCEPTION, Makes, OWNER, "", &[]),
    Row(CLASS_CAST_EXCEPTION, Makes, OWNER, "", &[OF_STRING]),
    Row(CONCURRENT_MODIFICATION_EXCEPTION, Makes, OWNER, "", &[]),
    Row(
        CONCURRENT_MODIFICATION_EXCEPTION,
        Makes,
        OWNER,
        "",
        &[OF_STRING],
    ),
    Row(ILLEGAL_ARGUMENT_EXCEPTION, Makes, OWNER, "", &[]),
    Row(ILLEGAL_ARGUMENT_EXCEPTION, Makes, OWNER, "", &[OF_STRING]),
    Row(ILLEGAL_STATE_EXCEPTION, Makes, OWNER, "", &[]),
    Row(ILLEGAL_STATE_EXCEPTION, Makes, OWNER, "", &[OF_STRING]),
    Row(INDEX_OUT_OF_BOUNDS_EXCEPTION, Makes, OWNER, "", &[]),
    Row(
        INDEX_OUT_OF_BOUNDS_EXCEPTION,
        Makes,
        OWNER,
        "",
        &[OF_STRING],
    ),
    Row(NEGATIVE_ARRAY_SIZE_EXCEPTION, Makes, OWNER, "", &[]),
    Row(
        NEGATIVE_ARRAY_SIZE_EXCEPTION,
        Makes,
        OWNER,
        "",
        &[OF_STRING],
    ),
    Row(NO_SUCH_ELEMENT_EXCEPTION, Makes, OWNER, "", &[]),
    Row(NO_SUCH_ELEMENT_EXCEPTION, Makes, OWNER, "", &[OF_STRING]),
    Row(NULL_POINTER_EXCEPTION, Makes, OWNER, "", &[]),
    Row(NULL_POINTER_EXCEPTION, Makes, OWNER, "", &[OF_STRING]),
    Row(UNSUPPORTED_OPERATION_EXCEPTION, Makes, OWNER, "", &[]),
    Row(
        UNSUPPORTED_OPERATION_EXCEPTION,
        Makes,
        OWNER,
        "",
        &[OF_STRING],
    ),
    Row(NUMBER_FORMAT_EXCEPTION, Makes, OWNER, "", &[]),
    Row(NUMBER_FORMAT_EXCEPTION, Makes, OWNER, "", &[OF_STRING]),
    Row(ARRAY_INDEX_OUT_OF_BOUNDS_EXCEPTION, Makes, OWNER, "", &[]),
    Row(
        ARRAY_INDEX_OUT_OF_BOUNDS_EXCEPTION,
        Makes,
        OWNER,
        "",
        &[OF_STRING],
    ),
    Row(STRING_INDEX_OUT_OF_BOUNDS_EXCEPTION, Makes, OWNER, "", &[]),
    Row(
        STRING_INDEX_OUT_OF_BOUNDS_EXCEPTION,
        Makes,
        OWNER,
        "",
        &[OF_STRING],
    ),
    Row(SCRIPT_DOC_VALUES, Instance, DEF, "getValue", &[]),
    Row(PRELUDE, Static, INT, "compare", &[DEF, DEF]),
    Row(
        PRELUDE,
        Static,
        VOID,
        "order",
        &[OF_LIST, DEF_ARRAY, OF_LIST],
    ),
];

/// Each member of the catalogue, in its order.
pub fn rows() -> &'static [Row]
    ensures { map seen_row result.now ≡ catalogue }
{
    &ROWS
}

/// How many members there are, with those of the hidden class.
pub const MEMBER_COUNT: u32 = 228;

/// Where each class's members begin, and where the last one's end.
static STARTS: [u32; 58] = [
    0, 2, 3, 5, 9, 12, 14, 26, 38, 49, 52, 58, 79, 86, 97, 113, 123, 125, 125, 127, 129, 159, 161,
    163, 166, 169, 178, 184, 185, 186, 186, 186, 187, 188, 189, 190, 191, 192, 193, 194, 197, 199,
    201, 203, 205, 207, 209, 211, 213, 215, 217, 219, 221, 223, 225, 226, 228, 228,
];

/// The number of a class's first member. For the number of classes it is the number of members.
pub fn start_of_class(class: u32) -> u32
    requires { class ≤ CLASS_COUNT }
    ensures { result ≡ start_of class }
{
    STARTS[class as usize]
}

/// The method of each functional interface, by the number of its class.
static METHODS: [Option<u32>; 57] = [
    None,
    None,
    None,
    None,
    None,
    None,
    None,
    None,
    None,
    None,
    None,
    None,
    None,
    None,
    None,
    None,
    None,
    None,
    None,
    None,
    None,
    None,
    None,
    None,
    None,
    None,
    Some(178),
    Some(184),
    Some(185),
    Some(184),
    Some(185),
    Some(186),
    Some(187),
    Some(188),
    Some(189),
    Some(190),
    Some(191),
    Some(192),
    Some(193),
    None,
    None,
    None,
    None,
    None,
    None,
    None,
    None,
    None,
    None,
    None,
    None,
    None,
    None,
    None,
    None,
    None,
    None,
];

/// The one method of a functional interface. `None` for every other class.
pub fn method_of_interface(class: u32) -> Option<u32>
    requires { class < CLASS_COUNT }
    ensures { result ≡ iface_method_of class }
{
    METHODS[class as usize]
}
