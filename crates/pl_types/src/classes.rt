//! The classes: their numbers, names and parents. A class's number is its place in the catalogue, from 0, and the
//! two hidden classes come last.

ghost use Rattle.std.specs.Prelude.{◌≡◌, ◌<◌, ◌↔◌, ℕ, List, ◌∷◌, IsTrue, All, flat_map};
ghost use Rattle.pl_types.specs.Classes.{full_name, short_name, parents_of, lineage_of, class_is_below, class_numbers, Descends};
ghost use Rattle.std.specs.List.{range_with_len};

/// The number of `java.lang.Object`.
pub const OBJECT: u32 = 0;
/// The number of `java.lang.Comparable`.
pub const COMPARABLE: u32 = 1;
/// The number of `java.lang.CharSequence`.
pub const CHAR_SEQUENCE: u32 = 2;
/// The number of `java.lang.Number`.
pub const NUMBER: u32 = 3;
/// The number of `java.lang.Byte`.
pub const BYTE: u32 = 4;
/// The number of `java.lang.Short`.
pub const SHORT: u32 = 5;
/// The number of `java.lang.Integer`.
pub const INTEGER: u32 = 6;
/// The number of `java.lang.Long`.
pub const LONG: u32 = 7;
/// The number of `java.lang.Character`.
pub const CHARACTER: u32 = 8;
/// The number of `java.lang.Boolean`.
pub const BOOLEAN: u32 = 9;
/// The number of `java.lang.Math`.
pub const MATH: u32 = 10;
/// The number of `java.lang.String`.
pub const STRING: u32 = 11;
/// The number of `java.lang.StringBuilder`.
pub const STRING_BUILDER: u32 = 12;
/// The number of `java.lang.Iterable`.
pub const ITERABLE: u32 = 13;
/// The number of `java.util.Collection`.
pub const COLLECTION: u32 = 14;
/// The number of `java.util.List`.
pub const LIST: u32 = 15;
/// The number of `java.util.ArrayList`.
pub const ARRAY_LIST: u32 = 16;
/// The number of `java.util.Set`.
pub const SET: u32 = 17;
/// The number of `java.util.HashSet`.
pub const HASH_SET: u32 = 18;
/// The number of `java.util.LinkedHashSet`.
pub const LINKED_HASH_SET: u32 = 19;
/// The number of `java.util.Map`.
pub const MAP: u32 = 20;
/// The number of `java.util.HashMap`.
pub const HASH_MAP: u32 = 21;
/// The number of `java.util.LinkedHashMap`.
pub const LINKED_HASH_MAP: u32 = 22;
/// The number of `java.util.Map$Entry`.
pub const ENTRY: u32 = 23;
/// The number of `java.util.Iterator`.
pub const ITERATOR: u32 = 24;
/// The number of `java.util.Collections`.
pub const COLLECTIONS: u32 = 25;
/// The number of `java.util.Comparator`.
pub const COMPARATOR: u32 = 26;
/// The number of `java.util.function.Function`.
pub const FUNCTION: u32 = 27;
/// The number of `java.util.function.BiFunction`.
pub const BI_FUNCTION: u32 = 28;
/// The number of `java.util.function.UnaryOperator`.
pub const UNARY_OPERATOR: u32 = 29;
/// The number of `java.util.function.BinaryOperator`.
pub const BINARY_OPERATOR: u32 = 30;
/// The number of `java.util.function.Predicate`.
pub const PREDICATE: u32 = 31;
/// The number of `java.util.function.BiPredicate`.
pub const BI_PREDICATE: u32 = 32;
/// The number of `java.util.function.Consumer`.
pub const CONSUMER: u32 = 33;
/// The number of `java.util.function.BiConsumer`.
pub const BI_CONSUMER: u32 = 34;
/// The number of `java.util.function.ObjIntConsumer`.
pub const OBJ_INT_CONSUMER: u32 = 35;
/// The number of `java.util.function.Supplier`.
pub const SUPPLIER: u32 = 36;
/// The number of `java.util.function.ToIntFunction`.
pub const TO_INT_FUNCTION: u32 = 37;
/// The number of `java.util.function.ToLongFunction`.
pub const TO_LONG_FUNCTION: u32 = 38;
/// The number of `java.lang.Exception`.
pub const EXCEPTION: u32 = 39;
/// The number of `java.lang.RuntimeException`.
pub const RUNTIME_EXCEPTION: u32 = 40;
/// The number of `java.lang.ArithmeticException`.
pub const ARITHMETIC_EXCEPTION: u32 = 41;
/// The number of `java.lang.ClassCastException`.
pub const CLASS_CAST_EXCEPTION: u32 = 42;
/// The number of `java.util.ConcurrentModificationException`.
pub const CONCURRENT_MODIFICATION_EXCEPTION: u32 = 43;
/// The number of `java.lang.IllegalArgumentException`.
pub const ILLEGAL_ARGUMENT_EXCEPTION: u32 = 44;
/// The number of `java.lang.IllegalStateException`.
pub const ILLEGAL_STATE_EXCEPTION: u32 = 45;
/// The number of `java.lang.IndexOutOfBoundsException`.
pub const INDEX_OUT_OF_BOUNDS_EXCEPTION: u32 = 46;
/// The number of `java.lang.NegativeArraySizeException`.
pub const NEGATIVE_ARRAY_SIZE_EXCEPTION: u32 = 47;
/// The number of `java.util.NoSuchElementException`.
pub const NO_SUCH_ELEMENT_EXCEPTION: u32 = 48;
/// The number of `java.lang.NullPointerException`.
pub const NULL_POINTER_EXCEPTION: u32 = 49;
/// The number of `java.lang.UnsupportedOperationException`.
pub const UNSUPPORTED_OPERATION_EXCEPTION: u32 = 50;
/// The number of `java.lang.NumberFormatException`.
pub const NUMBER_FORMAT_EXCEPTION: u32 = 51;
/// The number of `java.lang.ArrayIndexOutOfBoundsException`.
pub const ARRAY_INDEX_OUT_OF_BOUNDS_EXCEPTION: u32 = 52;
/// The number of `java.lang.StringIndexOutOfBoundsException`.
pub const STRING_INDEX_OUT_OF_BOUNDS_EXCEPTION: u32 = 53;
/// The number of `org.elasticsearch.index.fielddata.ScriptDocValues`.
pub const SCRIPT_DOC_VALUES: u32 = 54;
/// The number of the hidden class of the prelude's own calls.
pub const PRELUDE: u32 = 55;
/// The number of the hidden class of the host's functions.
pub const STATIC_IMPORT: u32 = 56;

/// How many classes there are, with the two hidden ones.
pub const CLASS_COUNT: u32 = 57;

/// The full names, by the classes' numbers.
static FULL_NAMES: [&str; 57] = [
    "java.lang.Object",
    "java.lang.Comparable",
    "java.lang.CharSequence",
    "java.lang.Number",
    "java.lang.Byte",
    "java.lang.Short",
    "java.lang.Integer",
    "java.lang.Long",
    "java.lang.Character",
    "java.lang.Boolean",
    "java.lang.Math",
    "java.lang.String",
    "java.lang.StringBuilder",
    "java.lang.Iterable",
    "java.util.Collection",
    "java.util.List",
    "java.util.ArrayList",
    "java.util.Set",
    "java.util.HashSet",
    "java.util.LinkedHashSet",
    "java.util.Map",
    "java.util.HashMap",
    "java.util.LinkedHashMap",
    "java.util.Map$Entry",
    "java.util.Iterator",
    "java.util.Collections",
    "java.util.Comparator",
    "java.util.function.Function",
    "java.util.function.BiFunction",
    "java.util.function.UnaryOperator",
    "java.util.function.BinaryOperator",
    "java.util.function.Predicate",
    "java.util.function.BiPredicate",
    "java.util.function.Consumer",
    "java.util.function.BiConsumer",
    "java.util.function.ObjIntConsumer",
    "java.util.function.Supplier",
    "java.util.function.ToIntFunction",
    "java.util.function.ToLongFunction",
    "java.lang.Exception",
    "java.lang.RuntimeException",
    "java.lang.ArithmeticException",
    "java.lang.ClassCastException",
    "java.util.ConcurrentModificationException",
    "java.lang.IllegalArgumentException",
    "java.lang.IllegalStateException",
    "java.lang.IndexOutOfBoundsException",
    "java.lang.NegativeArraySizeException",
    "java.util.NoSuchElementException",
    "java.lang.NullPointerException",
    "java.lang.UnsupportedOperationException",
    "java.lang.NumberFormatException",
    "java.lang.ArrayIndexOutOfBoundsException",
    "java.lang.StringIndexOutOfBoundsException",
    "org.elasticsearch.index.fielddata.ScriptDocValues",
    "Prelude",
    "static_import",
];

/// The short names.
static SHORT_NAMES: [&str; 57] = [
    "Object",
    "Comparable",
    "CharSequence",
    "Number",
    "Byte",
    "Short",
    "Integer",
    "Long",
    "Character",
    "Boolean",
    "Math",
    "String",
    "StringBuilder",
    "Iterable",
    "Collection",
    "List",
    "ArrayList",
    "Set",
    "HashSet",
    "LinkedHashSet",
    "Map",
    "HashMap",
    "LinkedHashMap",
    "Map$Entry",
    "Iterator",
    "Collections",
    "Comparator",
    "Function",
    "BiFunction",
    "UnaryOperator",
    "BinaryOperator",
    "Predicate",
    "BiPredicate",
    "Consumer",
    "BiConsumer",
    "ObjIntConsumer",
    "Supplier",
    "ToIntFunction",
    "ToLongFunction",
    "Exception",
    "RuntimeException",
    "ArithmeticException",
    "ClassCastException",
    "ConcurrentModificationException",
    "IllegalArgumentException",
    "IllegalStateException",
    "IndexOutOfBoundsException",
    "NegativeArraySizeException",
    "NoSuchElementException",
    "NullPointerException",
    "UnsupportedOperationException",
    "NumberFormatException",
    "ArrayIndexOutOfBoundsException",
    "StringIndexOutOfBoundsException",
    "ScriptDocValues",
    "Prelude",
    "static_import",
];

/// The parents.
static PARENTS: [&[u32]; 57] = [
    &[],
    &[OBJECT],
    &[OBJECT],
    &[OBJECT],
    &[NUMBER, COMPARABLE],
    &[NUMBER, COMPARABLE],
    &[NUMBER, COMPARABLE],
    &[NUMBER, COMPARABLE],
    &[COMPARABLE],
    &[COMPARABLE],
    &[OBJECT],
    &[CHAR_SEQUENCE, COMPARABLE],
    &[CHAR_SEQUENCE],
    &[OBJECT],
    &[ITERABLE],
    &[COLLECTION],
    &[LIST],
    &[COLLECTION],
    &[SET],
    &[HASH_SET],
    &[OBJECT],
    &[MAP],
    &[HASH_MAP],
    &[OBJECT],
    &[OBJECT],
    &[OBJECT],
    &[OBJECT],
    &[OBJECT],
    &[OBJECT],
    &[FUNCTION],
    &[BI_FUNCTION],
    &[OBJECT],
    &[OBJECT],
    &[OBJECT],
    &[OBJECT],
    &[OBJECT],
    &[OBJECT],
    &[OBJECT],
    &[OBJECT],
    &[OBJECT],
    &[EXCEPTION],
    &[RUNTIME_EXCEPTION],
    &[RUNTIME_EXCEPTION],
    &[RUNTIME_EXCEPTION],
    &[RUNTIME_EXCEPTION],
    &[RUNTIME_EXCEPTION],
    &[RUNTIME_EXCEPTION],
    &[RUNTIME_EXCEPTION],
    &[RUNTIME_EXCEPTION],
    &[RUNTIME_EXCEPTION],
    &[RUNTIME_EXCEPTION],
    &[ILLEGAL_ARGUMENT_EXCEPTION],
    &[INDEX_OUT_OF_BOUNDS_EXCEPTION],
    &[INDEX_OUT_OF_BOUNDS_EXCEPTION],
    &[LIST],
    &[OBJECT],
    &[OBJECT],
];

/// Each class and what stands above it.
static LINEAGES: [&[u32]; 57] = [
    &[OBJECT],
    &[COMPARABLE, OBJECT],
    &[CHAR_SEQUENCE, OBJECT],
    &[NUMBER, OBJECT],
    &[BYTE, NUMBER, OBJECT, COMPARABLE, OBJECT],
    &[SHORT, NUMBER, OBJECT, COMPARABLE, OBJECT],
    &[INTEGER, NUMBER, OBJECT, COMPARABLE, OBJECT],
    &[LONG, NUMBER, OBJECT, COMPARABLE, OBJECT],
    &[CHARACTER, COMPARABLE, OBJECT],
    &[BOOLEAN, COMPARABLE, OBJECT],
    &[MATH, OBJECT],
    &[STRING, CHAR_SEQUENCE, OBJECT, COMPARABLE, OBJECT],
    &[STRING_BUILDER, CHAR_SEQUENCE, OBJECT],
    &[ITERABLE, OBJECT],
    &[COLLECTION, ITERABLE, OBJECT],
    &[LIST, COLLECTION, ITERABLE, OBJECT],
    &[ARRAY_LIST, LIST, COLLECTION, ITERABLE, OBJECT],
    &[SET, COLLECTION, ITERABLE, OBJECT],
    &[HASH_SET, SET, COLLECTION, ITERABLE, OBJECT],
    &[LINKED_HASH_SET, HASH_SET, SET, COLLECTION, ITERABLE, OBJECT],
    &[MAP, OBJECT],
    &[HASH_MAP, MAP, OBJECT],
    &[LINKED_HASH_MAP, HASH_MAP, MAP, OBJECT],
    &[ENTRY, OBJECT],
    &[ITERATOR, OBJECT],
    &[COLLECTIONS, OBJECT],
    &[COMPARATOR, OBJECT],
    &[FUNCTION, OBJECT],
    &[BI_FUNCTION, OBJECT],
    &[UNARY_OPERATOR, FUNCTION, OBJECT],
    &[BINARY_OPERATOR, BI_FUNCTION, OBJECT],
    &[PREDICATE, OBJECT],
    &[BI_PREDICATE, OBJECT],
    &[CONSUMER, OBJECT],
    &[BI_CONSUMER, OBJECT],
    &[OBJ_INT_CONSUMER, OBJECT],
    &[SUPPLIER, OBJECT],
    &[TO_INT_FUNCTION, OBJECT],
    &[TO_LONG_FUNCTION, OBJECT],
    &[EXCEPTION, OBJECT],
    &[RUNTIME_EXCEPTION, EXCEPTION, OBJECT],
    &[ARITHMETIC_EXCEPTION, RUNTIME_EXCEPTION, EXCEPTION, OBJECT],
    &[CLASS_CAST_EXCEPTION, RUNTIME_EXCEPTION, EXCEPTION, OBJECT],
    &[
        CONCURRENT_MODIFICATION_EXCEPTION,
        RUNTIME_EXCEPTION,
        EXCEPTION,
        OBJECT,
    ],
    &[
        ILLEGAL_ARGUMENT_EXCEPTION,
        RUNTIME_EXCEPTION,
        EXCEPTION,
        OBJECT,
    ],
    &[
        ILLEGAL_STATE_EXCEPTION,
        RUNTIME_EXCEPTION,
        EXCEPTION,
        OBJECT,
    ],
    &[
        INDEX_OUT_OF_BOUNDS_EXCEPTION,
        RUNTIME_EXCEPTION,
        EXCEPTION,
        OBJECT,
    ],
    &[
        NEGATIVE_ARRAY_SIZE_EXCEPTION,
        RUNTIME_EXCEPTION,
        EXCEPTION,
        OBJECT,
    ],
    &[
        NO_SUCH_ELEMENT_EXCEPTION,
        RUNTIME_EXCEPTION,
        EXCEPTION,
        OBJECT,
    ],
    &[NULL_POINTER_EXCEPTION, RUNTIME_EXCEPTION, EXCEPTION, OBJECT],
    &[
        UNSUPPORTED_OPERATION_EXCEPTION,
        RUNTIME_EXCEPTION,
        EXCEPTION,
        OBJECT,
    ],
    &[
        NUMBER_FORMAT_EXCEPTION,
        ILLEGAL_ARGUMENT_EXCEPTION,
        RUNTIME_EXCEPTION,
        EXCEPTION,
        OBJECT,
    ],
    &[
        ARRAY_INDEX_OUT_OF_BOUNDS_EXCEPTION,
        INDEX_OUT_OF_BOUNDS_EXCEPTION,
        RUNTIME_EXCEPTION,
        EXCEPTION,
        OBJECT,
    ],
    &[
        STRING_INDEX_OUT_OF_BOUNDS_EXCEPTION,
        INDEX_OUT_OF_BOUNDS_EXCEPTION,
        RUNTIME_EXCEPTION,
        EXCEPTION,
        OBJECT,
    ],
    &[SCRIPT_DOC_VALUES, LIST, COLLECTION, ITERABLE, OBJECT],
    &[PRELUDE, OBJECT],
    &[STATIC_IMPORT, OBJECT],
];

/// The full name of a class, with `$` before the name of a nested one: `java.util.Map$Entry`.
pub fn class_full(class: u32) -> &'static str
    requires { class < CLASS_COUNT }
    ensures { result.now ≡ full_name class }
{
    FULL_NAMES[class as usize]
}

/// The short name of a class, which is what follows the last dot of its full name: `Map$Entry`.
pub fn class_short(class: u32) -> &'static str
    requires { class < CLASS_COUNT }
    ensures { result.now ≡ short_name class }
{
    SHORT_NAMES[class as usize]
}

/// The parents of a class, in their order.
pub fn class_parents(class: u32) -> &'static [u32]
    requires { class < CLASS_COUNT }
    ensures { result.now ≡ parents_of class }
{
    PARENTS[class as usize]
}

/// A class and all that stands above it, depth first: the class, then each parent in order with what is above it. A
/// class that is reached in two ways stands there twice.
pub fn class_lineage(class: u32) -> &'static [u32]
    requires { class < CLASS_COUNT }
    ensures { result.now ≡ lineage_of class }
{
    LINEAGES[class as usize]
}

/// Whether a is b, or b stands above it.
pub fn class_below(a: u32, b: u32) -> bool
    ensures descends { IsTrue result ↔ Descends a b }
    ensures test { result ≡ class_is_below a b }
{
    if a < CLASS_COUNT {
        class_lineage(a).contains(&b)
    } else {
        a == b
    }
}

/// The laws of the lineage of classes.
pub fn class_laws()
    // A lineage is the class and then the lineages of its parents.
    ensures line { (a : ℕ) → lineage_of a ≡ a ∷ flat_map lineage_of (parents_of a) }
    // What stands below is what the parents lead to.
    ensures descends { (a b : ℕ) → IsTrue (class_is_below a b) ↔ Descends a b }
    ensures reflexive { (a : ℕ) → IsTrue (class_is_below a a) }
    ensures transitive { (a b c : ℕ) → IsTrue (class_is_below a b) → IsTrue (class_is_below b c) → IsTrue (class_is_below a c) }
    // Each name of a class's number is its place in the table.
    ensures numbers { class_numbers ≡ range_with_len 0 57 }
    ensures count { CLASS_COUNT ≡ 57 }
    // Parents stand before their classes.
    ensures earlier { (a : ℕ) → All (λ parent. parent < a) (parents_of a) }
{}
