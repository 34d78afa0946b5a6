//! Classes, casts, promotions, refusals and the texts of types.

ghost use Rattle.pl_types.specs.Classes.{class_is_below};

use pl_types::classes::{
    ARRAY_LIST, CHARACTER, CLASS_COUNT, COMPARABLE, ENTRY, EXCEPTION, HASH_SET, INTEGER, ITERABLE,
    LINKED_HASH_MAP, LINKED_HASH_SET, LIST, MAP, MATH, NUMBER, NUMBER_FORMAT_EXCEPTION, OBJECT,
    PRELUDE, SCRIPT_DOC_VALUES, STATIC_IMPORT, UNARY_OPERATOR,
};
use pl_types::rules::{
    ALLOW_SYNTAX, BACK_JUMP, BAD_TOKEN, FUNCTIONS_BAD, REFUSAL_COUNT, TOO_LARGE,
};
use pl_types::{
    Cast, Fail, Lineage, Primitive, Refusal, Ty, cast, class_below, class_full, class_of_full_name,
    class_short, literal_fits, name_of_rule, primitive_of_word, primitive_word, promote,
};
use std::alloc::{AllocError, Global};
use std::test;

/// The lineage of the catalogue.
struct Catalogue;

impl Lineage for Catalogue {
    ghost is_below = { λ _ a b. class_is_below a b };

    fn is_sub(&self, a: u32, b: u32) -> bool {
        class_below(a, b)
    }
}

/// From, to, the cast that is not written, and the one that is.
const CASTS: &str = "\
int|java.lang.Integer|wrap int int|wrap int int
int|java.lang.Long|wrap int long|wrap int long
int|java.lang.Byte|none|wrap int byte
int|java.lang.Number|wrap int int|wrap int int
int|java.lang.Comparable|wrap int int|wrap int int
int|java.lang.Object|wrap int int|wrap int int
int|java.lang.String|none|none
boolean|java.lang.Integer|none|none
char|java.lang.Number|none|none
char|java.lang.Integer|wrap char int|wrap char int
char|java.lang.String|none|char to text
java.lang.String|char|none|text to char
java.lang.String|int|none|none
java.lang.Integer|int|unwrap int int|unwrap int int
java.lang.Long|int|none|unwrap long int
java.lang.Character|int|unwrap char int|unwrap char int
java.lang.Integer|boolean|none|none
java.lang.Integer|java.lang.Number|keep|keep
java.lang.Number|java.lang.Integer|none|explicit
java.lang.Integer|java.lang.Long|none|none
java.util.List|java.util.Map|none|none
java.lang.Object|int|none|explicit
java.lang.Number|int|none|explicit
java.lang.Comparable|int|none|none
def|int|implicit|explicit
def|java.lang.String|implicit|explicit
def|def|keep|keep
int|def|wrap int int|wrap int int
java.lang.String|def|keep|keep
null|java.lang.String|keep|keep
null|def|keep|keep
null|null|keep|keep
null|int|none|none
def|null|none|none
void|void|none|none
void|def|none|none
def|void|none|none
int[]|int[]|keep|keep
int[]|int[][]|none|none
int[]|java.lang.Object|keep|keep
int[]|java.util.List|none|none
java.lang.Object|int[]|none|none";

/// From each primitive to boolean, byte, short, char, int and long: `=` the same, `w` widening and so implicit, `n`
/// narrowing and so explicit alone, `-` none. The Java Language Specification, 5.1.2 and 5.1.3.
const CONVERSIONS: [(&str, &str); 6] = [
    ("boolean", "=-----"),
    ("byte", "-=wnww"),
    ("short", "-n=nww"),
    ("char", "-nn=ww"),
    ("int", "-nnn=w"),
    ("long", "-nnnn="),
];

const PRIMITIVES: [&str; 6] = ["boolean", "byte", "short", "char", "int", "long"];

fn cast_name(cast: Option<Cast>) -> &'static str {
    match cast {
        None => "none",
        Some(Cast::Keep) => "keep",
        Some(Cast::Implicit) => "implicit",
        Some(Cast::Explicit) => "explicit",
        Some(Cast::CharToText) => "char to text",
        Some(Cast::TextToChar) => "text to char",
        Some(Cast::Number(_, _)) => "number",
        Some(Cast::Wrap(_, _)) => "wrap",
        Some(Cast::Unwrap(_, _)) => "unwrap",
    }
}

fn cast_types(cast: Option<Cast>) -> Option<(Primitive, Primitive)> {
    match cast {
        Some(Cast::Number(from, to)) => Some((from, to)),
        Some(Cast::Wrap(from, to)) => Some((from, to)),
        Some(Cast::Unwrap(from, to)) => Some((from, to)),
        _ => None,
    }
}

fn cast_text(alloc: Global, cast: Option<Cast>) -> Result<String, AllocError> {
    let name = cast_name(cast);
    let Some((from, to)) = cast_types(cast) else {
        return String::from_str(alloc, name);
    };
    let (from, to) = (primitive_word(from), primitive_word(to));
    format!(in alloc; "{name} {from} {to}")
}

/// Whether the cast between types, given by their texts, has this text.
fn casts(
    alloc: Global,
    from: &str,
    to: &str,
    explicit: bool,
    wanted: &str,
) -> Result<bool, AllocError> {
    match Ty::of_full_text(alloc, from.as_bytes())? {
        Some(from) => casts_from(alloc, &from, to, explicit, wanted),
        None => Ok(false),
    }
}

fn casts_from(
    alloc: Global,
    from: &Ty,
    to: &str,
    explicit: bool,
    wanted: &str,
) -> Result<bool, AllocError> {
    match Ty::of_full_text(alloc, to.as_bytes())? {
        Some(to) => has_text(alloc, cast(&Catalogue, from, &to, explicit), wanted),
        None => Ok(false),
    }
}

fn has_text(alloc: Global, cast: Option<Cast>, wanted: &str) -> Result<bool, AllocError> {
    let given = cast_text(alloc, cast)?;
    Ok(given.as_str() == wanted)
}

/// Whether the two casts of a line are those between its types.
fn is_so(alloc: Global, line: &str) -> Result<bool, AllocError> {
    let Some((from, line)) = line.split_once('|') else {
        return Ok(false);
    };
    let Some((to, line)) = line.split_once('|') else {
        return Ok(false);
    };
    let Some((added, written)) = line.split_once('|') else {
        return Ok(false);
    };
    let implicit = casts(alloc, from, to, false, added)?;
    let explicit = casts(alloc, from, to, true, written)?;
    Ok(implicit && explicit)
}

#[test]
fn casts_of_each_kind(rt: HostRuntime) -> Result<(), test::Fail> {
    for line in CASTS.lines() {
        let so = is_so(rt.alloc(), line)?;
        assert!(rt; so, "{line}");
    }
    Ok(())
}

/// The cast that a mark of the table of conversions says.
fn marked(
    alloc: Global,
    mark: u8,
    explicit: bool,
    from: &str,
    to: &str,
) -> Result<String, AllocError> {
    match mark {
        b'=' => String::from_str(alloc, "keep"),
        b'w' => format!(in alloc; "number {from} {to}"),
        b'n' if explicit => format!(in alloc; "number {from} {to}"),
        _ => String::from_str(alloc, "none"),
    }
}

#[test]
fn primitives_as_in_java(rt: HostRuntime) -> Result<(), test::Fail> {
    for (from, row) in &CONVERSIONS {
        for (to, mark) in PRIMITIVES.iter().zip(row.as_bytes()) {
            for explicit in [false, true] {
                let wanted = marked(rt.alloc(), *mark, explicit, *from, *to)?;
                let as_wanted = casts(rt.alloc(), *from, *to, explicit, wanted.as_str())?;
                assert!(rt; as_wanted, "{from} to {to}");
            }
        }
    }
    Ok(())
}

/// Types in full and short.
const TEXTS: [(&str, &str); 9] = [
    ("void", "void"),
    ("null", "null"),
    ("def", "def"),
    ("def[]", "def[]"),
    ("int[][]", "int[][]"),
    ("java.util.List[]", "List[]"),
    ("java.util.Map$Entry", "Map$Entry"),
    ("java.util.Map$Entry[][]", "Map$Entry[][]"),
    ("Prelude", "Prelude"),
];

/// No texts of types.
const NO_TYPES: [&str; 12] = [
    "",
    "[]",
    "List",
    "Map$Entry",
    "java.util.Map.Entry",
    "java.util.lists",
    "int[",
    "int[]]",
    "int []",
    "[]int",
    "Int",
    "def ",
];

fn has_texts(alloc: Global, full: &str, short: &str) -> Result<bool, AllocError> {
    match Ty::of_full_text(alloc, full.as_bytes())? {
        Some(ty) => texts_are(alloc, &ty, full, short),
        None => Ok(false),
    }
}

fn texts_are(alloc: Global, ty: &Ty, full: &str, short: &str) -> Result<bool, AllocError> {
    let full_is = full_text_is(alloc, ty, full)?;
    let short_is = short_text_is(alloc, ty, short)?;
    let copied = is_copied(alloc, ty)?;
    Ok(full_is && short_is && copied)
}

fn full_text_is(alloc: Global, ty: &Ty, wanted: &str) -> Result<bool, AllocError> {
    let text = ty.full_text(alloc)?;
    Ok(text.as_str() == wanted)
}

fn short_text_is(alloc: Global, ty: &Ty, wanted: &str) -> Result<bool, AllocError> {
    let text = ty.short_text(alloc)?;
    Ok(text.as_str() == wanted)
}

fn is_copied(alloc: Global, ty: &Ty) -> Result<bool, AllocError> {
    let copy = ty.share(alloc)?;
    Ok(ty.is(&copy))
}

fn is_keyword(word: &str) -> bool {
    match primitive_of_word(word.as_bytes()) {
        Some(primitive) => primitive_word(primitive) == word,
        None => false,
    }
}

fn is_no_type(alloc: Global, text: &str) -> Result<bool, AllocError> {
    let read = Ty::of_full_text(alloc, text.as_bytes())?;
    Ok(read.is_none())
}

#[test]
fn texts_of_types(rt: HostRuntime) -> Result<(), test::Fail> {
    for (full, short) in &TEXTS {
        let same = has_texts(rt.alloc(), *full, *short)?;
        assert!(rt; same, "{full}");
    }
    for text in &NO_TYPES {
        let none = is_no_type(rt.alloc(), *text)?;
        assert!(rt; none, "{text}");
    }
    for word in &PRIMITIVES {
        assert!(rt; is_keyword(*word), "{word}");
    }
    Ok(())
}

const LINEAGE: [(u32, u32, bool); 11] = [
    (ARRAY_LIST, ITERABLE, true),
    (LINKED_HASH_SET, HASH_SET, true),
    (LINKED_HASH_SET, OBJECT, true),
    (LINKED_HASH_MAP, MAP, true),
    (LINKED_HASH_MAP, ITERABLE, false),
    (NUMBER_FORMAT_EXCEPTION, EXCEPTION, true),
    (SCRIPT_DOC_VALUES, LIST, true),
    (INTEGER, COMPARABLE, true),
    (CHARACTER, NUMBER, false),
    (OBJECT, MATH, false),
    (UNARY_OPERATOR, UNARY_OPERATOR, true),
];

fn has_names(class: u32, full: &str, short: &str) -> bool {
    if class >= CLASS_COUNT {
        return false;
    }
    let found = class_of_full_name(full) == Some(class);
    found && class_full(class) == full && class_short(class) == short
}

#[test]
fn lineage_and_names(rt: HostRuntime) {
    for (a, b, below) in LINEAGE {
        let so = class_below(a, b) == below;
        assert!(rt; so);
    }
    assert!(rt; has_names(OBJECT, "java.lang.Object", "Object"));
    assert!(rt; has_names(ENTRY, "java.util.Map$Entry", "Map$Entry"));
    assert!(rt; has_names(PRELUDE, "Prelude", "Prelude"));
    assert!(rt; has_names(STATIC_IMPORT, "static_import", "static_import"));
    assert!(rt; class_of_full_name("Map$Entry").is_none());
    assert!(rt; class_of_full_name("java.util.Map.Entry").is_none());
}

/// Two primitives, and what they are promoted to.
const PROMOTIONS: [(Primitive, Primitive, Option<Primitive>); 3] = [
    (Primitive::Byte, Primitive::Char, Some(Primitive::Int)),
    (Primitive::Short, Primitive::Long, Some(Primitive::Long)),
    (Primitive::Boolean, Primitive::Boolean, None),
];

const LITERALS: [(i32, Primitive, bool); 5] = [
    (-128, Primitive::Byte, true),
    (128, Primitive::Byte, false),
    (65535, Primitive::Char, true),
    (-1, Primitive::Char, false),
    (5, Primitive::Long, false),
];

const REFUSALS: [(u8, u8, &str); 5] = [
    (BAD_TOKEN, 1, "BadToken"),
    (TOO_LARGE, 20, "TooLarge"),
    (ALLOW_SYNTAX, 23, "AllowSyntax"),
    (BACK_JUMP, 32, "BackJump"),
    (FUNCTIONS_BAD, 34, "FunctionsBad"),
];

#[test]
fn promotions_literals_and_refusals(rt: HostRuntime) -> Result<(), test::Fail> {
    for (a, b, wanted) in PROMOTIONS {
        assert!(rt; promote(a, b) == wanted);
    }
    for (value, wanted, fits) in LITERALS {
        assert!(rt; literal_fits(value, wanted) == fits, "{value}");
    }
    for (number, wanted, name) in &REFUSALS {
        assert!(rt; *number == *wanted);
        assert!(rt; 1 <= *number && *number <= REFUSAL_COUNT);
        assert!(rt; name_of_rule(*number) == *name, "{name}");
    }
    let refused = Fail::Refused(Refusal {
        number: 2,
        offset: 7,
    });
    let text = format!(in rt.alloc(); "{refused}")?;
    assert!(rt; text.as_str() == "the script is refused by rule 2 at byte 7");
    Ok(())
}
