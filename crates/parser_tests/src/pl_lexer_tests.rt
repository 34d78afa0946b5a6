//! Scripts and their tokens, and scripts that have none.

use pl_lexer::{MOST_BYTES, each_text_has_one_reading, lex};
use pl_types::{Fail, TypeNames};
use std::alloc::{AllocError, Global};
use std::test::Fail as TestFail;

// Five classes, by their full and their short names.
struct Classes;

impl TypeNames for Classes {
    ghost use Rattle.std.specs.Prelude.{codes, [], ◌∷◌};
    ghost use Rattle.pl_lexer.specs.Tables.{look_up};

    ghost class_of = { λ _ name. look_up name
        ((codes "List", 1) ∷ (codes "java.util.List", 1) ∷ (codes "Map", 2) ∷ (codes "Map.Entry", 3)
        ∷ (codes "java.util.Map.Entry", 3) ∷ []) };

    fn class_named(&self, name: &str) -> Option<u32> {
        if name == "List" {
            Some(1)
        } else if name == "java.util.List" {
            Some(1)
        } else if name == "Map" {
            Some(2)
        } else if name == "Map.Entry" {
            Some(3)
        } else if name == "java.util.Map.Entry" {
            Some(3)
        } else {
            None
        }
    }
}

// The tokens of a script with their places, or its refusal.
fn reading(alloc: Global, text: &str) -> Result<String, AllocError> {
    match lex(alloc, text, &Classes) {
        Ok(tokens) => {
            let mut line = String::new(alloc);
            for token in &tokens {
                let kind = token.kind;
                let start = token.start;
                let end = token.end;
                let part = format!(in alloc; "{kind:?} {start} {end};")?;
                line.push_str(part.as_str())?;
            }
            Ok(line)
        }
        Err(Fail::Refused(refusal)) => {
            let number = refusal.number;
            let offset = refusal.offset;
            format!(in alloc; "refused by {number} at {offset}")
        }
        Err(Fail::NoMemory) => Err(AllocError),
    }
}

fn is_read(alloc: Global, text: &str, wanted: &str) -> Result<bool, AllocError> {
    let read = reading(alloc, text)?;
    Ok(read.as_str() == wanted)
}

const NUMBERS: [(&str, &str); 25] = [
    ("0", "Integer 0 1;"),
    ("00", "Integer 0 2;"),
    ("010", "Integer 0 3;"),
    ("08", "Integer 0 1;Integer 1 2;"),
    ("08L", "Integer 0 1;Integer 1 3;"),
    ("0x", "Integer 0 1;Name 1 2;"),
    ("0x1Fl", "Integer 0 5;"),
    ("0x1f", "Integer 0 4;"),
    ("1L", "Integer 0 2;"),
    ("1.", "Integer 0 1;Sign(Dot) 1 2;"),
    (
        "1..2",
        "Integer 0 1;Sign(Dot) 1 2;Sign(Dot) 2 3;DotInteger 3 4;",
    ),
    ("010.5", "Integer 0 3;Sign(Dot) 3 4;DotInteger 4 5;"),
    ("1e", "Integer 0 1;Name 1 2;"),
    ("1e+", "Integer 0 1;Name 1 2;Sign(Plus) 2 3;"),
    ("1.5", "refused by 19 at 0"),
    ("1e5", "refused by 19 at 0"),
    ("1E+5", "refused by 19 at 0"),
    ("1f", "refused by 19 at 0"),
    ("0D", "refused by 19 at 0"),
    ("1.5e-3d", "refused by 19 at 0"),
    ("a.0", "Name 0 1;Sign(Dot) 1 2;DotInteger 2 3;"),
    ("a.05", "Name 0 1;Sign(Dot) 1 2;DotInteger 2 3;Integer 3 4;"),
    ("a?.0", "Name 0 1;Sign(NullDot) 1 3;DotInteger 3 4;"),
    ("x?.5", "Name 0 1;Sign(NullDot) 1 3;DotInteger 3 4;"),
    (
        "a.1.5",
        "Name 0 1;Sign(Dot) 1 2;DotInteger 2 3;Sign(Dot) 3 4;DotInteger 4 5;",
    ),
];

#[test]
fn numbers(rt: HostRuntime) -> Result<(), TestFail> {
    for (text, wanted) in &NUMBERS {
        let read = is_read(rt.alloc(), *text, *wanted)?;
        assert!(rt; read, "{text:?}");
    }
    Ok(())
}

const WORDS: [(&str, &str); 24] = [
    (
        "a.b.c",
        "Name 0 1;Sign(Dot) 1 2;DotName 2 3;Sign(Dot) 3 4;DotName 4 5;",
    ),
    ("a?.b", "Name 0 1;Sign(NullDot) 1 3;DotName 3 4;"),
    ("a.if", "Name 0 1;Sign(Dot) 1 2;DotName 2 4;"),
    ("a. if", "Name 0 1;Sign(Dot) 1 2;DotName 3 5;"),
    ("a.float", "Name 0 1;Sign(Dot) 1 2;DotName 2 7;"),
    ("a./* x */b", "Name 0 1;Sign(Dot) 1 2;DotName 9 10;"),
    ("java.util.List", "ClassName(1) 0 14;"),
    ("java . util", "Name 0 4;Sign(Dot) 5 6;DotName 7 11;"),
    ("Map.Entry", "ClassName(3) 0 9;"),
    ("Map.Entry2", "ClassName(2) 0 3;Sign(Dot) 3 4;DotName 4 10;"),
    (
        "java.util.Map.Entry.x",
        "ClassName(3) 0 19;Sign(Dot) 19 20;DotName 20 21;",
    ),
    ("java.util", "Name 0 4;Sign(Dot) 4 5;DotName 5 9;"),
    ("x.List", "Name 0 1;Sign(Dot) 1 2;DotName 2 6;"),
    ("List", "ClassName(1) 0 4;"),
    ("List2", "Name 0 5;"),
    ("T::new", "Name 0 1;Sign(ColonColon) 1 3;Word(New) 3 6;"),
    ("_if0 iff", "Name 0 4;Name 5 8;"),
    (
        "if else while do for in continue",
        "Word(If) 0 2;Word(Else) 3 7;Word(While) 8 13;Word(Do) 14 16;Word(For) 17 20;Word(In) 21 23;Word(Continue) 24 32;",
    ),
    (
        "break return new try catch throw",
        "Word(Break) 0 5;Word(Return) 6 12;Word(New) 13 16;Word(Try) 17 20;Word(Catch) 21 26;Word(Throw) 27 32;",
    ),
    (
        "this instanceof true false null def",
        "Word(This) 0 4;Word(Instanceof) 5 15;Word(True) 16 20;Word(False) 21 26;Word(Null) 27 31;Word(Def) 32 35;",
    ),
    (
        "boolean byte short char int long",
        "Prim(Boolean) 0 7;Prim(Byte) 8 12;Prim(Short) 13 18;Prim(Char) 19 23;Prim(Int) 24 27;Prim(Long) 28 32;",
    ),
    ("finally", "refused by 19 at 0"),
    ("x double", "refused by 19 at 2"),
    ("float", "refused by 19 at 0"),
];

#[test]
fn words(rt: HostRuntime) -> Result<(), TestFail> {
    for (text, wanted) in &WORDS {
        let read = is_read(rt.alloc(), *text, *wanted)?;
        assert!(rt; read, "{text:?}");
    }
    Ok(())
}

const SIGNS: [(&str, &str); 12] = [
    ("x===y", "Name 0 1;Sign(Same) 1 4;Name 4 5;"),
    (
        "x>>>=1",
        "Name 0 1;Sign(ShiftRightUnsignedAssign) 1 5;Integer 5 6;",
    ),
    ("a->b", "Name 0 1;Sign(Arrow) 1 3;Name 3 4;"),
    ("?:", "Sign(Elvis) 0 2;"),
    ("?.", "Sign(NullDot) 0 2;"),
    ("x=~y", "refused by 19 at 1"),
    ("x==~y", "refused by 19 at 1"),
    (
        "x=!~y",
        "Name 0 1;Sign(Assign) 1 2;Sign(Not) 2 3;Sign(Tilde) 3 4;Name 4 5;",
    ),
    (
        "()[]{},;?:",
        "Sign(LeftParen) 0 1;Sign(RightParen) 1 2;Sign(LeftBracket) 2 3;Sign(RightBracket) 3 4;Sign(LeftBrace) 4 5;Sign(RightBrace) 5 6;Sign(Comma) 6 7;Sign(Semicolon) 7 8;Sign(Elvis) 8 10;",
    ),
    (
        "+ - * / % ++ -- < > & ^ | ?",
        "Sign(Plus) 0 1;Sign(Minus) 2 3;Sign(Star) 4 5;Sign(Slash) 6 7;Sign(Percent) 8 9;Sign(Increment) 10 12;Sign(Decrement) 13 15;Sign(Less) 16 17;Sign(Greater) 18 19;Sign(And) 20 21;Sign(Xor) 22 23;Sign(Or) 24 25;Sign(Question) 26 27;",
    ),
    (
        "<< >> >>> <= >= == != !== && || :",
        "Sign(ShiftLeft) 0 2;Sign(ShiftRight) 3 5;Sign(ShiftRightUnsigned) 6 9;Sign(LessEqual) 10 12;Sign(GreaterEqual) 13 15;Sign(Equal) 16 18;Sign(NotEqual) 19 21;Sign(NotSame) 22 25;Sign(AndAnd) 26 28;Sign(OrOr) 29 31;Sign(Colon) 32 33;",
    ),
    (
        "+= -= *= /= %= &= ^= |= <<= >>=",
        "Sign(AddAssign) 0 2;Sign(SubtractAssign) 3 5;Sign(MultiplyAssign) 6 8;Sign(DivideAssign) 9 11;Sign(RemainderAssign) 12 14;Sign(AndAssign) 15 17;Sign(XorAssign) 18 20;Sign(OrAssign) 21 23;Sign(ShiftLeftAssign) 24 27;Sign(ShiftRightAssign) 28 31;",
    ),
];

#[test]
fn signs(rt: HostRuntime) -> Result<(), TestFail> {
    for (text, wanted) in &SIGNS {
        let read = is_read(rt.alloc(), *text, *wanted)?;
        assert!(rt; read, "{text:?}");
    }
    Ok(())
}

const ENCLOSED: [(&str, &str); 23] = [
    ("", ""),
    (" \t\r\n", ""),
    ("/**/", ""),
    ("1/**/2", "Integer 0 1;Integer 5 6;"),
    ("1//", "Integer 0 1;"),
    ("1// x\r2", "Integer 0 1;Integer 6 7;"),
    ("1//*\n2", "Integer 0 1;Integer 5 6;"),
    ("a /* \u{e9} ** /**/ b", "Name 0 1;Name 16 17;"),
    ("/*/", "refused by 1 at 0"),
    ("1 /* x *", "refused by 1 at 2"),
    ("'a\nb'", "Text 0 5;"),
    ("'\\''", "Text 0 4;"),
    ("\"\\\\\"", "Text 0 4;"),
    ("'it\"s'", "Text 0 6;"),
    ("''\"\"", "Text 0 2;Text 2 4;"),
    ("'\u{1f600}'", "Text 0 6;"),
    ("1'x", "refused by 1 at 1"),
    ("'\\n'", "refused by 1 at 0"),
    ("'\\\"'", "refused by 1 at 0"),
    ("'\\", "refused by 1 at 0"),
    ("'\u{e9}' \u{e9}", "refused by 1 at 5"),
    ("\0", "refused by 1 at 0"),
    ("1 # '", "refused by 1 at 2"),
];

#[test]
fn texts_and_comments(rt: HostRuntime) -> Result<(), TestFail> {
    for (text, wanted) in &ENCLOSED {
        let read = is_read(rt.alloc(), *text, *wanted)?;
        assert!(rt; read, "{text:?}");
    }
    Ok(())
}

#[test]
fn sizes(rt: HostRuntime) -> Result<(), TestFail> {
    each_text_has_one_reading();
    let mut text = String::new(rt.alloc());
    for _ in 0..MOST_BYTES {
        text.push_str("x")?;
    }
    let largest = is_read(rt.alloc(), text.as_str(), "Name 0 65535;")?;
    text.push_str("x")?;
    let larger = is_read(rt.alloc(), text.as_str(), "refused by 20 at 65535")?;
    assert!(rt; largest && larger);
    Ok(())
}
