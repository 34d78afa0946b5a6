//! Rows of the members of String.
use super::rows::Arg::{self, Int, Null, Object, Units, Word};
use super::rows::{Row, Wanted};
use super::running::first_wrong;
use std::test::Fail;

// 😀, which is the pair of units D83D and DE00.
const FACE: Arg = Units(&[0xD83D, 0xDE00]);

const SEQUENCES: [Row; 10] = [
    (3, &[Word("abc"), Int(0)], Wanted::Char(97), 0),
    (3, &[Word("abc"), Int(2)], Wanted::Char(99), 0),
    (3, &[FACE, Int(1)], Wanted::Char(0xDE00), 0),
    (3, &[Object(0), Int(1)], Wanted::Char(98), 0),
    (
        3,
        &[Word("abc"), Int(3)],
        Wanted::Index("Index 3 out of bounds for length 3"),
        35,
    ),
    (
        3,
        &[Word(""), Int(-1)],
        Wanted::Index("Index -1 out of bounds for length 0"),
        36,
    ),
    (4, &[Word("")], Wanted::Int(0), 0),
    (4, &[FACE], Wanted::Int(2), 0),
    (4, &[Object(0)], Wanted::Int(3), 0),
    (4, &[Null], Wanted::NullPointer, 1),
];

const SEARCHES: [Row; 45] = [
    (61, &[Word("abc"), Word("bc")], Wanted::Flag(true), 0),
    (61, &[Word("abc"), Word("")], Wanted::Flag(true), 0),
    (61, &[Word(""), Word("")], Wanted::Flag(true), 0),
    (61, &[Word("ab"), Word("abc")], Wanted::Flag(false), 0),
    (61, &[Word("xabcx"), Object(0)], Wanted::Flag(true), 0),
    (61, &[FACE, Units(&[0xDE00])], Wanted::Flag(true), 0),
    (61, &[Word("abc"), Null], Wanted::NullPointer, 1),
    (62, &[Word("abc"), Word("bc")], Wanted::Flag(true), 0),
    (62, &[Word("abc"), Word("")], Wanted::Flag(true), 0),
    (62, &[Word("bc"), Word("abc")], Wanted::Flag(false), 0),
    (62, &[Word("abc"), Word("b")], Wanted::Flag(false), 0),
    (62, &[Word("abc"), Null], Wanted::NullPointer, 1),
    (63, &[Word("aZ[~"), Word("Az[~")], Wanted::Flag(true), 0),
    (63, &[Word("a"), Word("ab")], Wanted::Flag(false), 0),
    (63, &[Word("ab"), Word("a")], Wanted::Flag(false), 0),
    (63, &[Word("ä"), Word("Ä")], Wanted::Flag(false), 0),
    (63, &[Word("@"), Word("`")], Wanted::Flag(false), 0),
    (63, &[Word(""), Word("")], Wanted::Flag(true), 0),
    (63, &[Word(""), Null], Wanted::Flag(false), 0),
    (64, &[Word("abcabc"), Word("ca")], Wanted::Int(2), 0),
    (64, &[Word("abc"), Word("")], Wanted::Int(0), 0),
    (64, &[Word("abc"), Word("d")], Wanted::Int(-1), 0),
    (64, &[Word("abc"), Null], Wanted::NullPointer, 1),
    (65, &[Word("abab"), Word("ab"), Int(1)], Wanted::Int(2), 0),
    (65, &[Word("abab"), Word("ab"), Int(3)], Wanted::Int(-1), 0),
    (65, &[Word("abab"), Word("ab"), Int(-5)], Wanted::Int(0), 0),
    (65, &[Word("abab"), Word(""), Int(9)], Wanted::Int(4), 0),
    (65, &[Word("abab"), Word("b"), Int(9)], Wanted::Int(-1), 0),
    (66, &[Word("")], Wanted::Flag(true), 0),
    (66, &[Word("a")], Wanted::Flag(false), 0),
    (67, &[Word("abab"), Word("ab")], Wanted::Int(2), 0),
    (67, &[Word("abab"), Word("")], Wanted::Int(4), 0),
    (67, &[Word("abab"), Word("c")], Wanted::Int(-1), 0),
    (67, &[Word("abab"), Null], Wanted::NullPointer, 1),
    (71, &[Word("abc"), Word("ab")], Wanted::Flag(true), 0),
    (71, &[Word("abc"), Word("")], Wanted::Flag(true), 0),
    (71, &[Word("ab"), Word("abc")], Wanted::Flag(false), 0),
    (71, &[Word("ab"), Null], Wanted::NullPointer, 1),
    (
        72,
        &[Word("abc"), Word("bc"), Int(1)],
        Wanted::Flag(true),
        0,
    ),
    (
        72,
        &[Word("abc"), Word("ab"), Int(1)],
        Wanted::Flag(false),
        0,
    ),
    (72, &[Word("abc"), Word(""), Int(3)], Wanted::Flag(true), 0),
    (72, &[Word("abc"), Word(""), Int(4)], Wanted::Flag(false), 0),
    (
        72,
        &[Word("abc"), Word(""), Int(-1)],
        Wanted::Flag(false),
        0,
    ),
    (72, &[Word("abc"), Null, Int(-1)], Wanted::NullPointer, 1),
    (83, &[Object(0), Word("c")], Wanted::Int(2), 0),
];

const PARTS: [Row; 34] = [
    (59, &[Null], Wanted::Word("null"), 5),
    (59, &[Int(-7)], Wanted::Word("-7"), 3),
    (59, &[Object(0)], Wanted::Word("abc"), 4),
    (59, &[Object(7)], Wanted::Word("[k=1, l=null]"), 14),
    (
        59,
        &[Object(10)],
        Wanted::State("value nested too deeply"),
        24,
    ),
    (60, &[Word("ab"), Word("c")], Wanted::Word("abc"), 4),
    (60, &[Word(""), Word("")], Wanted::Word(""), 1),
    (
        60,
        &[Units(&[0xD83D]), Units(&[0xDE00])],
        Wanted::Word("😀"),
        3,
    ),
    (60, &[Word("ab"), Null], Wanted::NullPointer, 1),
    (73, &[Word("abc"), Int(1)], Wanted::Word("bc"), 3),
    (73, &[Word("abc"), Int(3)], Wanted::Word(""), 1),
    (
        73,
        &[Word("abc"), Int(4)],
        Wanted::Index("Index 4 out of bounds for length 3"),
        35,
    ),
    (
        73,
        &[Word("abc"), Int(-1)],
        Wanted::Index("Index -1 out of bounds for length 3"),
        36,
    ),
    (74, &[Word("abcd"), Int(1), Int(3)], Wanted::Word("bc"), 3),
    (74, &[Word("abcd"), Int(4), Int(4)], Wanted::Word(""), 1),
    (74, &[FACE, Int(0), Int(1)], Wanted::Units(&[0xD83D]), 2),
    (
        74,
        &[Word("abc"), Int(2), Int(1)],
        Wanted::Index("Index 1 out of bounds for length 3"),
        35,
    ),
    (
        74,
        &[Word("abc"), Int(1), Int(4)],
        Wanted::Index("Index 4 out of bounds for length 3"),
        35,
    ),
    (
        74,
        &[Word("abc"), Int(5), Int(4)],
        Wanted::Index("Index 5 out of bounds for length 3"),
        35,
    ),
    (
        74,
        &[Word("abc"), Int(-2), Int(-1)],
        Wanted::Index("Index -2 out of bounds for length 3"),
        36,
    ),
    (75, &[Word("ab")], Wanted::Chars(&[97, 98]), 3),
    (75, &[Word("")], Wanted::Chars(&[]), 1),
    (75, &[FACE], Wanted::Chars(&[0xD83D, 0xDE00]), 3),
    (75, &[Null], Wanted::NullPointer, 1),
    (76, &[Word("AZaz@[Ä")], Wanted::Word("azaz@[Ä"), 8),
    (76, &[Word("")], Wanted::Word(""), 1),
    (77, &[Word("AZaz`{ä")], Wanted::Word("AZAZ`{ä"), 8),
    (77, &[Null], Wanted::NullPointer, 1),
    (78, &[Word(" \t a b\n")], Wanted::Word("a b"), 4),
    (78, &[Word("  ")], Wanted::Word(""), 1),
    (78, &[Word("")], Wanted::Word(""), 1),
    (78, &[Units(&[0, 33, 31])], Wanted::Word("!"), 2),
    (
        78,
        &[Units(&[0xA0, 97, 0x2003])],
        Wanted::Units(&[0xA0, 97, 0x2003]),
        4,
    ),
    (78, &[Null], Wanted::NullPointer, 1),
];

const REPLACEMENTS: [Row; 14] = [
    (
        68,
        &[Word("aaa"), Word("a"), Word("b")],
        Wanted::Word("bbb"),
        4,
    ),
    (
        68,
        &[Word("aaa"), Word("aa"), Word("b")],
        Wanted::Word("ba"),
        3,
    ),
    (
        68,
        &[Word("abc"), Word("b"), Word("")],
        Wanted::Word("ac"),
        3,
    ),
    (
        68,
        &[Word("abc"), Word("d"), Word("x")],
        Wanted::Word("abc"),
        4,
    ),
    (
        68,
        &[Word("abc"), Word("abc"), Word("")],
        Wanted::Word(""),
        1,
    ),
    (
        68,
        &[Word("ab"), Word(""), Word("-")],
        Wanted::Word("-a-b-"),
        6,
    ),
    (68, &[Word(""), Word(""), Word("-")], Wanted::Word("-"), 2),
    (68, &[Word(""), Word("a"), Word("-")], Wanted::Word(""), 1),
    (68, &[Word("ab"), Word(""), Word("")], Wanted::Word("ab"), 3),
    (
        68,
        &[Word("xabcx"), Object(0), Word("y")],
        Wanted::Word("xyx"),
        4,
    ),
    (
        68,
        &[Word("xx"), Word("x"), Object(0)],
        Wanted::Word("abcabc"),
        7,
    ),
    (
        68,
        &[FACE, Units(&[0xD83D]), Word("a")],
        Wanted::Units(&[97, 0xDE00]),
        3,
    ),
    (68, &[Word("ab"), Null, Word("a")], Wanted::NullPointer, 1),
    (68, &[Word("ab"), Word("a"), Null], Wanted::NullPointer, 1),
];

const SPLITS: [Row; 19] = [
    (69, &[Word("a,b"), Word(",")], Wanted::Texts(&["a", "b"]), 7),
    (
        69,
        &[Word(",a,,b,"), Word(",")],
        Wanted::Texts(&["", "a", "", "b", ""]),
        13,
    ),
    (69, &[Word(""), Word(",")], Wanted::Texts(&[""]), 3),
    (69, &[Word("ab"), Word(",")], Wanted::Texts(&["ab"]), 5),
    (69, &[Word("ab"), Word("")], Wanted::Texts(&["ab"]), 5),
    (69, &[Word("ab"), Null], Wanted::Texts(&["ab"]), 5),
    (69, &[Word("aaa"), Word("aa")], Wanted::Texts(&["", "a"]), 6),
    (69, &[Word("ab"), Word("ab")], Wanted::Texts(&["", ""]), 5),
    (
        70,
        &[Word("a,b,c"), Word(","), Int(1)],
        Wanted::Texts(&["a,b,c"]),
        8,
    ),
    (
        70,
        &[Word("a,b,c"), Word(","), Int(2)],
        Wanted::Texts(&["a", "b,c"]),
        9,
    ),
    (
        70,
        &[Word("a,b,c"), Word(","), Int(3)],
        Wanted::Texts(&["a", "b", "c"]),
        10,
    ),
    (
        70,
        &[Word("a,b,c"), Word(","), Int(9)],
        Wanted::Texts(&["a", "b", "c"]),
        10,
    ),
    (
        70,
        &[Word("a,b,c"), Word(","), Int(0)],
        Wanted::Texts(&["a", "b", "c"]),
        10,
    ),
    (
        70,
        &[Word("a,b,c"), Word(","), Int(-1)],
        Wanted::Texts(&["a", "b", "c"]),
        10,
    ),
    (
        70,
        &[Word(",,"), Word(","), Int(2)],
        Wanted::Texts(&["", ","]),
        6,
    ),
    (
        70,
        &[Word("ab"), Word(""), Int(1)],
        Wanted::Texts(&["ab"]),
        5,
    ),
    (70, &[Word("ab"), Null, Int(2)], Wanted::Texts(&["ab"]), 5),
    (70, &[Null, Word(","), Int(2)], Wanted::NullPointer, 1),
    (69, &[Null, Word(",")], Wanted::NullPointer, 1),
];

const JOINS: [Row; 10] = [
    (58, &[Word(", "), Object(1)], Wanted::Word("a, null, 1"), 11),
    (58, &[Word(""), Object(1)], Wanted::Word("anull1"), 7),
    (58, &[Word("-"), Object(2)], Wanted::Word(""), 1),
    (58, &[Word("-"), Object(3)], Wanted::Word("x-y"), 4),
    (58, &[Word("-"), Object(5)], Wanted::Word("k-l"), 4),
    (58, &[Word("-"), Object(6)], Wanted::Word("1-null"), 7),
    (
        58,
        &[Object(0), Object(7)],
        Wanted::Word("k=1abcl=null"),
        13,
    ),
    (
        58,
        &[Word("-"), Object(10)],
        Wanted::State("value nested too deeply"),
        24,
    ),
    (58, &[Null, Object(1)], Wanted::NullPointer, 1),
    (58, &[Word("-"), Null], Wanted::NullPointer, 1),
];

#[test]
fn texts_and_builders_by_their_units(rt: HostRuntime) -> Result<(), Fail> {
    let wrong = first_wrong(rt.alloc(), &SEQUENCES)?;
    assert!(rt; wrong == 0, "row {wrong}");
    let wrong = first_wrong(rt.alloc(), &SEARCHES)?;
    assert!(rt; wrong == 0, "row {wrong}");
    Ok(())
}

#[test]
fn texts_that_are_made(rt: HostRuntime) -> Result<(), Fail> {
    let wrong = first_wrong(rt.alloc(), &PARTS)?;
    assert!(rt; wrong == 0, "row {wrong}");
    let wrong = first_wrong(rt.alloc(), &REPLACEMENTS)?;
    assert!(rt; wrong == 0, "row {wrong}");
    Ok(())
}

#[test]
fn texts_that_are_split_and_joined(rt: HostRuntime) -> Result<(), Fail> {
    let wrong = first_wrong(rt.alloc(), &SPLITS)?;
    assert!(rt; wrong == 0, "row {wrong}");
    let wrong = first_wrong(rt.alloc(), &JOINS)?;
    assert!(rt; wrong == 0, "row {wrong}");
    Ok(())
}
