//! Rows of operators and casts.
use super::rows::Row::{self, Byte, Char, Flag, Int, Long, Null, Object, Short, Throws, Word};
use super::rows::{gave, sample, value};
use number_ops::{Op, concatenate, def_op, to_type};
use object_heap::Answer;
use pl_types::classes::{BYTE, CHARACTER, COMPARABLE, INTEGER, LIST, LONG, NUMBER, OBJECT, STRING};
use pl_types::{Primitive, Ty};
use plain_data::Boxed;
use std::alloc::{AllocError, Global};
use std::test::Fail;

const LEAST: i32 = -2_147_483_648;

const LEAST_LONG: i64 = -9_223_372_036_854_775_808;

fn operates(alloc: Global, op: Op, a: Row, b: Row, wanted: Row) -> Result<bool, AllocError> {
    let mut heap = sample(alloc)?;
    let left = value(alloc, a)?;
    let right = value(alloc, b)?;
    let answer = def_op(&mut heap, op, &left, &right);
    gave(&heap, &answer, wanted, true)
}

// Promotion: what `+` gives of each pair of kinds.
const SUMS: [(Row, Row, Row); 40] = [
    (Byte(1), Byte(2), Int(3)),
    (Byte(1), Short(2), Int(3)),
    (Byte(1), Char(2), Int(3)),
    (Byte(1), Int(2), Int(3)),
    (Byte(1), Long(2), Long(3)),
    (Short(1), Short(2), Int(3)),
    (Short(1), Char(2), Int(3)),
    (Short(1), Int(2), Int(3)),
    (Short(1), Long(2), Long(3)),
    (Char(1), Char(2), Int(3)),
    (Char(1), Int(2), Int(3)),
    (Char(1), Long(2), Long(3)),
    (Int(1), Byte(2), Int(3)),
    (Int(1), Int(2), Int(3)),
    (Int(1), Long(2), Long(3)),
    (Long(1), Int(2), Long(3)),
    (Long(1), Char(2), Long(3)),
    (Long(1), Long(2), Long(3)),
    (Int(2_147_483_647), Int(1), Int(LEAST)),
    (Char(65_535), Char(65_535), Int(131_070)),
    (
        Flag(true),
        Int(1),
        Throws('c', "Cannot apply [+] to [Boolean] and [Integer]"),
    ),
    (
        Flag(true),
        Flag(true),
        Throws('c', "Cannot apply [+] to [Boolean] and [Boolean]"),
    ),
    (
        Int(1),
        Object(0),
        Throws('c', "Cannot apply [+] to [Integer] and [ArrayList]"),
    ),
    (
        Object(1),
        Byte(1),
        Throws('c', "Cannot apply [+] to [int[]] and [Byte]"),
    ),
    (
        Short(1),
        Object(9),
        Throws('c', "Cannot apply [+] to [Short] and []"),
    ),
    (Null, Int(1), Throws('n', "")),
    (Int(1), Null, Throws('n', "")),
    (Null, Object(0), Throws('n', "")),
    (Null, Null, Throws('n', "")),
    (Word("a"), Word("b"), Word("ab")),
    (Word("a"), Null, Word("anull")),
    (Null, Word("a"), Word("nulla")),
    (Word("a"), Int(-1), Word("a-1")),
    (Long(7), Word("a"), Word("7a")),
    (Flag(false), Word("a"), Word("falsea")),
    (Word("a"), Char(98), Word("ab")),
    (Word("a"), Byte(-128), Word("a-128")),
    (Word("a"), Object(0), Word("a[]")),
    (Object(2), Word("a"), Throws('s', "value nested too deeply")),
    (Word(""), Word(""), Word("")),
];

#[test]
fn sums_promote_or_concatenate(rt: HostRuntime) -> Result<(), Fail> {
    let mut at = 0u32;
    for (a, b, wanted) in &SUMS {
        let holds = operates(rt.alloc(), Op::Add, *a, *b, *wanted)?;
        assert!(rt; holds, "{at}");
        at = at.wrapping_add(1);
    }
    Ok(())
}

const OPERATIONS: [(Op, Row, Row, Row); 44] = [
    (Op::Sub, Byte(1), Char(2), Int(-1)),
    (Op::Mul, Short(-3), Long(4), Long(-12)),
    (Op::Div, Int(-7), Int(2), Int(-3)),
    (Op::Div, Int(LEAST), Int(-1), Int(LEAST)),
    (Op::Div, Long(LEAST_LONG), Int(-1), Long(LEAST_LONG)),
    (Op::Div, Int(1), Int(0), Throws('a', "/ by zero")),
    (Op::Div, Int(1), Long(0), Throws('a', "/ by zero")),
    (Op::Rem, Int(-7), Int(2), Int(-1)),
    (Op::Rem, Int(LEAST), Int(-1), Int(0)),
    (Op::Rem, Byte(1), Byte(0), Throws('a', "/ by zero")),
    (Op::And, Flag(true), Flag(false), Flag(false)),
    (Op::Or, Flag(true), Flag(false), Flag(true)),
    (Op::Xor, Flag(true), Flag(true), Flag(false)),
    (Op::And, Int(12), Long(10), Long(8)),
    (Op::Or, Byte(12), Char(10), Int(14)),
    (Op::Xor, Int(12), Int(10), Int(6)),
    (
        Op::And,
        Flag(true),
        Int(1),
        Throws('c', "Cannot apply [&] to [Boolean] and [Integer]"),
    ),
    (Op::Or, Flag(true), Null, Throws('n', "")),
    (Op::Shl, Int(7), Int(33), Int(14)),
    (Op::Shl, Int(1), Long(64), Int(1)),
    (Op::Shl, Int(1), Int(-1), Int(LEAST)),
    (Op::Shl, Long(1), Int(33), Long(8_589_934_592)),
    (Op::Shl, Byte(1), Long(33), Int(2)),
    (Op::Shr, Int(-8), Byte(1), Int(-4)),
    (Op::Ushr, Int(-1), Int(28), Int(15)),
    (Op::Ushr, Long(-1), Int(-1), Long(1)),
    (
        Op::Shl,
        Word("a"),
        Int(1),
        Throws('c', "Cannot apply [<<] to [String] and [Integer]"),
    ),
    (Op::Neg, Int(LEAST), Null, Int(LEAST)),
    (Op::Neg, Char(5), Null, Int(-5)),
    (Op::Neg, Byte(-128), Null, Int(128)),
    (Op::Neg, Long(LEAST_LONG), Null, Long(LEAST_LONG)),
    (Op::Not, Short(0), Null, Int(-1)),
    (Op::Pos, Byte(3), Object(0), Int(3)),
    (Op::Neg, Null, Int(1), Throws('n', "")),
    (
        Op::Not,
        Flag(true),
        Null,
        Throws('c', "Cannot apply [~] to [Boolean]"),
    ),
    (
        Op::Pos,
        Word("a"),
        Null,
        Throws('c', "Cannot apply [+] to [String]"),
    ),
    (Op::Lt, Int(1), Long(2), Flag(true)),
    (Op::Le, Char(2), Byte(2), Flag(true)),
    (Op::Gt, Int(LEAST), Int(0), Flag(false)),
    (Op::Ge, Long(-1), Short(-1), Flag(true)),
    (
        Op::Lt,
        Word("a"),
        Word("b"),
        Throws('c', "Cannot apply [<] to [String] and [String]"),
    ),
    (
        Op::Ge,
        Flag(true),
        Flag(true),
        Throws('c', "Cannot apply [>=] to [Boolean] and [Boolean]"),
    ),
    (Op::Gt, Int(1), Null, Throws('n', "")),
    (
        Op::Mul,
        Object(2),
        Word("a"),
        Throws('c', "Cannot apply [*] to [ArrayList] and [String]"),
    ),
];

#[test]
fn operators_follow_the_kinds(rt: HostRuntime) -> Result<(), Fail> {
    let mut at = 0u32;
    for (op, a, b, wanted) in &OPERATIONS {
        let holds = operates(rt.alloc(), *op, *a, *b, *wanted)?;
        assert!(rt; holds, "{at}");
        at = at.wrapping_add(1);
    }
    Ok(())
}

// A type: `b` byte, `s` short, `c` char, `i` int, `l` long, `t` boolean, their boxes in upper case, `d` def, `S` String, `O` Object,
// `N` Number, `M` Comparable, `A` List, `[` int[], `{` def[].
fn type_of(alloc: Global, letter: char) -> Result<Ty, AllocError> {
    let ty = match letter {
        't' => Ty::Prim(Primitive::Boolean),
        'b' => Ty::Prim(Primitive::Byte),
        's' => Ty::Prim(Primitive::Short),
        'c' => Ty::Prim(Primitive::Char),
        'i' => Ty::Prim(Primitive::Int),
        'l' => Ty::Prim(Primitive::Long),
        'B' => Ty::Class(BYTE),
        'C' => Ty::Class(CHARACTER),
        'I' => Ty::Class(INTEGER),
        'L' => Ty::Class(LONG),
        'S' => Ty::Class(STRING),
        'O' => Ty::Class(OBJECT),
        'N' => Ty::Class(NUMBER),
        'M' => Ty::Class(COMPARABLE),
        'A' => Ty::Class(LIST),
        '[' => Ty::Array(Boxed::new(alloc, Ty::Prim(Primitive::Int))?),
        '{' => Ty::Array(Boxed::new(alloc, Ty::Def)?),
        _ => Ty::Def,
    };
    Ok(ty)
}

fn casts(alloc: Global, a: Row, to: char, explicit: bool, wanted: Row) -> Result<bool, AllocError> {
    let mut heap = sample(alloc)?;
    let given = value(alloc, a)?;
    let to = type_of(alloc, to)?;
    let answer = to_type(&mut heap, &given, &to, explicit);
    let makes = matches!(a, Char(_));
    gave(&heap, &answer, wanted, makes)
}

const IMPLICIT: [(Row, char, Row); 42] = [
    (Byte(-1), 's', Short(-1)),
    (Byte(-1), 'i', Int(-1)),
    (Byte(-1), 'l', Long(-1)),
    (Byte(-1), 'b', Byte(-1)),
    (
        Byte(-1),
        'c',
        Throws('c', "Cannot cast from [Byte] to [char]"),
    ),
    (Short(-1), 'i', Int(-1)),
    (
        Short(-1),
        'b',
        Throws('c', "Cannot cast from [Short] to [byte]"),
    ),
    (Char(65), 'i', Int(65)),
    (Char(65_535), 'l', Long(65_535)),
    (
        Char(65),
        's',
        Throws('c', "Cannot cast from [Character] to [short]"),
    ),
    (
        Char(65),
        'S',
        Throws('c', "Cannot cast from [Character] to [String]"),
    ),
    (Int(1), 'l', Long(1)),
    (
        Int(1),
        's',
        Throws('c', "Cannot cast from [Integer] to [short]"),
    ),
    (
        Long(1),
        'i',
        Throws('c', "Cannot cast from [Long] to [int]"),
    ),
    (Flag(true), 't', Flag(true)),
    (
        Flag(true),
        'i',
        Throws('c', "Cannot cast from [Boolean] to [int]"),
    ),
    (
        Int(1),
        't',
        Throws('c', "Cannot cast from [Integer] to [boolean]"),
    ),
    (
        Word("a"),
        'c',
        Throws('c', "Cannot cast from [String] to [char]"),
    ),
    (
        Object(0),
        'i',
        Throws('c', "Cannot cast from [ArrayList] to [int]"),
    ),
    (
        Object(1),
        'i',
        Throws('c', "Cannot cast from [int[]] to [int]"),
    ),
    (Null, 'i', Throws('n', "")),
    (Null, 't', Throws('n', "")),
    (Null, 'I', Null),
    (Null, 'S', Null),
    (Null, '[', Null),
    (Null, 'd', Null),
    (Int(1), 'L', Long(1)),
    (Byte(1), 'I', Int(1)),
    (
        Long(1),
        'I',
        Throws('c', "Cannot cast from [Long] to [Integer]"),
    ),
    (
        Word("a"),
        'C',
        Throws('c', "Cannot cast from [String] to [Character]"),
    ),
    (Int(1), 'N', Int(1)),
    (
        Char(65),
        'N',
        Throws('c', "Cannot cast from [Character] to [Number]"),
    ),
    (Char(65), 'M', Char(65)),
    (Word("a"), 'O', Word("a")),
    (
        Word("a"),
        'A',
        Throws('c', "Cannot cast from [String] to [List]"),
    ),
    (Object(0), 'A', Object(0)),
    (
        Object(0),
        'S',
        Throws('c', "Cannot cast from [ArrayList] to [String]"),
    ),
    (Object(1), 'O', Object(1)),
    (
        Object(1),
        'A',
        Throws('c', "Cannot cast from [int[]] to [List]"),
    ),
    (Object(1), '[', Object(1)),
    (
        Object(1),
        '{',
        Throws('c', "Cannot cast from [int[]] to [def[]]"),
    ),
    (Long(7), 'd', Long(7)),
];

const EXPLICIT: [(Row, char, Row); 20] = [
    (Int(200), 'b', Byte(-56)),
    (Long(4_294_967_297), 'i', Int(1)),
    (Long(-1), 'c', Char(65_535)),
    (Long(65_601), 's', Short(65)),
    (Char(65_535), 's', Short(-1)),
    (Char(65_535), 'b', Byte(-1)),
    (Byte(-1), 'c', Char(65_535)),
    (Long(300), 'B', Byte(44)),
    (Int(65), 'C', Char(65)),
    (
        Flag(true),
        'i',
        Throws('c', "Cannot cast from [Boolean] to [int]"),
    ),
    (
        Int(1),
        't',
        Throws('c', "Cannot cast from [Integer] to [boolean]"),
    ),
    (Word("a"), 'c', Char(97)),
    (Word("a"), 'C', Char(97)),
    (
        Word("ab"),
        'c',
        Throws('c', "Cannot cast from [String] to [char]"),
    ),
    (
        Word(""),
        'c',
        Throws('c', "Cannot cast from [String] to [char]"),
    ),
    (
        Word("a"),
        'i',
        Throws('c', "Cannot cast from [String] to [int]"),
    ),
    (Char(97), 'S', Word("a")),
    (
        Int(97),
        'S',
        Throws('c', "Cannot cast from [Integer] to [String]"),
    ),
    (Null, 'c', Throws('n', "")),
    (Object(0), 'A', Object(0)),
];

#[test]
fn casts_that_are_not_written(rt: HostRuntime) -> Result<(), Fail> {
    let mut at = 0u32;
    for (a, to, wanted) in &IMPLICIT {
        let holds = casts(rt.alloc(), *a, *to, false, *wanted)?;
        assert!(rt; holds, "{at}");
        at = at.wrapping_add(1);
    }
    Ok(())
}

#[test]
fn casts_that_are_written(rt: HostRuntime) -> Result<(), Fail> {
    let mut at = 0u32;
    for (a, to, wanted) in &EXPLICIT {
        let holds = casts(rt.alloc(), *a, *to, true, *wanted)?;
        assert!(rt; holds, "{at}");
        at = at.wrapping_add(1);
    }
    Ok(())
}

// The room, and whether a division by zero, whose message has 9 units, has its exception.
#[test]
fn room_is_refused_exactly(rt: HostRuntime) -> Result<(), Fail> {
    for (room, thrown) in [(9u64, false), (10u64, true)] {
        let mut heap = sample(rt.alloc())?;
        heap.refill(room);
        let one = value(rt.alloc(), Int(1))?;
        let zero = value(rt.alloc(), Int(0))?;
        let answer = def_op(&mut heap, Op::Div, &one, &zero);
        let told = match &answer {
            Answer::Thrown(id) => thrown && *id == 3 && heap.room_left() == 0,
            Answer::Room => !thrown && heap.room_left() == room && heap.len() == 3,
            _ => false,
        };
        assert!(rt; told, "{room}");
    }
    Ok(())
}

#[test]
fn texts_are_joined_whatever_the_kinds(rt: HostRuntime) -> Result<(), Fail> {
    let mut heap = sample(rt.alloc())?;
    let null = value(rt.alloc(), Null)?;
    let answer = concatenate(&mut heap, &null, &null);
    let told = gave(&heap, &answer, Word("nullnull"), true)?;
    assert!(rt; told);
    Ok(())
}
