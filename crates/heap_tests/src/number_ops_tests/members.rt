//! Rows of members.
use super::rows::Row::{self, Byte, Char, Flag, Int, Long, Null, Object, Short, Throws, Word};
use super::rows::{gave, sample, value};
use number_ops::call;
use object_values::Value;
use std::alloc::{AllocError, Global};
use std::test::Fail;

fn arguments(alloc: Global, rows: &[Row]) -> Result<Vec<Value>, AllocError> {
    let mut args = Vec::new(alloc);
    for row in rows {
        args.push(value(alloc, *row)?)?;
    }
    Ok(args)
}

fn gives(alloc: Global, number: u32, rows: &[Row], wanted: Row) -> Result<bool, AllocError> {
    let mut heap = sample(alloc)?;
    let args = arguments(alloc, rows)?;
    let answer = call(number, &mut heap, args.as_slice());
    gave(&heap, &answer, wanted, true)
}

// Members of Object, Comparable and Number, by their numbers in the catalogue.
const OBJECTS: [(u32, &[Row], Row); 35] = [
    (0, &[Int(1), Int(1)], Flag(true)),
    (0, &[Int(1), Long(1)], Flag(false)),
    (0, &[Object(0), Object(0)], Flag(true)),
    (0, &[Word("a"), Null], Flag(false)),
    (1, &[Object(0)], Word("[]")),
    (1, &[Long(-5)], Word("-5")),
    (1, &[Object(2)], Throws('s', "value nested too deeply")),
    (2, &[Int(1), Int(2)], Int(-1)),
    (2, &[Long(3), Long(2)], Int(1)),
    (2, &[Flag(true), Flag(true)], Int(0)),
    (2, &[Flag(false), Flag(true)], Int(-1)),
    (2, &[Byte(-128), Byte(127)], Int(-255)),
    (2, &[Short(5), Short(2)], Int(3)),
    (2, &[Char(97), Char(100)], Int(-3)),
    (2, &[Word("abc"), Word("abd")], Int(-1)),
    (2, &[Word("b"), Word("abc")], Int(1)),
    (2, &[Word("ab"), Word("abcd")], Int(-2)),
    (2, &[Word("abcd"), Word("a")], Int(3)),
    (2, &[Word("a"), Word("a")], Int(0)),
    (2, &[Word(""), Word("")], Int(0)),
    (2, &[Int(1), Null], Throws('n', "")),
    (
        2,
        &[Int(1), Long(1)],
        Throws('c', "Cannot compare [Integer] and [Long]"),
    ),
    (
        2,
        &[Word("a"), Object(0)],
        Throws('c', "Cannot compare [String] and [ArrayList]"),
    ),
    (5, &[Int(200)], Byte(-56)),
    (6, &[Long(65_601)], Short(65)),
    (7, &[Long(4_294_967_297)], Int(1)),
    (8, &[Byte(-1)], Long(-1)),
    (8, &[Word("1")], Throws('n', "")),
    (9, &[], Byte(127)),
    (10, &[], Byte(-128)),
    (11, &[Byte(-1)], Int(255)),
    (12, &[], Short(32_767)),
    (13, &[], Short(-32_768)),
    (14, &[], Int(2_147_483_647)),
    (15, &[], Int(-2_147_483_648)),
];

const INTS: [(u32, &[Row], Row); 29] = [
    (16, &[Int(-1)], Int(32)),
    (16, &[Int(10)], Int(2)),
    (17, &[Int(2), Int(1)], Int(1)),
    (17, &[Int(-2_147_483_648), Int(1)], Int(-1)),
    (18, &[Int(2), Int(-1)], Int(2)),
    (19, &[Int(2), Int(-1)], Int(-1)),
    (20, &[Word("2147483647")], Int(2_147_483_647)),
    (20, &[Word("-2147483648")], Int(-2_147_483_648)),
    (20, &[Word("+7")], Int(7)),
    (20, &[Word("2147483648")], Throws('f', "not a number")),
    (20, &[Word("")], Throws('f', "not a number")),
    (20, &[Word("1x")], Throws('f', "not a number")),
    (20, &[Null], Throws('f', "not a number")),
    (21, &[Int(-9)], Int(-1)),
    (21, &[Int(0)], Int(0)),
    (21, &[Int(9)], Int(1)),
    (22, &[Int(0)], Word("0")),
    (22, &[Int(10)], Word("1010")),
    (22, &[Int(-1)], Word("11111111111111111111111111111111")),
    (
        22,
        &[Int(-2_147_483_648)],
        Word("10000000000000000000000000000000"),
    ),
    (23, &[Int(255)], Word("ff")),
    (23, &[Int(-1)], Word("ffffffff")),
    (23, &[Int(-2_147_483_648)], Word("80000000")),
    (24, &[Int(-2_147_483_648)], Word("-2147483648")),
    (25, &[Int(4)], Int(4)),
    (26, &[], Long(9_223_372_036_854_775_807)),
    (27, &[], Long(-9_223_372_036_854_775_808)),
    (16, &[Long(1)], Throws('n', "")),
    (3, &[Word("a")], Null),
];

const LONGS: [(u32, &[Row], Row); 35] = [
    (28, &[Long(-1)], Int(64)),
    (29, &[Long(1), Long(2)], Int(-1)),
    (30, &[Long(1), Long(2)], Long(2)),
    (31, &[Long(1), Long(2)], Long(1)),
    (
        32,
        &[Word("-9223372036854775808")],
        Long(-9_223_372_036_854_775_808),
    ),
    (
        32,
        &[Word("9223372036854775808")],
        Throws('f', "not a number"),
    ),
    (32, &[Null], Throws('f', "not a number")),
    (33, &[Long(-9)], Int(-1)),
    (34, &[Long(5)], Word("101")),
    (35, &[Long(-1)], Word("ffffffffffffffff")),
    (35, &[Long(-16)], Word("fffffffffffffff0")),
    (
        36,
        &[Long(-9_223_372_036_854_775_808)],
        Word("-9223372036854775808"),
    ),
    (37, &[Long(4)], Long(4)),
    (52, &[Long(-5)], Long(5)),
    (
        52,
        &[Long(-9_223_372_036_854_775_808)],
        Long(-9_223_372_036_854_775_808),
    ),
    (53, &[Long(7), Long(2)], Long(3)),
    (53, &[Long(-7), Long(2)], Long(-4)),
    (53, &[Long(7), Long(-2)], Long(-4)),
    (53, &[Long(-7), Long(-2)], Long(3)),
    (53, &[Long(-6), Long(2)], Long(-3)),
    (
        53,
        &[Long(-9_223_372_036_854_775_808), Long(-1)],
        Long(-9_223_372_036_854_775_808),
    ),
    (53, &[Long(1), Long(0)], Throws('a', "/ by zero")),
    (54, &[Long(7), Long(2)], Long(1)),
    (54, &[Long(-7), Long(2)], Long(1)),
    (54, &[Long(7), Long(-2)], Long(-1)),
    (54, &[Long(-7), Long(-2)], Long(-1)),
    (54, &[Long(-6), Long(2)], Long(0)),
    (54, &[Long(1), Long(0)], Throws('a', "/ by zero")),
    (55, &[Long(1), Long(2)], Long(2)),
    (56, &[Long(1), Long(2)], Long(1)),
    (57, &[Long(-2_147_483_648)], Int(-2_147_483_648)),
    (57, &[Long(2_147_483_647)], Int(2_147_483_647)),
    (57, &[Long(2_147_483_648)], Throws('a', "integer overflow")),
    (57, &[Long(-2_147_483_649)], Throws('a', "integer overflow")),
    (58, &[Long(1)], Null),
];

const CHARS: [(u32, &[Row], Row); 30] = [
    (38, &[], Char(65_535)),
    (39, &[], Char(0)),
    (40, &[Char(97)], Char(97)),
    (41, &[Char(48)], Flag(true)),
    (41, &[Char(58)], Flag(false)),
    (42, &[Char(65)], Flag(true)),
    (42, &[Char(91)], Flag(false)),
    (42, &[Char(228)], Flag(false)),
    (43, &[Char(57)], Flag(true)),
    (43, &[Char(95)], Flag(false)),
    (44, &[Char(122)], Flag(true)),
    (44, &[Char(90)], Flag(false)),
    (45, &[Char(90)], Flag(true)),
    (45, &[Char(122)], Flag(false)),
    (46, &[Char(9)], Flag(true)),
    (46, &[Char(14)], Flag(false)),
    (46, &[Char(28)], Flag(true)),
    (46, &[Char(33)], Flag(false)),
    (47, &[Char(90)], Char(122)),
    (47, &[Char(91)], Char(91)),
    (48, &[Char(97)], Char(65)),
    (48, &[Char(228)], Char(228)),
    (49, &[Flag(true)], Flag(true)),
    (50, &[Flag(true), Flag(false)], Int(1)),
    (50, &[Flag(false), Flag(false)], Int(0)),
    (51, &[Word("true")], Flag(true)),
    (51, &[Word("TrUe")], Flag(true)),
    (51, &[Word("true ")], Flag(false)),
    (51, &[Word("")], Flag(false)),
    (51, &[Null], Flag(false)),
];

fn each(alloc: Global, rows: &[(u32, &[Row], Row)]) -> Result<u32, AllocError> {
    let mut wrong = 0u32;
    for (number, args, wanted) in rows {
        if !gives(alloc, *number, args, *wanted)? {
            wrong = wrong
                .wrapping_mul(1_000)
                .wrapping_add(*number)
                .wrapping_add(1);
        }
    }
    Ok(wrong)
}

#[test]
fn members_of_objects_and_fields(rt: HostRuntime) -> Result<(), Fail> {
    let wrong = each(rt.alloc(), &OBJECTS)?;
    assert!(rt; wrong == 0, "{wrong}");
    Ok(())
}

#[test]
fn members_of_integer(rt: HostRuntime) -> Result<(), Fail> {
    let wrong = each(rt.alloc(), &INTS)?;
    assert!(rt; wrong == 0, "{wrong}");
    Ok(())
}

#[test]
fn members_of_long_and_math(rt: HostRuntime) -> Result<(), Fail> {
    let wrong = each(rt.alloc(), &LONGS)?;
    assert!(rt; wrong == 0, "{wrong}");
    Ok(())
}

#[test]
fn members_of_character_and_boolean(rt: HostRuntime) -> Result<(), Fail> {
    let wrong = each(rt.alloc(), &CHARS)?;
    assert!(rt; wrong == 0, "{wrong}");
    Ok(())
}
