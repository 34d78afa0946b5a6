//! Values of the Java Language Specification's rules, worked out by hand.

use arithmetic::{Num, Op, arith};
use std::test::Fail as TestFail;

const LEAST: i32 = -2_147_483_648;

const GREATEST: i32 = 2_147_483_647;

const LEAST_LONG: i64 = -9_223_372_036_854_775_808;

const GREATEST_LONG: i64 = 9_223_372_036_854_775_807;

const INTS: [(Op, i32, i32, i32); 50] = [
    (Op::Add, 2, 3, 5),
    (Op::Add, GREATEST, 1, LEAST),
    (Op::Sub, 2, 3, -1),
    (Op::Sub, LEAST, 1, GREATEST),
    (Op::Mul, -6, 7, -42),
    (Op::Mul, 65_536, 65_536, 0),
    (Op::Mul, LEAST, -1, LEAST),
    (Op::Div, 7, -2, -3),
    (Op::Div, -7, 2, -3),
    (Op::Div, LEAST, -1, LEAST),
    (Op::Rem, 7, -3, 1),
    (Op::Rem, -7, 3, -1),
    (Op::Rem, LEAST, -1, 0),
    (Op::And, 12, 10, 8),
    (Op::And, -1, 255, 255),
    (Op::Or, 12, 10, 14),
    (Op::Or, LEAST, 1, -2_147_483_647),
    (Op::Xor, 12, 10, 6),
    (Op::Xor, -1, 1, -2),
    (Op::Shl, 7, 33, 14),
    (Op::Shl, 1, 31, LEAST),
    (Op::Shl, 1, -1, LEAST),
    (Op::Shl, 1, 64, 1),
    (Op::Shr, -8, 1, -4),
    (Op::Shr, -1, 31, -1),
    (Op::Shr, LEAST, 33, -1_073_741_824),
    (Op::Shr, 8, -1, 0),
    (Op::Ushr, -1, 28, 15),
    (Op::Ushr, -1, 32, -1),
    (Op::Ushr, -1, 33, GREATEST),
    (Op::Ushr, LEAST, -1, 1),
    (Op::Neg, 5, 9, -5),
    (Op::Neg, LEAST, 9, LEAST),
    (Op::Not, 0, 9, -1),
    (Op::Not, LEAST, 9, GREATEST),
    (Op::Pos, -5, 9, -5),
    (Op::Lt, LEAST, GREATEST, 1),
    (Op::Lt, 3, 3, 0),
    (Op::Le, 3, 3, 1),
    (Op::Le, 4, 3, 0),
    (Op::Gt, GREATEST, LEAST, 1),
    (Op::Gt, 3, 3, 0),
    (Op::Ge, 3, 3, 1),
    (Op::Ge, 2, 3, 0),
    (Op::Eq, -1, -1, 1),
    (Op::Eq, -1, 1, 0),
    (Op::Ne, -1, 1, 1),
    (Op::Ne, 4, 4, 0),
    (Op::Div, 0, 5, 0),
    (Op::Rem, 0, -5, 0),
];

const LONGS: [(Op, i64, i64, i64); 28] = [
    (Op::Add, 2_147_483_647, 1, 2_147_483_648),
    (Op::Add, GREATEST_LONG, 1, LEAST_LONG),
    (Op::Sub, LEAST_LONG, 1, GREATEST_LONG),
    (Op::Mul, 65_536, 65_536, 4_294_967_296),
    (Op::Mul, LEAST_LONG, -1, LEAST_LONG),
    (Op::Div, -7, 2, -3),
    (Op::Div, LEAST_LONG, -1, LEAST_LONG),
    (Op::Rem, -7, 3, -1),
    (Op::Rem, LEAST_LONG, -1, 0),
    (Op::And, -1, 4_294_967_295, 4_294_967_295),
    (Op::Or, LEAST_LONG, 1, -9_223_372_036_854_775_807),
    (Op::Xor, -1, 1, -2),
    (Op::Shl, 1, 33, 8_589_934_592),
    (Op::Shl, 1, 63, LEAST_LONG),
    (Op::Shl, 1, -1, LEAST_LONG),
    (Op::Shl, 1, 64, 1),
    // 2^32 + 1, which is the int 1.
    (Op::Shl, 3, 4_294_967_297, 6),
    (Op::Shr, -1, 63, -1),
    (Op::Shr, LEAST_LONG, 65, -4_611_686_018_427_387_904),
    (Op::Ushr, -1, 60, 15),
    (Op::Ushr, -1, 64, -1),
    (Op::Ushr, LEAST_LONG, -1, 1),
    (Op::Neg, LEAST_LONG, 9, LEAST_LONG),
    (Op::Neg, 5, 9, -5),
    (Op::Not, LEAST_LONG, 9, GREATEST_LONG),
    (Op::Pos, -5, 9, -5),
    (Op::Div, 0, 5, 0),
    (Op::Rem, 0, -5, 0),
];

// A comparison of longs is an int.
const COMPARED: [(Op, i64, i64, i32); 8] = [
    (Op::Lt, LEAST_LONG, GREATEST_LONG, 1),
    (Op::Le, 4_294_967_296, 0, 0),
    (Op::Gt, 4_294_967_296, 0, 1),
    (Op::Ge, 7, 7, 1),
    (Op::Eq, 4_294_967_296, 0, 0),
    (Op::Ne, 4_294_967_296, 0, 1),
    (Op::Eq, 7, 7, 1),
    (Op::Lt, 7, 7, 0),
];

// The promoted type of an int and a long.
const MIXED: [(Op, Num, Num, Num); 10] = [
    (
        Op::Add,
        Num::Int(GREATEST),
        Num::Long(1),
        Num::Long(2_147_483_648),
    ),
    (
        Op::Add,
        Num::Long(1),
        Num::Int(GREATEST),
        Num::Long(2_147_483_648),
    ),
    (
        Op::Mul,
        Num::Int(65_536),
        Num::Long(65_536),
        Num::Long(4_294_967_296),
    ),
    (Op::Lt, Num::Int(0), Num::Long(4_294_967_296), Num::Int(1)),
    (Op::Eq, Num::Long(5), Num::Int(5), Num::Int(1)),
    (Op::Shl, Num::Int(7), Num::Long(33), Num::Int(14)),
    (
        Op::Shl,
        Num::Long(1),
        Num::Int(33),
        Num::Long(8_589_934_592),
    ),
    (
        Op::Ushr,
        Num::Int(-1),
        Num::Long(4_294_967_297),
        Num::Int(GREATEST),
    ),
    (Op::Neg, Num::Int(LEAST), Num::Long(0), Num::Int(LEAST)),
    (Op::Not, Num::Long(0), Num::Int(0), Num::Long(-1)),
];

const DIVIDED_BY_ZERO: [(Op, Num); 4] = [
    (Op::Div, Num::Int(1)),
    (Op::Rem, Num::Int(0)),
    (Op::Div, Num::Long(1)),
    (Op::Rem, Num::Long(LEAST_LONG)),
];

/// Whether an operator gives this number of two.
fn gives(op: Op, a: Num, b: Num, wanted: Num) -> bool {
    match arith(op, a, b) {
        Ok(number) => number == wanted,
        Err(_) => false,
    }
}

#[test]
fn ints(rt: HostRuntime) -> Result<(), TestFail> {
    for (op, a, b, wanted) in INTS {
        assert!(rt; gives(op, Num::Int(a), Num::Int(b), Num::Int(wanted)));
    }
    Ok(())
}

#[test]
fn longs(rt: HostRuntime) -> Result<(), TestFail> {
    for (op, a, b, wanted) in LONGS {
        assert!(rt; gives(op, Num::Long(a), Num::Long(b), Num::Long(wanted)));
    }
    for (op, a, b, wanted) in COMPARED {
        assert!(rt; gives(op, Num::Long(a), Num::Long(b), Num::Int(wanted)));
    }
    Ok(())
}

#[test]
fn promoted(rt: HostRuntime) -> Result<(), TestFail> {
    for (op, a, b, wanted) in MIXED {
        assert!(rt; gives(op, a, b, wanted));
    }
    Ok(())
}

#[test]
fn zero_divisors(rt: HostRuntime) -> Result<(), TestFail> {
    for (op, a) in DIVIDED_BY_ZERO {
        assert!(rt; arith(op, a, Num::Int(0)).is_err());
        assert!(rt; arith(op, a, Num::Long(0)).is_err());
    }
    Ok(())
}

const CASTS: [(i32, i8, i16, u16); 8] = [
    (0, 0, 0, 0),
    (200, -56, 200, 200),
    (-1, -1, -1, 65_535),
    (65_601, 65, 65, 65),
    (128, -128, 128, 128),
    (32_768, 0, -32_768, 32_768),
    (LEAST, 0, 0, 0),
    (GREATEST, -1, -1, 65_535),
];

const FROM_LONG: [(i64, i32); 6] = [
    (0, 0),
    (4_294_967_297, 1),
    (2_147_483_648, LEAST),
    (-1, -1),
    (LEAST_LONG, 0),
    (GREATEST_LONG, -1),
];

#[test]
fn low_bits(rt: HostRuntime) -> Result<(), TestFail> {
    for (number, byte, short, unit) in CASTS {
        assert!(rt; arithmetic::casts::low_byte(number) == byte);
        assert!(rt; arithmetic::casts::low_short(number) == short);
        assert!(rt; arithmetic::casts::low_char(number) == unit);
    }
    for (number, int) in FROM_LONG {
        assert!(rt; arithmetic::casts::low_int(number) == int);
    }
    Ok(())
}
