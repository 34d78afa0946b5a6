//! The members of numbers and of Math.
ghost use Rattle.std.specs.Prelude.{◌≡◌, ◌≤◌, false, IfOk};
ghost use Rattle.std.specs.Fmt.{digits, signed_decimal};
ghost use Rattle.pl_units.specs.Utf16.{units};
ghost use Rattle.number_ops.specs.declared.outcome.Outcome.TheVariants.{Makes};
ghost use Rattle.number_ops.specs.Outcomes.{Tells};
ghost use Rattle.number_ops.specs.Numbers as spec;
ghost use Rattle.number_ops.specs.Numbers.{constant_of, of_int, of_long, of_ints, of_longs};

use crate::errors::says;
use crate::operators::zero_divisor;
use crate::outcome::{Outcome, Raised};
use arithmetic::long;
use object_heap::Heap;
use object_values::Value;
use pl_units::{UText, decimal, parse_int, parse_long};
use std::alloc::{AllocError, Global};

/// A constant of a class.
#[derive(Clone, Copy, Debug, PartialEq, Eq)]
pub enum Constant {
    ByteMost,
    ByteLeast,
    ShortMost,
    ShortLeast,
    IntMost,
    IntLeast,
    LongMost,
    LongLeast,
    CharMost,
    CharLeast,
}

/// A member with one int.
#[derive(Clone, Copy, Debug, PartialEq, Eq)]
pub enum OneInt {
    BitCount,
    Signum,
    ToBinary,
    ToHex,
    ToText,
    ValueOf,
}

/// A member with one long.
#[derive(Clone, Copy, Debug, PartialEq, Eq)]
pub enum OneLong {
    BitCount,
    Signum,
    ToBinary,
    ToHex,
    ToText,
    ValueOf,
    Abs,
    ToIntExact,
}

/// A member with two ints or two longs.
#[derive(Clone, Copy, Debug, PartialEq, Eq)]
pub enum Two {
    Compare,
    Max,
    Min,
    /// Of longs alone.
    FloorDiv,
    /// Of longs alone.
    FloorMod,
}

/// The value of a constant of Integer, Long and the like.
pub fn constant_of(constant: Constant) -> Value
    ensures { result ≡ constant_of constant }
{
    match constant {
        Constant::ByteMost => Value::Byte(127),
        Constant::ByteLeast => Value::Byte(-128),
        Constant::ShortMost => Value::Short(32_767),
        Constant::ShortLeast => Value::Short(-32_768),
        Constant::IntMost => Value::Int(2_147_483_647),
        Constant::IntLeast => Value::Int(-2_147_483_648),
        Constant::LongMost => Value::Long(9_223_372_036_854_775_807),
        Constant::LongLeast => Value::Long(-9_223_372_036_854_775_808),
        Constant::CharMost => Value::Char(65_535),
        Constant::CharLeast => Value::Char(0),
    }
}

fn decimal_text(heap: &Heap, number: i64) -> Outcome
    ensures { Tells (Makes (signed_decimal number)) result }
{
    match decimal(heap.alloc(), number) {
        Ok(text) => Outcome::Makes(text),
        Err(_) => Outcome::NoMemory,
    }
}

fn binary_units(alloc: Global, bits: u64) -> Result<UText, AllocError>
    ensures { IfOk result (λ text. text ≡ units (digits 2 false bits)) }
{
    let text = format!(in alloc; "{bits:b}")?;
    UText::from_utf8(alloc, text.as_str())
}

fn binary_text(heap: &Heap, bits: u64) -> Outcome
    ensures { Tells (Makes (units (digits 2 false bits))) result }
{
    match binary_units(heap.alloc(), bits) {
        Ok(text) => Outcome::Makes(text),
        Err(_) => Outcome::NoMemory,
    }
}

fn hex_units(alloc: Global, bits: u64) -> Result<UText, AllocError>
    ensures { IfOk result (λ text. text ≡ units (digits 16 false bits)) }
{
    let text = format!(in alloc; "{bits:x}")?;
    UText::from_utf8(alloc, text.as_str())
}

fn hex_text(heap: &Heap, bits: u64) -> Outcome
    ensures { Tells (Makes (units (digits 16 false bits))) result }
{
    match hex_units(heap.alloc(), bits) {
        Ok(text) => Outcome::Makes(text),
        Err(_) => Outcome::NoMemory,
    }
}

fn gives_count(count: u32) -> Outcome
    requires { count ≤ 64 }
    ensures { result ≡ spec.count count }
{
    Outcome::Gives(Value::Int(count as i32))
}

/// What a member with one int comes to.
pub fn of_int(heap: &Heap, member: OneInt, a: i32) -> Outcome
    ensures { Tells (of_int member a) result }
{
    match member {
        OneInt::BitCount => gives_count(a.count_ones()),
        OneInt::Signum => sign_of(i64::from(a)),
        OneInt::ToBinary => binary_text(heap, u64::from(a.cast_unsigned())),
        OneInt::ToHex => hex_text(heap, u64::from(a.cast_unsigned())),
        OneInt::ToText => decimal_text(heap, i64::from(a)),
        OneInt::ValueOf => Outcome::Gives(Value::Int(a)),
    }
}

fn exact_int(heap: &Heap, a: i64) -> Outcome
    ensures { Tells (spec.exact_int a) result }
{
    if a >= -2_147_483_648 && a <= 2_147_483_647 {
        Outcome::Gives(Value::Int(a as i32))
    } else {
        says(heap.alloc(), Raised::Arithmetic, "integer overflow")
    }
}

fn absolute(a: i64) -> i64
    ensures { result ≡ spec.absolute a }
{
    if a < 0 { long::negation(a) } else { a }
}

fn sign_of(a: i64) -> Outcome
    ensures { result ≡ spec.sign a }
{
    if a < 0 {
        Outcome::Gives(Value::Int(-1))
    } else if a == 0 {
        Outcome::Gives(Value::Int(0))
    } else {
        Outcome::Gives(Value::Int(1))
    }
}

/// What a member with one long comes to.
pub fn of_long(heap: &Heap, member: OneLong, a: i64) -> Outcome
    ensures { Tells (of_long member a) result }
{
    match member {
        OneLong::BitCount => gives_count(a.count_ones()),
        OneLong::Signum => sign_of(a),
        OneLong::ToBinary => binary_text(heap, a.cast_unsigned()),
        OneLong::ToHex => hex_text(heap, a.cast_unsigned()),
        OneLong::ToText => decimal_text(heap, a),
        OneLong::ValueOf => Outcome::Gives(Value::Long(a)),
        OneLong::Abs => Outcome::Gives(Value::Long(absolute(a))),
        OneLong::ToIntExact => exact_int(heap, a),
    }
}

/// The order of two numbers, as -1, 0 or 1.
pub fn comparison(a: i64, b: i64) -> i32
    ensures { result ≡ spec.comparison a b }
{
    if a < b {
        -1
    } else if b < a {
        1
    } else {
        0
    }
}

/// What a member with two ints comes to.
pub fn of_ints(member: Two, a: i32, b: i32) -> Outcome
    ensures { result ≡ of_ints member a b }
{
    match member {
        Two::Compare => Outcome::Gives(Value::Int(comparison(i64::from(a), i64::from(b)))),
        Two::Max => Outcome::Gives(Value::Int(if a < b { b } else { a })),
        Two::Min => Outcome::Gives(Value::Int(if b < a { b } else { a })),
        Two::FloorDiv => Outcome::Gives(Value::Null),
        Two::FloorMod => Outcome::Gives(Value::Null),
    }
}

fn turns(rest: i64, b: i64) -> bool
    ensures { result ≡ spec.turns rest b }
{
    if rest == 0 {
        false
    } else if rest < 0 {
        !(b < 0)
    } else {
        b < 0
    }
}

fn floored(heap: &Heap, b: i64, quotient: Option<i64>, rest: Option<i64>) -> Outcome
    ensures { Tells (spec.floored b quotient rest) result }
{
    match (quotient, rest) {
        (Some(quotient), Some(rest)) => Outcome::Gives(Value::Long(if turns(rest, b) {
            long::difference(quotient, 1)
        } else {
            quotient
        })),
        _ => zero_divisor(heap),
    }
}

fn floor_rest(heap: &Heap, b: i64, rest: Option<i64>) -> Outcome
    ensures { Tells (spec.floor_rest b rest) result }
{
    match rest {
        Some(rest) => Outcome::Gives(Value::Long(if turns(rest, b) {
            long::sum(rest, b)
        } else {
            rest
        })),
        None => zero_divisor(heap),
    }
}

/// What a member with two longs comes to.
pub fn of_longs(heap: &Heap, member: Two, a: i64, b: i64) -> Outcome
    ensures { Tells (of_longs member a b) result }
{
    match member {
        Two::Compare => Outcome::Gives(Value::Int(comparison(a, b))),
        Two::Max => Outcome::Gives(Value::Long(if a < b { b } else { a })),
        Two::Min => Outcome::Gives(Value::Long(if b < a { b } else { a })),
        Two::FloorDiv => floored(heap, b, long::quotient(a, b), long::remainder(a, b)),
        Two::FloorMod => floor_rest(heap, b, long::remainder(a, b)),
    }
}

/// The number from 0 to 255 with the bits of a byte.
pub fn unsigned_byte(a: i8) -> Outcome
    ensures { result ≡ spec.unsigned_byte a }
{
    Outcome::Gives(Value::Int(i32::from(a.cast_unsigned())))
}

fn not_a_number(heap: &Heap) -> Outcome
    ensures { Tells spec.not_a_number result }
{
    says(heap.alloc(), Raised::NumberFormat, "not a number")
}

/// The int that a text writes, or NumberFormatException.
pub fn parse_int_of(heap: &Heap, value: &Value) -> Outcome
    ensures { Tells (spec.parse_int_of value.now) result }
{
    match value {
        Value::Str(text) => int_parsed(heap, parse_int(text)),
        _ => not_a_number(heap),
    }
}

fn int_parsed(heap: &Heap, number: Option<i32>) -> Outcome
    ensures { Tells (spec.int_parsed number) result }
{
    match number {
        Some(number) => Outcome::Gives(Value::Int(number)),
        None => not_a_number(heap),
    }
}

/// The long that a text writes, or NumberFormatException.
pub fn parse_long_of(heap: &Heap, value: &Value) -> Outcome
    ensures { Tells (spec.parse_long_of value.now) result }
{
    match value {
        Value::Str(text) => long_parsed(heap, parse_long(text)),
        _ => not_a_number(heap),
    }
}

fn long_parsed(heap: &Heap, number: Option<i64>) -> Outcome
    ensures { Tells (spec.long_parsed number) result }
{
    match number {
        Some(number) => Outcome::Gives(Value::Long(number)),
        None => not_a_number(heap),
    }
}
