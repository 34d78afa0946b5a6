//! Operators, the numbers that they take, and what they give.

ghost use Rattle.std.specs.Prelude.{◌≡◌};
ghost use Rattle.std.specs.Int.{w32, w64};
ghost use Rattle.arithmetic.specs.declared.operator.Num.TheVariants as n;
ghost use Rattle.arithmetic.specs.Operators as spec;
ghost use Rattle.arithmetic.specs.Operators.{of_type, as_int, as_long, truth, arith_of, Gives};

use crate::casts::low_int;
use crate::{int, long};

/// An operator, by the name that it has in code.
#[derive(Clone, Copy, Debug, PartialEq, Eq)]
pub enum Op {
    /// `+`
    Add,
    /// `-` between two operands
    Sub,
    /// `*`
    Mul,
    /// `/`
    Div,
    /// `%`
    Rem,
    /// `&`
    And,
    /// `|`
    Or,
    /// `^`
    Xor,
    /// `<<`
    Shl,
    /// `>>`
    Shr,
    /// `>>>`
    Ushr,
    /// `-` before an operand
    Neg,
    /// `~`
    Not,
    /// `+` before an operand
    Pos,
    /// `<`
    Lt,
    /// `<=`
    Le,
    /// `>`
    Gt,
    /// `>=`
    Ge,
    /// `==`
    Eq,
    /// `!=`
    Ne,
}

/// A number of the type `int` or `long`.
#[derive(Clone, Copy, Debug, PartialEq, Eq)]
pub enum Num {
    /// An `int`.
    Int(i32),
    /// A `long`.
    Long(i64),
}

/// A zero divisor, where an `ArithmeticException` is thrown.
#[derive(Clone, Copy, Debug, PartialEq, Eq)]
pub struct Zero;

/// Whether the type of the left operand alone decides the type of an operator: it is a shift, or takes one operand.
pub fn takes_left(op: Op) -> bool
    ensures { result ≡ spec.takes_left op }
{
    matches!(
        op,
        Op::Shl | Op::Shr | Op::Ushr | Op::Neg | Op::Not | Op::Pos
    )
}

fn truth_of(holds: bool) -> Num
    ensures { result ≡ truth holds }
{
    if holds { Num::Int(1) } else { Num::Int(0) }
}

fn some_int(value: Option<i32>) -> Option<Num>
    ensures { result ≡ spec.some_of n.Int value }
{
    match value {
        Some(number) => Some(Num::Int(number)),
        None => None,
    }
}

fn some_long(value: Option<i64>) -> Option<Num>
    ensures { result ≡ spec.some_of n.Long value }
{
    match value {
        Some(number) => Some(Num::Long(number)),
        None => None,
    }
}

/// An operator on two numbers of the type `int`. `None` for a zero divisor.
fn on_ints(op: Op, a: i32, b: i32) -> Option<Num>
    ensures { result ≡ of_type n.Int w32 op a b }
{
    match op {
        Op::Add => Some(Num::Int(int::sum(a, b))),
        Op::Sub => Some(Num::Int(int::difference(a, b))),
        Op::Mul => Some(Num::Int(int::product(a, b))),
        Op::Div => some_int(int::quotient(a, b)),
        Op::Rem => some_int(int::remainder(a, b)),
        Op::And => Some(Num::Int(int::and(a, b))),
        Op::Or => Some(Num::Int(int::or(a, b))),
        Op::Xor => Some(Num::Int(int::xor(a, b))),
        Op::Shl => Some(Num::Int(int::left_shift(a, b))),
        Op::Shr => Some(Num::Int(int::right_shift(a, b))),
        Op::Ushr => Some(Num::Int(int::unsigned_shift(a, b))),
        Op::Neg => Some(Num::Int(int::negation(a))),
        Op::Not => Some(Num::Int(int::complement(a))),
        Op::Pos => Some(Num::Int(a)),
        Op::Lt => Some(truth_of(a < b)),
        Op::Le => Some(truth_of(a <= b)),
        Op::Gt => Some(truth_of(b < a)),
        Op::Ge => Some(truth_of(b <= a)),
        Op::Eq => Some(truth_of(a == b)),
        Op::Ne => Some(truth_of(a != b)),
    }
}

/// An operator on two numbers of the type `long`. `None` for a zero divisor.
fn on_longs(op: Op, a: i64, b: i64) -> Option<Num>
    ensures { result ≡ of_type n.Long w64 op a b }
{
    match op {
        Op::Add => Some(Num::Long(long::sum(a, b))),
        Op::Sub => Some(Num::Long(long::difference(a, b))),
        Op::Mul => Some(Num::Long(long::product(a, b))),
        Op::Div => some_long(long::quotient(a, b)),
        Op::Rem => some_long(long::remainder(a, b)),
        Op::And => Some(Num::Long(long::and(a, b))),
        Op::Or => Some(Num::Long(long::or(a, b))),
        Op::Xor => Some(Num::Long(long::xor(a, b))),
        Op::Shl => Some(Num::Long(long::left_shift(a, low_int(b)))),
        Op::Shr => Some(Num::Long(long::right_shift(a, low_int(b)))),
        Op::Ushr => Some(Num::Long(long::unsigned_shift(a, low_int(b)))),
        Op::Neg => Some(Num::Long(long::negation(a))),
        Op::Not => Some(Num::Long(long::complement(a))),
        Op::Pos => Some(Num::Long(a)),
        Op::Lt => Some(truth_of(a < b)),
        Op::Le => Some(truth_of(a <= b)),
        Op::Gt => Some(truth_of(b < a)),
        Op::Ge => Some(truth_of(b <= a)),
        Op::Eq => Some(truth_of(a == b)),
        Op::Ne => Some(truth_of(a != b)),
    }
}

impl Num {
    /// The number as an int: of a long its low 32 bits (Java Language Specification, 5.1.3).
    pub fn to_int(self) -> i32
        ensures { result ≡ as_int self }
    {
        match self {
            Num::Int(number) => number,
            Num::Long(number) => low_int(number),
        }
    }

    /// The number as a long.
    pub fn to_long(self) -> i64
        ensures { result ≡ as_long self }
    {
        match self {
            Num::Int(number) => number as i64,
            Num::Long(number) => number,
        }
    }
}

/// An operator whose left operand decides the type.
fn by_left(op: Op, a: Num, b: Num) -> Option<Num>
    ensures { result ≡ spec.by_left op a b }
{
    match a {
        Num::Int(left) => on_ints(op, left, b.to_int()),
        Num::Long(left) => on_longs(op, left, b.to_long()),
    }
}

/// An operator whose operands decide the type: it is `int` where both are ints, and else `long`.
fn by_both(op: Op, a: Num, b: Num) -> Option<Num>
    ensures { result ≡ spec.by_both op a b }
{
    match a {
        Num::Int(left) => match b {
            Num::Int(right) => on_ints(op, left, right),
            Num::Long(right) => on_longs(op, left as i64, right),
        },
        Num::Long(left) => on_longs(op, left, b.to_long()),
    }
}

/// What an operator gives of two numbers (Java Language Specification, 5.6, 15.15 and 15.17 to 15.22): of two ints an int, and of a
/// long and another number a long; a shift has the type of its left operand. A comparison gives the int 1 where it holds, and else
/// 0. For an operator of one operand `b` is not looked at.
///
/// [`Zero`]: the operator is a division or a remainder, and the divisor is zero.
pub fn arith(op: Op, a: Num, b: Num) -> Result<Num, Zero>
    ensures { Gives (arith_of op a b) result }
{
    let given = if takes_left(op) {
        by_left(op, a, b)
    } else {
        by_both(op, a, b)
    };
    match given {
        Some(number) => Ok(number),
        None => Err(Zero),
    }
}
