//! Operators on numbers.
ghost use Rattle.std.specs.Prelude.{◌≡◌, Some};
ghost use Rattle.std.specs.Int.{w32, w64};
ghost use Rattle.arithmetic.specs.Operators.{of_type, some_of, truth};
ghost use Rattle.arithmetic.specs.declared.operator.Num.TheVariants as n;
ghost use Rattle.code_meaning.specs.Words as words;

use arithmetic::casts::low_int;
use arithmetic::{Num, int, long};
use code_meaning::Word;
use pl_code::ArithmeticOp;

/// The word of a number.
#[inline(always)]
pub fn word_of(number: Num) -> Word
    ensures { result ≡ words.word_of number }
{
    match number {
        Num::Int(number) => Word::I(number),
        Num::Long(number) => Word::J(number),
    }
}

/// Whether an operator takes one operand.
#[inline(always)]
pub fn takes_one(op: ArithmeticOp) -> bool
    ensures { result ≡ words.takes_one op }
{
    matches!(op, ArithmeticOp::Neg | ArithmeticOp::Not)
}

/// Whether it is a shift.
#[inline(always)]
pub fn is_shift(op: ArithmeticOp) -> bool
    ensures { result ≡ words.is_shift op }
{
    matches!(
        op,
        ArithmeticOp::Shl | ArithmeticOp::Shr | ArithmeticOp::Ushr
    )
}

#[inline(always)]
fn truth_of(holds: bool) -> Option<Num>
    ensures { result ≡ Some (truth holds) }
{
    if holds {
        Some(Num::Int(1))
    } else {
        Some(Num::Int(0))
    }
}

#[inline(always)]
fn some_int(number: Option<i32>) -> Option<Num>
    ensures { result ≡ some_of n.Int number }
{
    match number {
        Some(number) => Some(Num::Int(number)),
        None => None,
    }
}

#[inline(always)]
fn some_long(number: Option<i64>) -> Option<Num>
    ensures { result ≡ some_of n.Long number }
{
    match number {
        Some(number) => Some(Num::Long(number)),
        None => None,
    }
}

/// An operator on ints. The operator is chosen here alone.
#[inline(always)]
pub fn on_ints(op: ArithmeticOp, a: i32, b: i32) -> Option<Num>
    ensures { result ≡ of_type n.Int w32 (words.op_of op) a b }
{
    match op {
        ArithmeticOp::Add => Some(Num::Int(int::sum(a, b))),
        ArithmeticOp::Sub => Some(Num::Int(int::difference(a, b))),
        ArithmeticOp::Mul => Some(Num::Int(int::product(a, b))),
        ArithmeticOp::Div => some_int(int::quotient(a, b)),
        ArithmeticOp::Rem => some_int(int::remainder(a, b)),
        ArithmeticOp::And => Some(Num::Int(int::and(a, b))),
        ArithmeticOp::Or => Some(Num::Int(int::or(a, b))),
        ArithmeticOp::Xor => Some(Num::Int(int::xor(a, b))),
        ArithmeticOp::Neg => Some(Num::Int(int::negation(a))),
        ArithmeticOp::Not => Some(Num::Int(int::complement(a))),
        ArithmeticOp::Shl => Some(Num::Int(int::left_shift(a, b))),
        ArithmeticOp::Shr => Some(Num::Int(int::right_shift(a, b))),
        ArithmeticOp::Ushr => Some(Num::Int(int::unsigned_shift(a, b))),
        ArithmeticOp::Lt => truth_of(a < b),
        ArithmeticOp::Le => truth_of(a <= b),
        ArithmeticOp::Gt => truth_of(b < a),
        ArithmeticOp::Ge => truth_of(b <= a),
        ArithmeticOp::Eq => truth_of(a == b),
        ArithmeticOp::Ne => truth_of(a != b),
    }
}

/// An operator on longs. The right operand of a shift is an int, and is cast to one.
#[inline(always)]
pub fn on_longs(op: ArithmeticOp, a: i64, b: i64) -> Option<Num>
    ensures { result ≡ of_type n.Long w64 (words.op_of op) a b }
{
    match op {
        ArithmeticOp::Add => Some(Num::Long(long::sum(a, b))),
        ArithmeticOp::Sub => Some(Num::Long(long::difference(a, b))),
        ArithmeticOp::Mul => Some(Num::Long(long::product(a, b))),
        ArithmeticOp::Div => some_long(long::quotient(a, b)),
        ArithmeticOp::Rem => some_long(long::remainder(a, b)),
        ArithmeticOp::And => Some(Num::Long(long::and(a, b))),
        ArithmeticOp::Or => Some(Num::Long(long::or(a, b))),
        ArithmeticOp::Xor => Some(Num::Long(long::xor(a, b))),
        ArithmeticOp::Neg => Some(Num::Long(long::negation(a))),
        ArithmeticOp::Not => Some(Num::Long(long::complement(a))),
        ArithmeticOp::Shl => Some(Num::Long(long::left_shift(a, low_int(b)))),
        ArithmeticOp::Shr => Some(Num::Long(long::right_shift(a, low_int(b)))),
        ArithmeticOp::Ushr => Some(Num::Long(long::unsigned_shift(a, low_int(b)))),
        ArithmeticOp::Lt => truth_of(a < b),
        ArithmeticOp::Le => truth_of(a <= b),
        ArithmeticOp::Gt => truth_of(b < a),
        ArithmeticOp::Ge => truth_of(b <= a),
        ArithmeticOp::Eq => truth_of(a == b),
        ArithmeticOp::Ne => truth_of(a != b),
    }
}

/// The same as a call, for where it is not inlined.
#[inline(never)]
pub fn call_on_longs(op: ArithmeticOp, a: i64, b: i64) -> Option<Num>
    ensures { result ≡ of_type n.Long w64 (words.op_of op) a b }
{
    on_longs(op, a, b)
}
