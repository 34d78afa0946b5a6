//! The type `long`.

ghost use Rattle.std.specs.Prelude.{◌≡◌};
ghost use Rattle.std.specs.Int.{w64};
ghost use Rattle.arithmetic.specs.Arithmetic.{sum_of, difference_of, product_of, negation_of, quotient_of, remainder_of, and_of, or_of, xor_of, complement_of, left_shift_of, right_shift_of, unsigned_shift_of};

/// `a + b`. A sum out of range wraps around (Java Language Specification, 15.18.2).
pub fn sum(a: i64, b: i64) -> i64
    ensures { result ≡ sum_of w64 a b }
{
    a.wrapping_add(b)
}

/// `a - b`. A difference out of range wraps around (Java Language Specification, 15.18.2).
pub fn difference(a: i64, b: i64) -> i64
    ensures { result ≡ difference_of w64 a b }
{
    a.wrapping_sub(b)
}

/// `a * b`. A product out of range wraps around (Java Language Specification, 15.17.1).
pub fn product(a: i64, b: i64) -> i64
    ensures { result ≡ product_of w64 a b }
{
    a.wrapping_mul(b)
}

/// `-a`. The least number's negation is itself (Java Language Specification, 15.15.4).
pub fn negation(a: i64) -> i64
    ensures { result ≡ negation_of w64 a }
{
    a.wrapping_neg()
}

/// `a / b`, cut towards zero. The least number divided by -1 is itself (Java Language Specification, 15.17.2).
/// `None` where `b` is zero, where an `ArithmeticException` is thrown.
pub fn quotient(a: i64, b: i64) -> Option<i64>
    ensures { result ≡ quotient_of w64 a b }
{
    if b == 0 {
        None
    } else {
        Some(a.wrapping_div(b))
    }
}

/// `a % b`, which has the sign of `a`. The least number leaves 0 at -1 (Java Language Specification, 15.17.3).
/// `None` where `b` is zero, where an `ArithmeticException` is thrown.
pub fn remainder(a: i64, b: i64) -> Option<i64>
    ensures { result ≡ remainder_of a b }
{
    if b == 0 {
        None
    } else {
        Some(a.wrapping_rem(b))
    }
}

/// `a & b` (Java Language Specification, 15.22.1).
pub fn and(a: i64, b: i64) -> i64
    ensures { result ≡ and_of w64 a b }
{
    a & b
}

/// `a | b` (Java Language Specification, 15.22.1).
pub fn or(a: i64, b: i64) -> i64
    ensures { result ≡ or_of w64 a b }
{
    a | b
}

/// `a ^ b` (Java Language Specification, 15.22.1).
pub fn xor(a: i64, b: i64) -> i64
    ensures { result ≡ xor_of w64 a b }
{
    a ^ b
}

/// `~a` (Java Language Specification, 15.15.5).
pub fn complement(a: i64) -> i64
    ensures { result ≡ complement_of w64 a }
{
    !a
}

/// `a << by`, by the low 6 bits of `by` (Java Language Specification, 15.19).
pub fn left_shift(a: i64, by: i32) -> i64
    ensures { result ≡ left_shift_of w64 a by }
{
    a.wrapping_shl(by.cast_unsigned())
}

/// `a >> by`, by the low 6 bits of `by`, with copies of the sign (Java Language Specification, 15.19).
pub fn right_shift(a: i64, by: i32) -> i64
    ensures { result ≡ right_shift_of w64 a by }
{
    a.wrapping_shr(by.cast_unsigned())
}

/// `a >>> by`, by the low 6 bits of `by`, with zeros (Java Language Specification, 15.19).
pub fn unsigned_shift(a: i64, by: i32) -> i64
    ensures { result ≡ unsigned_shift_of w64 a by }
{
    a.cast_unsigned()
        .wrapping_shr(by.cast_unsigned())
        .cast_signed()
}
