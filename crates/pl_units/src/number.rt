//! Whole numbers as texts, and the numbers that texts write.
ghost use Rattle.std.specs.Prelude.{◌≡◌, ◌*◌, ◌+◌, ◌-◌, ◌^◌, ◌<◌, FitsSigned, IfOk, IsTrue, Some};
ghost use Rattle.std.specs.Char.{IsAsciiDigit};
ghost use Rattle.std.specs.Fmt.{signed_decimal};
ghost use Rattle.std.specs.Int.{w32, w64};
ghost use Rattle.std.specs.Option.{SomeIff};
ghost use Rattle.pl_units.specs.WholeNumber.{is_numeral, is_whole_number, digits_value, whole_number, int_of, long_of};

use crate::UText;
use itoa::Buffer;
use std::alloc::{AllocError, Global};

const PLUS: u16 = 43;

const MINUS: u16 = 45;

/// The decimal text of a number: its digits with no leading zero, after a `-` where it is below 0.
pub fn decimal(alloc: Global, n: i64) -> Result<UText, AllocError>
    ensures text { IfOk result (λ t. t ≡ signed_decimal n) }
    ensures read_back { IfOk result (λ t. long_of t ≡ Some n) }
{
    let mut buffer = Buffer::new();
    UText::from_utf8(alloc, buffer.format(n))
}

/// The number that a text writes in decimal, with an optional `+` or `-` and at least one ASCII digit, leading zeros
/// allowed. It is `None` exactly where the text is anything else, or the number is no signed one of 32 bits.
pub fn parse_int(t: &UText) -> Option<i32>
    ensures { result ≡ int_of t.now }
{
    int_in(t.units())
}

/// The same as `parse_int` for a signed number of 64 bits.
pub fn parse_long(t: &UText) -> Option<i64>
    ensures { result ≡ long_of t.now }
{
    long_in(t.units())
}

fn int_in(text: &[u16]) -> Option<i32>
    ensures { SomeIff result
        (IsTrue (is_whole_number text.now) × FitsSigned w32 (whole_number text.now))
        (whole_number text.now) }
{
    i32::try_from(long_in(text)?).ok()
}

fn long_in(text: &[u16]) -> Option<i64>
    ensures { SomeIff result
        (IsTrue (is_whole_number text.now) × FitsSigned w64 (whole_number text.now))
        (whole_number text.now) }
{
    match text {
        [MINUS, digits @ ..] => 0i64.checked_sub_unsigned(numeral(digits)?),
        [PLUS, digits @ ..] => 0i64.checked_add_unsigned(numeral(digits)?),
        digits => 0i64.checked_add_unsigned(numeral(digits)?),
    }
}

// The value of one digit or more, if it is below 2 ^ 64.
fn numeral(digits: &[u16]) -> Option<u64>
    ensures { SomeIff result
        (IsTrue (is_numeral digits.now) × (digits_value digits.now < 2 ^ 64))
        (digits_value digits.now) }
{
    if digits.is_empty() {
        return None;
    }
    let mut value = 0;
    for digit in digits {
        value = with_digit(value, *digit)?;
    }
    Some(value)
}

// The value of digits with one more after them.
fn with_digit(value: u64, digit: u16) -> Option<u64>
    ensures { SomeIff result
        (IsAsciiDigit digit × (value * 10 + (digit - 48) < 2 ^ 64))
        (value * 10 + (digit - 48)) }
{
    if !(48..58).contains(&digit) {
        return None;
    }
    value.checked_mul(10)?.checked_add(u64::from(digit - 48))
}
