//! Numbers.

ghost use Rattle.std.specs.Prelude.{◌≡◌, ◌+◌, ◌≤◌, true, length, drop};
ghost use Rattle.std.specs.Char.{is_ascii_digit, is_ascii_hexdigit};
ghost use Rattle.pl_lexer.specs.Bytes.{begins};
ghost use Rattle.pl_lexer.specs.Numbers.{number_of, dot_number_of};
ghost use Rattle.pl_lexer.specs.Lengths.{whole_length, mark_length, begins_hexadecimal, integer_length, goes_decimal};
ghost use Rattle.pl_lexer.specs.Longest.{Finds};

use crate::Kind;
use crate::bytes::{digits, hexadecimal_digits, octal_digits};
use crate::found::Found;

// The length of the whole part of a number in base 10.
#[tactic(auto, using(crate::proofs::Runs::run_within))]
fn whole_length(text: &[u8]) -> usize
    requires { begins is_ascii_digit text.now ≡ true }
    ensures length { result ≡ whole_length text.now }
    ensures within { result ≤ length text.now }
{
    if text[0] == b'0' { 1 } else { digits(text) }
}

// So many digits, and the mark of a long if it follows them.
fn with_mark(text: &[u8], count: usize) -> usize
    requires { count ≤ length text.now }
    ensures length { result ≡ count + mark_length (drop count text.now) }
    ensures within { result ≤ length text.now }
{
    match text.split_at(count).1 {
        [b'l' | b'L', ..] => count + 1,
        _ => count,
    }
}

fn begins_hexadecimal(text: &[u8]) -> bool
    ensures { result ≡ begins_hexadecimal text.now }
{
    match text {
        [b'x' | b'X', digit, ..] => digit.is_ascii_hexdigit(),
        _ => false,
    }
}

// The length of the integer at the front.
#[tactic(auto, using(crate::proofs::Runs::run_within))]
fn integer_length(text: &[u8]) -> usize
    requires { begins is_ascii_digit text.now ≡ true }
    ensures { result ≡ integer_length text.now }
{
    if text[0] != b'0' {
        return with_mark(text, digits(text));
    }
    let rest = text.split_at(1).1;
    if begins_hexadecimal(rest) {
        let behind = rest.split_at(1).1;
        return 2 + with_mark(behind, hexadecimal_digits(behind));
    }
    1 + with_mark(rest, octal_digits(rest))
}

// A fraction, an exponent or the mark of a floating-point type begins.
fn goes_decimal(text: &[u8]) -> bool
    ensures { result ≡ goes_decimal text.now }
{
    match text {
        [b'f' | b'F' | b'd' | b'D', ..] => true,
        [b'.', digit, ..] => digit.is_ascii_digit(),
        [b'e' | b'E', b'+' | b'-', digit, ..] => digit.is_ascii_digit(),
        [b'e' | b'E', digit, ..] => digit.is_ascii_digit(),
        _ => false,
    }
}

/// The number that leads a text which begins with a digit.
pub fn number_found(text: &[u8]) -> Found
    requires { begins is_ascii_digit text.now ≡ true }
    ensures { Finds (λ bytes _. number_of bytes) text.now result }
{
    let whole = whole_length(text);
    if goes_decimal(text.split_at(whole).1) {
        Found::Foreign
    } else {
        Found::Leading(Kind::Integer, integer_length(text))
    }
}

/// The number that leads a text which begins with a digit and follows a dot.
pub fn dot_number_found(text: &[u8]) -> Found
    requires { begins is_ascii_digit text.now ≡ true }
    ensures { Finds (λ bytes _. dot_number_of bytes) text.now result }
{
    Found::Leading(Kind::DotInteger, whole_length(text))
}
