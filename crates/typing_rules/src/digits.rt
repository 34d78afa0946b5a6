//! Integer literals.

ghost use Rattle.std.specs.Prelude.{◌≡◌, ◌+◌, ◌*◌, ◌≤◌, ◌<◌, ◌^◌, ◌-◌, MatchOption};
ghost use Rattle.typing_rules.specs.Rules.Digits.{digit_of, is_long, magnitude, unmarked, value_after};

/// The magnitude of the least long.
const LEAST: u64 = 9_223_372_036_854_775_808;

/// Whether a literal is a long, by its last byte.
pub(crate) fn is_long(spelling: &[u8]) -> bool
    ensures { result ≡ is_long spelling.now }
{
    match spelling.last() {
        Some(byte) => *byte == b'l' || *byte == b'L',
        None => false,
    }
}

/// A literal without its last byte.
pub(crate) fn unmarked(spelling: &[u8]) -> &[u8]
    ensures { result.now ≡ unmarked spelling.now }
{
    match spelling {
        [digits @ .., _] => digits,
        [] => spelling,
    }
}

/// What a digit is worth.
fn digit_of(digit: u8) -> u64
    ensures value { result ≡ digit_of digit }
    ensures small { result < 256 }
{
    if digit <= b'9' {
        u64::from(digit.saturating_sub(b'0'))
    } else if digit >= b'a' {
        u64::from(digit) - 87
    } else {
        u64::from(digit) - 55
    }
}

/// One digit more, where the number is at most the magnitude of the least long.
fn next_of(base: u64, value: u64, digit: u64) -> Option<u64>
    ensures { MatchOption result (2 ^ 63 < base * value + digit) (λ n. (n ≡ base * value + digit) × (n ≤ 2 ^ 63)) }
{
    let Some(shifted) = base.checked_mul(value) else {
        return None;
    };
    let Some(next) = shifted.checked_add(digit) else {
        return None;
    };
    if next > LEAST { None } else { Some(next) }
}

/// The number that digits of a base stand for, where it is at most the magnitude of the least long.
fn value_of(base: u64, digits: &[u8]) -> Option<u64>
    requires some { 1 ≤ base }
    ensures { MatchOption result (2 ^ 63 < value_after base 0 digits.now) (λ value. (value ≡ value_after base 0 digits.now) × (value ≤ 2 ^ 63)) }
{
    let mut value: u64 = 0;
    for digit in digits {
        match next_of(base, value, digit_of(*digit)) {
            Some(next) => value = next,
            None => return None,
        }
    }
    Some(value)
}

/// The number that a literal without a mark stands for, where it is at most the magnitude of the least long.
pub(crate) fn magnitude(spelling: &[u8]) -> Option<u64>
    ensures { MatchOption result (2 ^ 63 < magnitude spelling.now) (λ value. (value ≡ magnitude spelling.now) × (value ≤ 2 ^ 63)) }
{
    match spelling {
        [b'0'] => Some(0),
        [b'0', b'x' | b'X', digits @ ..] => value_of(16, digits),
        [b'0', digits @ ..] => value_of(8, digits),
        _ => value_of(10, spelling),
    }
}
