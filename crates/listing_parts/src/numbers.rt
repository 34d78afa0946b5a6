//! Numbers in decimal.

ghost use Rattle.std.specs.Prelude.{◌≡◌, ◌^◌, decimal};
ghost use Rattle.std.specs.Fmt.{signed_decimal};
ghost use Rattle.std.specs.Str.{bytes_eq};
ghost use Rattle.listing_parts.specs.Numbers.{natural_of, integer_of};

use itoa::Buffer;

/// Whether this is the decimal text of a number.
fn is_count(text: &str, number: u64) -> bool
    ensures { result ≡ bytes_eq (decimal number) text.now }
{
    let mut buffer = Buffer::new();
    buffer.format(number) == text
}

/// Whether this is the decimal text of a signed number.
fn is_long(text: &str, number: i64) -> bool
    ensures { result ≡ bytes_eq (signed_decimal number) text.now }
{
    let mut buffer = Buffer::new();
    buffer.format(number) == text
}

/// The unsigned number of 32 bits whose decimal text this is.
pub fn natural(text: &str) -> Option<u32>
    ensures { result ≡ natural_of (2 ^ 32) text.now }
{
    let Ok(number) = text.parse::<u32>() else {
        return None;
    };
    if is_count(text, u64::from(number)) {
        Some(number)
    } else {
        None
    }
}

/// The unsigned number of 64 bits whose decimal text this is.
pub fn count(text: &str) -> Option<u64>
    ensures { result ≡ natural_of (2 ^ 64) text.now }
{
    let Ok(number) = text.parse::<u64>() else {
        return None;
    };
    if is_count(text, number) {
        Some(number)
    } else {
        None
    }
}

/// The signed number of 32 bits whose decimal text this is.
pub fn int(text: &str) -> Option<i32>
    ensures { result ≡ integer_of (2 ^ 31) text.now }
{
    let Ok(number) = text.parse::<i32>() else {
        return None;
    };
    if is_long(text, i64::from(number)) {
        Some(number)
    } else {
        None
    }
}

/// The signed number of 64 bits whose decimal text this is.
pub fn long(text: &str) -> Option<i64>
    ensures { result ≡ integer_of (2 ^ 63) text.now }
{
    let Ok(number) = text.parse::<i64>() else {
        return None;
    };
    if is_long(text, number) {
        Some(number)
    } else {
        None
    }
}
