//! Casts from a number type to a smaller one, which keep the low bits (Java Language Specification, 5.1.3).

ghost use Rattle.std.specs.Prelude.{◌≡◌};
ghost use Rattle.std.specs.Int.{w8, w16, w32};
ghost use Rattle.arithmetic.specs.Arithmetic.{wrapped, low_bits};

/// A long as an int: its low 32 bits.
pub fn low_int(number: i64) -> i32
    ensures { result ≡ wrapped w32 number }
{
    ((number.cast_unsigned() % 4_294_967_296) as u32).cast_signed()
}

/// An int as a short: its low 16 bits.
pub fn low_short(number: i32) -> i16
    ensures { result ≡ wrapped w16 number }
{
    ((number.cast_unsigned() % 65_536) as u16).cast_signed()
}

/// An int as a byte: its low 8 bits.
pub fn low_byte(number: i32) -> i8
    ensures { result ≡ wrapped w8 number }
{
    ((number.cast_unsigned() % 256) as u8).cast_signed()
}

/// An int as a char: its low 16 bits, without a sign.
pub fn low_char(number: i32) -> u16
    ensures { result ≡ low_bits 16 number }
{
    (number.cast_unsigned() % 65_536) as u16
}
