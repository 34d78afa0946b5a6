//! Classes of bytes, and how many bytes of a class lead a text.

ghost use Rattle.std.specs.Prelude.{◌≡◌};
ghost use Rattle.std.specs.Char.{is_ascii_digit, is_ascii_hexdigit};
ghost use Rattle.std.specs.List.{prefix_len};
ghost use Rattle.pl_lexer.specs.Bytes.{is_blank, in_line, is_letter, is_name_byte, is_octal_digit, is_quote};

/// Whether a byte is a space, a tab or the end of a line.
pub fn is_blank(b: u8) -> bool
    ensures { result ≡ is_blank b }
{
    b == b' ' || b == b'\t' || b == b'\n' || b == b'\r'
}

/// Whether a name may begin with a byte: a letter of ASCII or `_`.
pub fn is_letter(b: u8) -> bool
    ensures { result ≡ is_letter b }
{
    b.is_ascii_alphabetic() || b == b'_'
}

/// Whether a name may go on with a byte: a letter of ASCII, a digit or `_`.
pub fn is_name_byte(b: u8) -> bool
    ensures { result ≡ is_name_byte b }
{
    is_letter(b) || b.is_ascii_digit()
}

/// Whether a byte is a digit of base 8.
pub fn is_octal_digit(b: u8) -> bool
    ensures { result ≡ is_octal_digit b }
{
    matches!(b, b'0'..=b'7')
}

/// Whether a text begins with a byte: `'` or `"`.
pub fn is_quote(b: u8) -> bool
    ensures { result ≡ is_quote b }
{
    b == b'\'' || b == b'"'
}

fn in_line(b: u8) -> bool
    ensures { result ≡ in_line b }
{
    b != b'\n' && b != b'\r'
}

/// How many digits lead the text.
pub fn digits(text: &[u8]) -> usize
    ensures { result ≡ prefix_len is_ascii_digit text.now }
{
    text.iter().take_while(|b| b.is_ascii_digit()).count()
}

/// How many digits of base 8 lead the text.
pub fn octal_digits(text: &[u8]) -> usize
    ensures { result ≡ prefix_len is_octal_digit text.now }
{
    text.iter().take_while(|b| is_octal_digit(**b)).count()
}

/// How many digits of base 16 lead the text.
pub fn hexadecimal_digits(text: &[u8]) -> usize
    ensures { result ≡ prefix_len is_ascii_hexdigit text.now }
{
    text.iter().take_while(|b| b.is_ascii_hexdigit()).count()
}

/// How many letters, digits and `_` lead the text.
pub fn name_bytes(text: &[u8]) -> usize
    ensures { result ≡ prefix_len is_name_byte text.now }
{
    text.iter().take_while(|b| is_name_byte(**b)).count()
}

/// How many bytes the text has before its first line ends.
pub fn line_bytes(text: &[u8]) -> usize
    ensures { result ≡ prefix_len in_line text.now }
{
    text.iter().take_while(|b| in_line(**b)).count()
}
