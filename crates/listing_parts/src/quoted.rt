//! Texts in double quotes.

ghost use Rattle.std.specs.Prelude.{◌≡◌, ◌++◌, ◌∷◌, ◌<◌, ◌/◌, ◌%◌, [], IfOk, OnOk, length, option_map, ◌==◌, ◌&&◌};
ghost use Rattle.std.specs.String.{string_bytes};
ghost use Rattle.std.specs.Str.{bytes_eq, is_utf8};
ghost use Rattle.listing_parts.specs.Names.{formed};
ghost use Rattle.listing_parts.specs.Quoted.{hex_digit, escaped_letter, quoted, control_of, control_at, escape_at, byte_at, unquoted, text_of};
ghost use Rattle.listing_parts.specs.Seen.{seen_byte};

use plain_data::Text;
use std::alloc::{AllocError, Global};

const CONTROLS: [u8; 32] = [
    0, 1, 2, 3, 4, 5, 6, 7, 8, 9, 10, 11, 12, 13, 14, 15, 16, 17, 18, 19, 20, 21, 22, 23, 24, 25,
    26, 27, 28, 29, 30, 31,
];

fn hex_digit(n: u8) -> u8
    requires { n < 16 }
    ensures { result ≡ hex_digit n }
{
    if n < 10 { 48 + n } else { 87 + n }
}

/// Adds one character as it stands in quotes.
fn push_escaped(out: &mut String, letter: char) -> Result<(), AllocError>
    ensures { OnOk result (string_bytes out.new ≡ string_bytes out.old ++ escaped_letter letter) }
{
    if letter == '\\' || letter == '"' {
        out.push('\\')?;
        return out.push(letter);
    }
    if letter < ' ' {
        let code = letter as u8;
        out.push_str("\\x")?;
        out.push(char::from(hex_digit(code / 16)))?;
        return out.push(char::from(hex_digit(code % 16)));
    }
    out.push(letter)
}

/// Adds a text in quotes: `\\` and `\"` for these two, and `\x` with two digits for bytes below 32.
#[tactic(auto, unfolding(crate::specs::Quoted::quoted))]
pub fn push_quoted(out: &mut String, text: &str) -> Result<(), AllocError>
    ensures { OnOk result (string_bytes out.new ≡ string_bytes out.old ++ quoted text.now) }
{
    out.push('"')?;
    for letter in text.chars() {
        push_escaped(out, letter)?;
    }
    out.push('"')
}

fn has_digits(code: u8, high: u8, low: u8) -> bool
    ensures { result ≡ ((hex_digit (code / 16) == high) && (hex_digit (code % 16) == low)) }
{
    let is_high = hex_digit(code / 16) == high;
    let is_low = hex_digit(code % 16) == low;
    is_high && is_low
}

/// The byte below 32 with these hexadecimal digits.
#[tactic(auto, unfolding(crate::specs::Quoted::control_of))]
fn control_of(high: u8, low: u8) -> Option<u8>
    ensures { result ≡ control_of high low }
{
    CONTROLS
        .iter()
        .copied()
        .find(|code| has_digits(*code, high, low))
}

/// What follows `\x`: two digits, and the rest.
fn control_at(text: &[u8]) -> Option<(u8, &[u8])>
    ensures { option_map seen_byte result ≡ control_at text.now }
{
    match text {
        [high, low, rest @ ..] => match control_of(*high, *low) {
            Some(code) => Some((code, rest)),
            None => None,
        },
        [_] => None,
        [] => None,
    }
}

/// What follows a `\`.
fn escape_at(text: &[u8]) -> Option<(u8, &[u8])>
    ensures { option_map seen_byte result ≡ escape_at text.now }
{
    match text {
        [] => None,
        [first, rest @ ..] => {
            if *first == b'x' {
                control_at(rest)
            } else if *first == b'\\' || *first == b'"' {
                Some((*first, rest))
            } else {
                None
            }
        }
    }
}

/// The byte that the front of what stands in quotes is for, and what follows it.
#[tactic(auto, unfolding(crate::specs::Quoted::byte_at))]
fn byte_at(text: &[u8]) -> Option<(u8, &[u8])>
    ensures { option_map seen_byte result ≡ byte_at text.now }
{
    match text {
        [] => None,
        [first, rest @ ..] => {
            if *first == b'\\' {
                escape_at(rest)
            } else if *first == b'"' || *first < 32 {
                None
            } else {
                Some((*first, rest))
            }
        }
    }
}

fn is_end(text: &[u8]) -> bool
    ensures { result ≡ bytes_eq text.now (34 ∷ []) }
{
    text == b"\"".as_slice()
}

/// The bytes up to a quote at the end.
fn unquoted_bytes(alloc: Global, text: &[u8]) -> Result<Option<Vec<u8>>, AllocError>
    ensures { IfOk result (λ found. option_map (λ made. made.items) found ≡ unquoted (length text.now) text.now) }
{
    let mut made = Vec::new(alloc);
    let mut rest = text;
    for _turn in 0..text.len() {
        if is_end(rest) {
            return Ok(Some(made));
        }
        let Some((byte, after)) = byte_at(rest) else {
            return Ok(None);
        };
        made.push(byte)?;
        rest = after;
    }
    Ok(None)
}

/// The text whose form in quotes this is. `None` where there is none, as where its bytes are no UTF-8.
#[tactic(auto, unfolding(crate::specs::Quoted::text_of))]
pub fn unquoted(alloc: Global, text: &str) -> Result<Option<Text>, AllocError>
    ensures { IfOk result (λ found. found ≡ text_of text.now) }
{
    match text.as_bytes() {
        [] => Ok(None),
        [first, rest @ ..] => {
            if *first != b'"' {
                return Ok(None);
            }
            let Some(bytes) = unquoted_bytes(alloc, rest)? else {
                return Ok(None);
            };
            text_of(alloc, bytes.as_slice())
        }
    }
}

/// The text of these bytes, where they are one.
fn text_of(alloc: Global, bytes: &[u8]) -> Result<Option<Text>, AllocError>
    ensures { IfOk result (λ found. found ≡ formed is_utf8 bytes.now) }
{
    match str::from_utf8(bytes) {
        Ok(text) => Ok(Some(Text::new(alloc, text)?)),
        Err(_) => Ok(None),
    }
}
