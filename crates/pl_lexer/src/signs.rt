//! Operators, brackets and separators.

ghost use Rattle.std.specs.Prelude.{◌≡◌, ◌≢◌, ◌∷◌, [], length};
ghost use Rattle.pl_lexer.specs.Tables.{look_up, signs, sign_of};
ghost use Rattle.pl_lexer.specs.Longest.{Finds, Shows};

use crate::found::Found;
use crate::{Kind, Sign};

// The sign that one byte is.
fn single(b: u8) -> Option<Sign>
    ensures { result ≡ look_up (b ∷ []) signs }
{
    match b {
        b'(' => Some(Sign::LeftParen),
        b')' => Some(Sign::RightParen),
        b'[' => Some(Sign::LeftBracket),
        b']' => Some(Sign::RightBracket),
        b'{' => Some(Sign::LeftBrace),
        b'}' => Some(Sign::RightBrace),
        b'.' => Some(Sign::Dot),
        b',' => Some(Sign::Comma),
        b';' => Some(Sign::Semicolon),
        b'?' => Some(Sign::Question),
        b':' => Some(Sign::Colon),
        b'+' => Some(Sign::Plus),
        b'-' => Some(Sign::Minus),
        b'*' => Some(Sign::Star),
        b'/' => Some(Sign::Slash),
        b'%' => Some(Sign::Percent),
        b'!' => Some(Sign::Not),
        b'~' => Some(Sign::Tilde),
        b'<' => Some(Sign::Less),
        b'>' => Some(Sign::Greater),
        b'&' => Some(Sign::And),
        b'^' => Some(Sign::Xor),
        b'|' => Some(Sign::Or),
        b'=' => Some(Sign::Assign),
        _ => None,
    }
}

// The sign that two bytes are.
fn double(b: u8, c: u8) -> Option<Sign>
    ensures { result ≡ look_up (b ∷ c ∷ []) signs }
{
    match (b, c) {
        (b'?', b'.') => Some(Sign::NullDot),
        (b'?', b':') => Some(Sign::Elvis),
        (b':', b':') => Some(Sign::ColonColon),
        (b'-', b'>') => Some(Sign::Arrow),
        (b'+', b'+') => Some(Sign::Increment),
        (b'-', b'-') => Some(Sign::Decrement),
        (b'<', b'<') => Some(Sign::ShiftLeft),
        (b'>', b'>') => Some(Sign::ShiftRight),
        (b'<', b'=') => Some(Sign::LessEqual),
        (b'>', b'=') => Some(Sign::GreaterEqual),
        (b'=', b'=') => Some(Sign::Equal),
        (b'!', b'=') => Some(Sign::NotEqual),
        (b'&', b'&') => Some(Sign::AndAnd),
        (b'|', b'|') => Some(Sign::OrOr),
        (b'+', b'=') => Some(Sign::AddAssign),
        (b'-', b'=') => Some(Sign::SubtractAssign),
        (b'*', b'=') => Some(Sign::MultiplyAssign),
        (b'/', b'=') => Some(Sign::DivideAssign),
        (b'%', b'=') => Some(Sign::RemainderAssign),
        (b'&', b'=') => Some(Sign::AndAssign),
        (b'^', b'=') => Some(Sign::XorAssign),
        (b'|', b'=') => Some(Sign::OrAssign),
        _ => None,
    }
}

// The sign that three bytes are.
fn triple(b: u8, c: u8, d: u8) -> Option<Sign>
    ensures { result ≡ look_up (b ∷ c ∷ d ∷ []) signs }
{
    match (b, c, d) {
        (b'>', b'>', b'>') => Some(Sign::ShiftRightUnsigned),
        (b'=', b'=', b'=') => Some(Sign::Same),
        (b'!', b'=', b'=') => Some(Sign::NotSame),
        (b'<', b'<', b'=') => Some(Sign::ShiftLeftAssign),
        (b'>', b'>', b'=') => Some(Sign::ShiftRightAssign),
        _ => None,
    }
}

// The sign that four bytes are.
fn quadruple(b: u8, c: u8, d: u8, e: u8) -> Option<Sign>
    ensures { result ≡ look_up (b ∷ c ∷ d ∷ e ∷ []) signs }
{
    match (b, c, d, e) {
        (b'>', b'>', b'>', b'=') => Some(Sign::ShiftRightUnsignedAssign),
        _ => None,
    }
}

// The sign that all of the bytes are.
fn sign_at(bytes: &[u8]) -> Option<Sign>
    ensures { result ≡ look_up bytes.now signs }
{
    match bytes {
        [b] => single(*b),
        [b, c] => double(*b, *c),
        [b, c, d] => triple(*b, *c, *d),
        [b, c, d, e] => quadruple(*b, *c, *d, *e),
        _ => None,
    }
}

// What all of the bytes are.
#[tactic(auto, unfolding(crate::specs::Tables::sign_of))]
fn shown(bytes: &[u8]) -> Found
    ensures { Shows (sign_of bytes.now) (length bytes.now) result }
{
    if bytes == b"=~".as_slice() || bytes == b"==~".as_slice() {
        return Found::Foreign;
    }
    match sign_at(bytes) {
        Some(sign) => Found::Leading(Kind::Sign(sign), bytes.len()),
        None => Found::Nothing,
    }
}

/// The sign that leads a text.
pub fn sign_found(text: &[u8]) -> Found
    requires { text.now ≢ [] }
    ensures { Finds (λ bytes _. sign_of bytes) text.now result }
{
    let mut size = text.len().min(4);
    while size > 0 {
        match shown(text.split_at(size).0) {
            Found::Nothing => size -= 1,
            found => return found,
        }
    }
    Found::Nothing
}
