//! The tokens of a script.

ghost use Rattle.std.specs.Prelude.{◌≡◌, List, Result, IfOk};
ghost use Rattle.pl_types.specs.Answers.{Answers};
ghost use Rattle.pl_types.specs.declared.refusal.Refusal.{Refusal};
ghost use Rattle.pl_lexer.specs.declared.token.Token.{Token};
ghost use Rattle.pl_lexer.specs.Spelling.{is_dot};
ghost use Rattle.pl_lexer.specs.Spelled.{AreSpelled};
ghost use Rattle.pl_lexer.specs.Tokens.{Lexes};

use crate::found::Found;
use crate::reading::found_at;
use crate::{Kind, MOST_BYTES, Sign, Token};
use pl_types::rules::{BAD_TOKEN, OUT_OF_PROFILE, TOO_LARGE};
use pl_types::{Fail, Refusal, TypeNames};
use std::alloc::Global;

// The token is `.` or `?.`.
fn is_dot(kind: Kind) -> bool
    ensures { result ≡ is_dot kind }
{
    match kind {
        Kind::Sign(Sign::Dot) => true,
        Kind::Sign(Sign::NullDot) => true,
        _ => false,
    }
}

// The refusal by this rule at this byte.
fn refused(number: u8, offset: u32) -> Fail
    ensures { result ≡ Fail.Refused (record { number = number; offset = offset }) }
{
    Fail::Refused(Refusal { number, offset })
}

/// The tokens of a script, each the longest that its bytes spell.
///
/// The names say which dotted names are classes. They are asked once for each name that ends in a dotted name which
/// follows no dot, with the script's bytes from the first name to that end. So names that answer for a text longer than
/// their longest by its length alone make the time one of the script's length.
///
/// Refused with the first of these rules that is broken, at a byte of the script counted from 0:
/// `TOO_LARGE` at 65,535 where it has more than 65,535 bytes; `BAD_TOKEN` at the first byte at which no blank, comment
/// or token begins, an unclosed text or comment among them; `OUT_OF_PROFILE` at the first byte of what Painless has and
/// this language leaves out: a number with a fraction, an exponent or a suffix `f`, `F`, `d` or `D`, the words `float`,
/// `double` and `finally`, and the operators `=~` and `==~`. `NoMemory` comes where the list of tokens finds no room.
pub fn lex<N: TypeNames>(alloc: Global, text: &str, names: &N) -> Result<Vec<Token>, Fail>
    ensures exact { Answers (λ v. v.items) result (Lexes text.now (N.class_of names.now)) }
    ensures only { (reading : Result (List Token) Refusal) → Lexes text.now (N.class_of names.now) reading
        → Answers (λ v. v.items) result (λ a. a ≡ reading) }
    ensures spelled { IfOk result (λ v. AreSpelled text.now 0 v.items) }
{
    if text.len() > MOST_BYTES as usize {
        return Err(refused(TOO_LARGE, MOST_BYTES));
    }
    let mut tokens = Vec::new(alloc);
    let mut at: u32 = 0;
    let mut dot = false;
    while (at as usize) < text.len() {
        match found_at(text, at as usize, names, dot) {
            Found::Nothing => return Err(refused(BAD_TOKEN, at)),
            Found::Foreign => return Err(refused(OUT_OF_PROFILE, at)),
            Found::Blank(length) => at += length as u32,
            Found::Leading(kind, length) => {
                let (start, end) = (at, at + length as u32);
                tokens.push(Token { kind, start, end })?;
                at = end;
                dot = is_dot(kind);
            }
        }
    }
    Ok(tokens)
}
