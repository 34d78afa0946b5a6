//! Texts and comments, and what begins with a slash.

ghost use Rattle.std.specs.Prelude.{◌≡◌, ◌≤◌, true, false, length, IfSome};
ghost use Rattle.pl_lexer.specs.Bytes.{begins, is_quote};
ghost use Rattle.pl_lexer.specs.Enclosed.{text_next, comment_next, text_of, slash_of};
ghost use Rattle.pl_lexer.specs.Lengths.{closed_at, second_is};
ghost use Rattle.pl_lexer.specs.Spelling.{is_slash};
ghost use Rattle.pl_lexer.specs.Longest.{Finds};

use crate::Kind;
use crate::bytes::line_bytes;
use crate::found::Found;
use crate::signs::sign_found;

// How many bytes there are up to the quote that ends a text, with it.
fn text_length(bytes: &[u8], quote: u8) -> Option<usize>
    ensures length { result ≡ closed_at (text_next quote) false bytes.now }
    ensures within { IfSome result (λ n. n ≤ length bytes.now) }
{
    let mut escaped = false;
    for (i, b) in bytes.iter().enumerate() {
        if escaped {
            if *b != b'\\' && *b != quote {
                return None;
            }
            escaped = false;
        } else if *b == quote {
            return Some(i + 1);
        } else {
            escaped = *b == b'\\';
        }
    }
    None
}

// How many bytes there are up to the `*/` that ends a comment, with it.
fn comment_length(bytes: &[u8]) -> Option<usize>
    ensures length { result ≡ closed_at comment_next false bytes.now }
    ensures within { IfSome result (λ n. n ≤ length bytes.now) }
{
    let mut star = false;
    for (i, b) in bytes.iter().enumerate() {
        if star && *b == b'/' {
            return Some(i + 1);
        }
        star = *b == b'*';
    }
    None
}

/// The text that leads bytes which begin with a quote.
pub fn text_found(text: &[u8]) -> Found
    requires { begins is_quote text.now ≡ true }
    ensures { Finds (λ bytes _. text_of bytes) text.now result }
{
    let (quote, rest) = text.split_at(1);
    match text_length(rest, quote[0]) {
        Some(length) => Found::Leading(Kind::Text, 1 + length),
        None => Found::Nothing,
    }
}

// The second byte of the text is this one.
fn second_is(text: &[u8], b: u8) -> bool
    ensures { result ≡ second_is b text.now }
{
    text.len() > 1 && text[1] == b
}

// The comment that leads a text which begins with `/*`.
fn comment_found(text: &[u8]) -> Found
    requires { second_is 42 text.now ≡ true }
    ensures { Finds slash_of text.now result }
{
    match comment_length(text.split_at(2).1) {
        Some(length) => Found::Blank(2 + length),
        None => Found::Nothing,
    }
}

/// The comment or the sign that leads a text which begins with a slash.
#[tactic(auto, using(crate::proofs::Runs::run_within))]
pub fn slash_found(text: &[u8]) -> Found
    requires { begins is_slash text.now ≡ true }
    ensures { Finds slash_of text.now result }
{
    if second_is(text, b'/') {
        return Found::Blank(2 + line_bytes(text.split_at(2).1));
    }
    if second_is(text, b'*') {
        return comment_found(text);
    }
    sign_found(text)
}
