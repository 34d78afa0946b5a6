//! What leads a text, by its first byte.

ghost use Rattle.std.specs.Prelude.{◌<◌, length, drop};
ghost use Rattle.pl_lexer.specs.Longest.{Finds};
ghost use Rattle.pl_lexer.specs.Spelling.{spelling};

use crate::bytes::{is_blank, is_letter, is_quote};
use crate::enclosed::{slash_found, text_found};
use crate::found::Found;
use crate::numbers::{dot_number_found, number_found};
use crate::signs::sign_found;
use crate::words::{dot_word_found, word_found};
use pl_types::TypeNames;

/// What leads a text from a byte on, after a dot or not.
pub fn found_at<N: TypeNames>(text: &str, at: usize, names: &N, dot: bool) -> Found
    requires { at < length text.now }
    ensures { Finds (spelling (N.class_of names.now) dot) (drop at text.now) result }
{
    let rest = text.as_bytes().split_at(at).1;
    let first = rest[0];
    if first.is_ascii_digit() {
        return if dot {
            dot_number_found(rest)
        } else {
            number_found(rest)
        };
    }
    if is_letter(first) {
        return if dot {
            dot_word_found(rest)
        } else {
            word_found(text, at, names)
        };
    }
    if is_quote(first) {
        return text_found(rest);
    }
    if is_blank(first) {
        return Found::Blank(1);
    }
    if first == b'/' {
        return slash_found(rest);
    }
    sign_found(rest)
}
