//! Names, keywords and names of classes.

ghost use Rattle.std.specs.Prelude.{◌≡◌, ◌+◌, ◌≤◌, true, None, length, drop, take};
ghost use Rattle.std.specs.List.{prefix_len};
ghost use Rattle.std.specs.Str.{IsCharBoundary};
ghost use Rattle.pl_lexer.specs.Bytes.{begins, is_letter, is_name_byte};
ghost use Rattle.pl_lexer.specs.Tables.{look_up, statement_words, expression_words, keyword_of, reserved_of};
ghost use Rattle.pl_lexer.specs.Words.{class_of, word_of, dot_word_of};
ghost use Rattle.pl_lexer.specs.Lengths.{dot_word_length, class_or};
ghost use Rattle.pl_lexer.specs.Longest.{Finds, Shows};

use crate::bytes::{is_letter, name_bytes};
use crate::found::Found;
use crate::{Kind, Word};
use pl_types::{TypeNames, primitive_of_word};

// The keyword of a statement that a word is.
fn statement_word(word: &[u8]) -> Option<Word>
    ensures { result ≡ look_up word.now statement_words }
{
    if word == b"if".as_slice() {
        Some(Word::If)
    } else if word == b"else".as_slice() {
        Some(Word::Else)
    } else if word == b"while".as_slice() {
        Some(Word::While)
    } else if word == b"do".as_slice() {
        Some(Word::Do)
    } else if word == b"for".as_slice() {
        Some(Word::For)
    } else if word == b"in".as_slice() {
        Some(Word::In)
    } else if word == b"continue".as_slice() {
        Some(Word::Continue)
    } else if word == b"break".as_slice() {
        Some(Word::Break)
    } else if word == b"return".as_slice() {
        Some(Word::Return)
    } else if word == b"try".as_slice() {
        Some(Word::Try)
    } else if word == b"catch".as_slice() {
        Some(Word::Catch)
    } else if word == b"throw".as_slice() {
        Some(Word::Throw)
    } else {
        None
    }
}

// The keyword of an expression or a declaration that a word is.
fn expression_word(word: &[u8]) -> Option<Word>
    ensures { result ≡ look_up word.now expression_words }
{
    if word == b"new".as_slice() {
        Some(Word::New)
    } else if word == b"this".as_slice() {
        Some(Word::This)
    } else if word == b"instanceof".as_slice() {
        Some(Word::Instanceof)
    } else if word == b"true".as_slice() {
        Some(Word::True)
    } else if word == b"false".as_slice() {
        Some(Word::False)
    } else if word == b"null".as_slice() {
        Some(Word::Null)
    } else if word == b"def".as_slice() {
        Some(Word::Def)
    } else {
        None
    }
}

// The keyword that a word is, but for the names of the primitive types.
fn keyword(word: &[u8]) -> Option<Word>
    ensures { result ≡ keyword_of word.now }
{
    match statement_word(word) {
        Some(keyword) => Some(keyword),
        None => expression_word(word),
    }
}

// What a word is that is no name.
#[tactic(auto, unfolding(crate::specs::Tables::reserved_of))]
fn reserved(word: &[u8]) -> Found
    ensures { Shows (reserved_of word.now) (length word.now) result }
{
    if word == b"float".as_slice()
        || word == b"double".as_slice()
        || word == b"finally".as_slice()
    {
        return Found::Foreign;
    }
    if let Some(keyword) = keyword(word) {
        return Found::Leading(Kind::Word(keyword), word.len());
    }
    match primitive_of_word(word) {
        Some(primitive) => Found::Leading(Kind::Prim(primitive), word.len()),
        None => Found::Nothing,
    }
}

// The length of a dot at the front and the word after it, if they stand there.
#[tactic(auto, using(crate::proofs::Runs::run_within))]
fn dot_word_length(text: &[u8]) -> Option<usize>
    ensures { result ≡ dot_word_length text.now }
{
    match text {
        [b'.', letter, ..] if is_letter(*letter) => Some(1 + name_bytes(text.split_at(1).1)),
        _ => None,
    }
}

// The class that these bytes name, or else what was found before.
fn class_or<N: TypeNames>(best: Found, text: &str, at: usize, count: usize, names: &N) -> Found
    requires within { at + count ≤ length text.now }
    requires starts { IsCharBoundary text.now at }
    requires ends { IsCharBoundary text.now (at + count) }
    ensures { result ≡ class_or best (N.class_of names.now (take count (drop at text.now))) count }
{
    match names.class_named(&text[at..at + count]) {
        Some(class) => Found::Leading(Kind::ClassName(class), count),
        None => best,
    }
}

// The class that leads a text, the first word of which is a name and has this length.
fn class_found<N: TypeNames>(text: &str, at: usize, first: usize, names: &N) -> Found
    requires word { begins is_letter (drop at text.now) ≡ true }
    requires whole { first ≡ prefix_len is_name_byte (drop at text.now) }
    requires name { reserved_of (take first (drop at text.now)) ≡ None }
    ensures { Finds (class_of (N.class_of names.now)) (drop at text.now) result }
{
    let rest = text.as_bytes().split_at(at).1;
    let mut length = first;
    let mut best = class_or(Found::Nothing, text, at, length, names);
    while let Some(more) = dot_word_length(rest.split_at(length).1) {
        length += more;
        best = class_or(best, text, at, length, names);
    }
    best
}

/// The word or the class that leads a text from a byte on, where it begins with a letter and follows no dot.
pub fn word_found<N: TypeNames>(text: &str, at: usize, names: &N) -> Found
    requires { begins is_letter (drop at text.now) ≡ true }
    ensures { Finds (word_of (N.class_of names.now)) (drop at text.now) result }
{
    let rest = text.as_bytes().split_at(at).1;
    let length = name_bytes(rest);
    match reserved(rest.split_at(length).0) {
        Found::Nothing => {}
        found => return found,
    }
    match class_found(text, at, length, names) {
        Found::Nothing => Found::Leading(Kind::Name, length),
        found => found,
    }
}

/// The word that leads a text which begins with a letter and follows a dot.
pub fn dot_word_found(text: &[u8]) -> Found
    requires { begins is_letter text.now ≡ true }
    ensures { Finds (λ bytes _. dot_word_of bytes) text.now result }
{
    Found::Leading(Kind::DotName, name_bytes(text))
}
