//! Which texts are those of types in full.
ghost use Rattle.std.specs.Prelude.{◌≡◌, ◌≢◌, ◌++◌, codes, ℕ, List, MatchOption, is_some};
ghost use Rattle.pl_types.specs.Texts.{plain_type, type_of_full};

use pl_types::{class_of_full_bytes, primitive_of_word};

/// Whether a text is that of a type in full: it can be read as a type.
pub(crate) fn is_full_type(text: &[u8]) -> bool
    ensures { result ≡ is_some (type_of_full text.now) }
{
    let mut word = text;
    'brackets: while let Some(element) = before_brackets(word) {
        word = element;
    }
    is_plain_type(word)
}

/// What stands before the `[]` at the end of a text.
fn before_brackets(text: &[u8]) -> Option<&[u8]>
    ensures { MatchOption result ((element : List ℕ) → text.now ≢ element ++ codes "[]") (λ element. text.now ≡ element.now ++ codes "[]") }
{
    match text {
        [element @ .., b'[', b']'] => Some(element),
        _ => None,
    }
}

/// The same of a word without `[]`.
fn is_plain_type(word: &[u8]) -> bool
    ensures { result ≡ is_some (plain_type word.now) }
{
    if word == b"void".as_slice() {
        return true;
    }
    if word == b"null".as_slice() {
        return true;
    }
    if word == b"def".as_slice() {
        return true;
    }
    if let Some(_) = primitive_of_word(word) {
        return true;
    }
    match class_of_full_bytes(word) {
        Some(_) => true,
        None => false,
    }
}
