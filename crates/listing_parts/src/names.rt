//! Texts of the forms of names, types and members.

ghost use Rattle.std.specs.Prelude.{◌≡◌, ◌≤◌, ◌==◌, ◌||◌, ◌&&◌, true, List, ℕ, IfOk, length};
ghost use Rattle.std.specs.Option.{option_copied};
ghost use Rattle.std.specs.List.{list_all, list_any, position_or_len};
ghost use Rattle.std.specs.Str.{bytes_eq};
ghost use Rattle.listing_parts.specs.Names.{is_letter, is_word_byte, is_word, type_words, other_words, is_one_of, is_name, is_joint, is_class, is_pairs, is_type, last_joint, is_field, before_arity, is_method, is_constructor, formed};

use crate::numbers::natural;
use plain_data::Text;
use std::alloc::{AllocError, Global};
use std::marker::Model;

fn is_letter(byte: u8) -> bool
    ensures { result ≡ is_letter byte }
{
    (97 <= byte && byte <= 122) || (65 <= byte && byte <= 90) || byte == b'_'
}

fn is_word_byte(byte: u8) -> bool
    ensures { result ≡ is_word_byte byte }
{
    is_letter(byte) || (48 <= byte && byte <= 57)
}

fn are_word_bytes(text: &[u8]) -> bool
    ensures { result ≡ list_all is_word_byte text.now }
{
    text.iter().all(|byte| is_word_byte(*byte))
}

fn is_word(text: &[u8]) -> bool
    ensures { result ≡ is_word text.now }
{
    match text {
        [] => false,
        [first, rest @ ..] => is_letter(*first) && are_word_bytes(rest),
    }
}

fn same(word: &[u8], text: &[u8]) -> bool
    ensures { result ≡ bytes_eq word.now text.now }
{
    word == text
}

const TYPE_WORDS: [&[u8]; 7] = [
    b"def", b"boolean", b"byte", b"short", b"char", b"int", b"long",
];

const OTHER_WORDS: [&[u8]; 18] = [
    b"if",
    b"else",
    b"while",
    b"do",
    b"for",
    b"in",
    b"continue",
    b"break",
    b"return",
    b"new",
    b"try",
    b"catch",
    b"throw",
    b"this",
    b"instanceof",
    b"true",
    b"false",
    b"null",
];

fn is_one_of(words: &[&[u8]], text: &[u8]) -> bool
    ensures { result ≡ list_any (λ word. bytes_eq word.now text.now) words.now }
{
    words.iter().any(|word| same(word, text))
}

fn is_type_word(text: &[u8]) -> bool
    ensures { result ≡ is_one_of type_words text.now }
{
    is_one_of(&TYPE_WORDS, text)
}

fn is_other_word(text: &[u8]) -> bool
    ensures { result ≡ is_one_of other_words text.now }
{
    is_one_of(&OTHER_WORDS, text)
}

#[tactic(auto, unfolding(crate::specs::Names::is_name))]
fn is_name(text: &[u8]) -> bool
    ensures { result ≡ is_name text.now }
{
    is_word(text) && !(is_type_word(text) || is_other_word(text))
}

fn is_joint(byte: u8) -> bool
    ensures { result ≡ is_joint byte }
{
    byte == b'.' || byte == b'$'
}

#[tactic(auto, unfolding(crate::specs::Names::is_class))]
fn is_class(text: &[u8]) -> bool
    ensures { result ≡ is_class text.now }
{
    text.split(|byte| is_joint(*byte)).all(|part| is_name(part))
}

fn is_pairs(text: &[u8]) -> bool
    ensures { result ≡ is_pairs text.now }
{
    let mut rest = text;
    while let [first, second, more @ ..] = rest {
        if *first != b'[' || *second != b']' {
            return false;
        }
        rest = more;
    }
    rest.is_empty()
}

/// Where a byte stands first in a text, or the length of the text where it does not stand there.
pub fn place_of(text: &[u8], byte: u8) -> usize
    ensures within { result ≤ length text.now }
    ensures place { result ≡ position_or_len (λ b. b == byte) text.now }
{
    for (at, b) in text.iter().enumerate() {
        if *b == byte {
            return at;
        }
    }
    text.len()
}

#[tactic(auto, unfolding(crate::specs::Names::is_type))]
fn is_type(text: &[u8]) -> bool
    ensures { result ≡ is_type text.now }
{
    let end = place_of(text, b'[');
    let base = &text[..end];
    (is_type_word(base) || is_class(base)) && is_pairs(&text[end..])
}

fn last_joint(text: &[u8]) -> u8
    ensures { result ≡ last_joint text.now }
{
    text.iter()
        .fold(0, |last, byte| if is_joint(*byte) { *byte } else { last })
}

#[tactic(auto, unfolding(crate::specs::Names::is_field))]
fn is_field(text: &[u8]) -> bool
    ensures { result ≡ is_field text.now }
{
    is_class(text) && last_joint(text) == b'.'
}

/// What stands before a `/`, where a number of arguments follows it.
fn before_arity(text: &str) -> Option<&[u8]>
    ensures { option_copied result ≡ before_arity text.now }
{
    let (front, arity) = text.split_once('/')?;
    match natural(arity) {
        Some(_) => Some(front.as_bytes()),
        None => None,
    }
}

#[tactic(auto, unfolding(crate::specs::Names::is_method))]
fn is_method(text: &str) -> bool
    ensures { result ≡ is_method text.now }
{
    match before_arity(text) {
        Some(front) => is_field(front),
        None => false,
    }
}

#[tactic(auto, unfolding(crate::specs::Names::is_constructor))]
fn is_constructor(text: &str) -> bool
    ensures { result ≡ is_constructor text.now }
{
    match before_arity(text) {
        Some(front) => is_class(front),
        None => false,
    }
}

/// A word: a letter or `_`, and then letters, digits and `_`. It may be one that the language keeps for itself.
#[derive(Drop)]
pub struct Word {
    text: Text,
}

impl Model for Word {
    ghost use Rattle.std.specs.Prelude.{◌≡◌, true, ℕ, List};
    ghost use Rattle.listing_parts.specs.Names.{is_word};

    ghost Value = { List ℕ };

    ghost view = { λ it. it.text };

    ghost invariant = { λ it. is_word it.text ≡ true };
}

impl Word {
    /// The text, where it has this form.
    pub fn new(alloc: Global, text: &str) -> Result<Option<Word>, AllocError>
        ensures { IfOk result (λ made. made ≡ formed is_word text.now) }
    {
        if !is_word(text.as_bytes()) {
            return Ok(None);
        }
        let text = Text::new(alloc, text)?;
        Ok(Some(Word { text }))
    }

    /// The word.
    pub fn as_str(&self) -> &str
        ensures text { result.now ≡ self.now }
        ensures form { is_word self.now ≡ true }
    {
        self.text.as_str()
    }
}

/// A class in full: names with `.` or `$` between them.
#[derive(Drop)]
pub struct ClassName {
    text: Text,
}

impl Model for ClassName {
    ghost use Rattle.std.specs.Prelude.{◌≡◌, true, ℕ, List};
    ghost use Rattle.listing_parts.specs.Names.{is_class};

    ghost Value = { List ℕ };

    ghost view = { λ it. it.text };

    ghost invariant = { λ it. is_class it.text ≡ true };
}

impl ClassName {
    /// The text, where it has this form.
    pub fn new(alloc: Global, text: &str) -> Result<Option<ClassName>, AllocError>
        ensures { IfOk result (λ made. made ≡ formed is_class text.now) }
    {
        if !is_class(text.as_bytes()) {
            return Ok(None);
        }
        let text = Text::new(alloc, text)?;
        Ok(Some(ClassName { text }))
    }

    /// The name of the class in full.
    pub fn as_str(&self) -> &str
        ensures text { result.now ≡ self.now }
        ensures form { is_class self.now ≡ true }
    {
        self.text.as_str()
    }
}

/// A type: a class in full, a primitive or `def`, and then any number of `[]`.
#[derive(Drop)]
pub struct TypeName {
    text: Text,
}

impl Model for TypeName {
    ghost use Rattle.std.specs.Prelude.{◌≡◌, true, ℕ, List};
    ghost use Rattle.listing_parts.specs.Names.{is_type};

    ghost Value = { List ℕ };

    ghost view = { λ it. it.text };

    ghost invariant = { λ it. is_type it.text ≡ true };
}

impl TypeName {
    /// The text, where it has this form.
    pub fn new(alloc: Global, text: &str) -> Result<Option<TypeName>, AllocError>
        ensures { IfOk result (λ made. made ≡ formed is_type text.now) }
    {
        if !is_type(text.as_bytes()) {
            return Ok(None);
        }
        let text = Text::new(alloc, text)?;
        Ok(Some(TypeName { text }))
    }

    /// The type as a listing writes it.
    pub fn as_str(&self) -> &str
        ensures text { result.now ≡ self.now }
        ensures form { is_type self.now ≡ true }
    {
        self.text.as_str()
    }
}

/// A field: its class in full, `.` and its name.
#[derive(Drop)]
pub struct FieldName {
    text: Text,
}

impl Model for FieldName {
    ghost use Rattle.std.specs.Prelude.{◌≡◌, true, ℕ, List};
    ghost use Rattle.listing_parts.specs.Names.{is_field};

    ghost Value = { List ℕ };

    ghost view = { λ it. it.text };

    ghost invariant = { λ it. is_field it.text ≡ true };
}

impl FieldName {
    /// The text, where it has this form.
    pub fn new(alloc: Global, text: &str) -> Result<Option<FieldName>, AllocError>
        ensures { IfOk result (λ made. made ≡ formed is_field text.now) }
    {
        if !is_field(text.as_bytes()) {
            return Ok(None);
        }
        let text = Text::new(alloc, text)?;
        Ok(Some(FieldName { text }))
    }

    /// The field's name, its class first.
    pub fn as_str(&self) -> &str
        ensures text { result.now ≡ self.now }
        ensures form { is_field self.now ≡ true }
    {
        self.text.as_str()
    }
}

/// A method: its class in full, `.`, its name, `/` and the number of its arguments.
#[derive(Drop)]
pub struct MethodName {
    text: Text,
}

impl Model for MethodName {
    ghost use Rattle.std.specs.Prelude.{◌≡◌, true, ℕ, List};
    ghost use Rattle.listing_parts.specs.Names.{is_method};

    ghost Value = { List ℕ };

    ghost view = { λ it. it.text };

    ghost invariant = { λ it. is_method it.text ≡ true };
}

impl MethodName {
    /// The text, where it has this form.
    pub fn new(alloc: Global, text: &str) -> Result<Option<MethodName>, AllocError>
        ensures { IfOk result (λ made. made ≡ formed is_method text.now) }
    {
        if !is_method(text) {
            return Ok(None);
        }
        let text = Text::new(alloc, text)?;
        Ok(Some(MethodName { text }))
    }

    /// The method's name, its class first and its arity last.
    pub fn as_str(&self) -> &str
        ensures text { result.now ≡ self.now }
        ensures form { is_method self.now ≡ true }
    {
        self.text.as_str()
    }
}

/// A constructor: its class in full, `/` and the number of its arguments.
#[derive(Drop)]
pub struct ConstructorName {
    text: Text,
}

impl Model for ConstructorName {
    ghost use Rattle.std.specs.Prelude.{◌≡◌, true, ℕ, List};
    ghost use Rattle.listing_parts.specs.Names.{is_constructor};

    ghost Value = { List ℕ };

    ghost view = { λ it. it.text };

    ghost invariant = { λ it. is_constructor it.text ≡ true };
}

impl ConstructorName {
    /// The text, where it has this form.
    pub fn new(alloc: Global, text: &str) -> Result<Option<ConstructorName>, AllocError>
        ensures { IfOk result (λ made. made ≡ formed is_constructor text.now) }
    {
        if !is_constructor(text) {
            return Ok(None);
        }
        let text = Text::new(alloc, text)?;
        Ok(Some(ConstructorName { text }))
    }

    /// The constructor's name, its class first and its arity last.
    pub fn as_str(&self) -> &str
        ensures text { result.now ≡ self.now }
        ensures form { is_constructor self.now ≡ true }
    {
        self.text.as_str()
    }
}
