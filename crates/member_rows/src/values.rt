//! Values by the words of rows.
use object_values::{Elements, Value};
use pl_units::UText;
use std::alloc::Global;

// What stands in quotes.
fn quoted(word: &str) -> Option<&str> {
    word.strip_prefix('\'')?.strip_suffix('\'')
}

fn text_of(alloc: Global, text: &str) -> Option<Value> {
    Some(Value::Str(UText::from_utf8(alloc, text).ok()?))
}

/// The number of an object: `@7`.
pub fn object_of(word: &str) -> Option<u32> {
    word.strip_prefix('@')?.parse::<u32>().ok()
}

fn char_of(text: &str) -> Option<Value> {
    let character = text.chars().next()?;
    Some(Value::Char(u16::try_from(u32::from(character)).ok()?))
}

fn number_of(word: &str) -> Option<Value> {
    if let Some(digits) = word.strip_suffix('L') {
        return Some(Value::Long(digits.parse::<i64>().ok()?));
    }
    if let Some(digits) = word.strip_suffix('s') {
        return Some(Value::Short(digits.parse::<i16>().ok()?));
    }
    if let Some(digits) = word.strip_suffix('b') {
        return Some(Value::Byte(digits.parse::<i8>().ok()?));
    }
    Some(Value::Int(word.parse::<i32>().ok()?))
}

fn other_of(alloc: Global, word: &str) -> Option<Value> {
    if let Some(id) = object_of(word) {
        return Some(Value::Ref(id));
    }
    if let Some(character) = word.strip_suffix('c') {
        return char_of(quoted(character)?);
    }
    match quoted(word) {
        Some(text) => text_of(alloc, text),
        None => number_of(word),
    }
}

/// The value that a word writes; none where it writes no value, or there is no memory.
pub fn value_of(alloc: Global, word: &str) -> Option<Value> {
    match word {
        "null" => Some(Value::Null),
        "true" => Some(Value::Bool(true)),
        "false" => Some(Value::Bool(false)),
        _ => other_of(alloc, word),
    }
}

/// The values of words with blanks between them.
pub fn values_of(alloc: Global, words: &str) -> Option<Elements<Value>> {
    let mut items = Elements::new(alloc);
    for word in words.split(' ') {
        if !word.is_empty() {
            items.push(value_of(alloc, word)?).ok()?;
        }
    }
    Some(items)
}

/// The first word, and the others.
pub fn first_word(words: &str) -> (&str, &str) {
    words.split_once(' ').unwrap_or((words, ""))
}
