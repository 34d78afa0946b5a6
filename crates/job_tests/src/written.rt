//! Texts that are written piece by piece.

use object_values::{Guard, Value};
use pl_units::UText;
use std::alloc::{AllocError, Global};

/// A text, and whether memory has run out while it was written.
#[derive(Drop)]
pub struct Written {
    alloc: Global,
    text: String,
    is_short: bool,
}

impl Written {
    /// With nothing written.
    pub fn new(alloc: Global) -> Written {
        Written {
            alloc,
            text: String::new(alloc),
            is_short: false,
        }
    }

    /// Whether this is all that was written.
    pub fn is(&self, wanted: &str) -> bool {
        !self.is_short && self.text.as_str() == wanted
    }

    /// Writes a word.
    pub fn push(&mut self, word: &str) {
        if self.text.push_str(word).is_err() {
            self.is_short = true;
        }
    }

    fn push_made(&mut self, made: Result<String, AllocError>) {
        match made {
            Ok(text) => self.push(text.as_str()),
            Err(_) => self.is_short = true,
        }
    }

    /// Writes a number between two words.
    fn push_number(&mut self, before: &str, number: i64, behind: &str) {
        let alloc = self.alloc;
        self.push(before);
        self.push_made(format!(in alloc; "{number}"));
        self.push(behind)
    }

    /// Writes a text in quotes.
    fn push_text(&mut self, text: &UText) {
        self.push("'");
        self.push_made(text.to_utf8());
        self.push("'")
    }

    /// Writes a value: an int with `i` and a long with this word behind it, a text in quotes, an object by its number.
    pub fn push_value(&mut self, value: &Value, long: &str) {
        match value {
            Value::Null => self.push("null"),
            Value::Bool(true) => self.push("true"),
            Value::Bool(false) => self.push("false"),
            Value::Int(number) => self.push_number("", i64::from(*number), "i"),
            Value::Long(number) => self.push_number("", *number, long),
            Value::Str(text) => self.push_text(text),
            Value::Ref(id) => self.push_number("#", i64::from(*id), ""),
            _ => self.push("?"),
        }
    }

    /// Writes what guards an object: `!` stands for nothing that changes it, and `m` for a map of the names of fields.
    pub fn push_guard(&mut self, guard: &Guard) {
        match guard {
            Guard::Open => {}
            Guard::Frozen => self.push("!"),
            Guard::Keys(_) => self.push("k"),
            Guard::Mapped => self.push("m"),
        }
    }
}
