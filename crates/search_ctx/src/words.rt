//! Texts, in the order of their bytes and each once.

ghost use Rattle.std.specs.Prelude.{◌≡◌, [], ◌∷◌, ◌++◌, map, IfOk, OnOk, string_bytes};
ghost use Rattle.object_values.specs.declared.value.Value.TheVariants as v;
ghost use Rattle.pl_units.specs.Utf16.{units};
ghost use Rattle.search_ctx.specs.Order.{once_in_order};

use object_values::{Elements, Value};
use pl_units::UText;
use std::alloc::{AllocError, Global};
use std::marker::Model;

/// UTF-8 texts. Contracts see the list of the lists of their bytes.
pub struct Words {
    words: Vec<String>,
}

impl Model for Words {
    ghost use Rattle.std.specs.Prelude.{ℕ, List, map, string_bytes};

    ghost Value = { List (List ℕ) };

    ghost view = { λ w. map string_bytes w.words.items };
}

impl Drop for Words {
    fn drop(self) {
        let Words { words: _words } = self;
    }
}

/// Puts texts in the order of their bytes, each once.
fn order_texts(texts: &mut Vec<String>)
    ensures { map string_bytes texts.new.items ≡ once_in_order (map string_bytes texts.old.items) }
{
    texts.sort_unstable();
    texts.dedup();
}

impl Words {
    /// No texts. It takes no memory.
    pub(crate) fn new(alloc: Global) -> Words
        ensures { result ≡ [] }
    {
        Words {
            words: Vec::new(alloc),
        }
    }

    /// The texts as a slice.
    pub fn as_slice(&self) -> &[String]
        ensures { map string_bytes result.now ≡ self.now }
    {
        self.words.as_slice()
    }

    /// Puts a text at the end.
    pub(crate) fn push(&mut self, word: String) -> Result<(), AllocError>
        ensures { OnOk result (self.new ≡ self.old ++ string_bytes word ∷ []) }
    {
        self.words.push(word)?;
        Ok(())
    }

    /// Puts the texts in the order of their bytes, each once. It takes no memory.
    pub(crate) fn order(&mut self)
        ensures { self.new ≡ once_in_order self.old }
    {
        order_texts(&mut self.words);
    }

    /// The texts as values of a script.
    pub(crate) fn to_values(&self, alloc: Global) -> Result<Elements<Value>, AllocError>
        ensures { IfOk result (λ values. values ≡ map (λ word. v.Str (units word)) self.now) }
    {
        let mut values = Elements::from_vec(Vec::with_capacity(alloc, self.words.len())?);
        for word in &self.words {
            values.push(Value::Str(UText::from_utf8(alloc, word.as_str())?))?;
        }
        Ok(values)
    }
}
