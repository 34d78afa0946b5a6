//! The texts of types.

ghost use Rattle.std.specs.Prelude.{◌≡◌, ◌≢◌, ◌++◌, codes, ℕ, List, IfOk, OnOk, MatchOption, Some, IsTrue};
ghost use Rattle.std.specs.String.{string_bytes};
ghost use Rattle.pl_types.specs.declared.ty.Ty.{Ty};
ghost use Rattle.pl_types.specs.declared.ty.Ty.TheVariants.{Array};
ghost use Rattle.pl_types.specs.Texts.{primitive_word, primitive_of, type_text, short_text, full_text, names_of, plain_type, type_of_full, is_known};

use crate::full_names::{class_of_full_bytes, full_or_empty, short_or_empty};
use crate::primitive::Primitive;
use crate::ty::Ty;
use plain_data::Boxed;
use std::alloc::{AllocError, Global};

/// The keyword of a primitive type: `int`.
pub fn primitive_word(primitive: Primitive) -> &'static str
    ensures { result.now ≡ primitive_word primitive }
{
    match primitive {
        Primitive::Boolean => "boolean",
        Primitive::Byte => "byte",
        Primitive::Short => "short",
        Primitive::Char => "char",
        Primitive::Int => "int",
        Primitive::Long => "long",
    }
}

/// The primitive type whose keyword a word is. `None` where it is none's.
pub fn primitive_of_word(word: &[u8]) -> Option<Primitive>
    ensures { result ≡ primitive_of word.now }
{
    if word == b"boolean".as_slice() {
        Some(Primitive::Boolean)
    } else if word == b"byte".as_slice() {
        Some(Primitive::Byte)
    } else if word == b"short".as_slice() {
        Some(Primitive::Short)
    } else if word == b"char".as_slice() {
        Some(Primitive::Char)
    } else if word == b"int".as_slice() {
        Some(Primitive::Int)
    } else if word == b"long".as_slice() {
        Some(Primitive::Long)
    } else {
        None
    }
}

/// Which names of classes stand in the text of a type.
#[derive(Clone, Copy)]
pub enum ClassNames {
    /// Those after the last dot, as in messages.
    Short,
    /// Full names with `$`, as in listings.
    Full,
}

fn class_text(class: u32, names: ClassNames) -> &'static str
    ensures { result.now ≡ names_of names class }
{
    match names {
        ClassNames::Short => short_or_empty(class),
        ClassNames::Full => full_or_empty(class),
    }
}

impl Ty {
    /// The text of the type as messages have it, with short names of classes: `int[]`, `Map$Entry`, `List[]`.
    pub fn short_text(&self, alloc: Global) -> Result<String, AllocError>
        ensures { IfOk result (λ text. string_bytes text ≡ short_text self.now) }
    {
        let mut text = String::new(alloc);
        push_type(&mut text, self, ClassNames::Short)?;
        Ok(text)
    }

    /// The text of the type as listings have it, with full names of classes: `int[]`, `java.util.Map$Entry`,
    /// `java.util.List[]`.
    pub fn full_text(&self, alloc: Global) -> Result<String, AllocError>
        ensures { IfOk result (λ text. string_bytes text ≡ full_text self.now) }
    {
        let mut text = String::new(alloc);
        push_type(&mut text, self, ClassNames::Full)?;
        Ok(text)
    }

    /// The type that a text is in full, as `full_text` gives it; `None` exactly where it is that of no type. `void` and
    /// `null` are types here.
    pub fn of_full_text(alloc: Global, text: &[u8]) -> Result<Option<Ty>, AllocError>
        ensures { IfOk result (λ ty. ty ≡ type_of_full text.now) }
    {
        match element_text(text) {
            None => Ok(plain_type(text)),
            Some(element) => match Ty::of_full_text(alloc, element)? {
                None => Ok(None),
                Some(element) => Ok(Some(Ty::Array(Boxed::new(alloc, element)?))),
            },
        }
    }
}

/// Puts the text of a type behind another. A class that a number is none of has no bytes.
pub fn push_type(text: &mut String, ty: &Ty, names: ClassNames) -> Result<(), AllocError>
    ensures { OnOk result (string_bytes text.new ≡ string_bytes text.old ++ type_text (names_of names) ty.now) }
{
    match ty {
        Ty::Void => text.push_str("void"),
        Ty::Null => text.push_str("null"),
        Ty::Def => text.push_str("def"),
        Ty::Prim(primitive) => text.push_str(primitive_word(*primitive)),
        Ty::Class(class) => text.push_str(class_text(*class, names)),
        Ty::Array(element) => {
            push_type(text, element.get(), names)?;
            text.push_str("[]")
        }
    }
}

/// What stands before the `[]` at the end of a text.
fn element_text(text: &[u8]) -> Option<&[u8]>
    ensures { MatchOption result ((element : List ℕ) → text.now ≢ element ++ codes "[]") (λ element. text.now ≡ element.now ++ codes "[]") }
{
    match text {
        [element @ .., b'[', b']'] => Some(element),
        _ => None,
    }
}

/// The type that a word without `[]` is in full.
fn plain_type(word: &[u8]) -> Option<Ty>
    ensures { result ≡ plain_type word.now }
{
    if word == b"void".as_slice() {
        return Some(Ty::Void);
    }
    if word == b"null".as_slice() {
        return Some(Ty::Null);
    }
    if word == b"def".as_slice() {
        return Some(Ty::Def);
    }
    if let Some(primitive) = primitive_of_word(word) {
        return Some(Ty::Prim(primitive));
    }
    match class_of_full_bytes(word) {
        Some(class) => Some(Ty::Class(class)),
        None => None,
    }
}

/// The laws of the full texts of types: a text that is a type's is read as that type, and a text that is read is that of
/// the type.
pub fn text_laws()
    ensures read_back { (t : Ty) → IsTrue (is_known t) → type_of_full (full_text t) ≡ Some t }
    ensures spelled { (text : List ℕ) (t : Ty) → type_of_full text ≡ Some t → full_text t ≡ text }
{}
