//! Types, classes and interfaces by their texts.

ghost use Rattle.std.specs.Prelude.{◌≡◌, ◌<◌, IfSome, length};
ghost use Rattle.instruction_types.specs.Types.{kind_of_primitive, kind_of_text, kind_of_type, element_of, dimensions_of, is_known_type, is_known_word, catalogue_class, interface_method};

use allowlist::Allow;
use listing_parts::place_of;
use pl_code::Slot;
use pl_types::classes::PRELUDE;
use pl_types::{Primitive, Ty, class_of_full_bytes, primitive_of_word};

/// The kind of a primitive's values.
pub fn kind_of_primitive(primitive: Primitive) -> Slot
    ensures { result ≡ kind_of_primitive primitive }
{
    match primitive {
        Primitive::Boolean
        | Primitive::Byte
        | Primitive::Short
        | Primitive::Char
        | Primitive::Int => Slot::I,
        Primitive::Long => Slot::J,
    }
}

/// The kind of the values of a type, by its text.
#[tactic(auto, unfolding(crate::specs::Types::kind_of_text))]
pub fn kind_of_text(text: &[u8]) -> Slot
    ensures { result ≡ kind_of_text text.now }
{
    match primitive_of_word(text) {
        None => Slot::R,
        Some(primitive) => kind_of_primitive(primitive),
    }
}

/// The kind of the values of a type.
#[tactic(auto, unfolding(crate::specs::Types::kind_of_type))]
pub fn kind_of_type(ty: &Ty) -> Slot
    ensures { result ≡ kind_of_type ty.now }
{
    match ty {
        Ty::Void => Slot::R,
        Ty::Null => Slot::R,
        Ty::Def => Slot::R,
        Ty::Prim(primitive) => kind_of_primitive(*primitive),
        Ty::Class(_) => Slot::R,
        Ty::Array(_) => Slot::R,
    }
}

/// The text of a type without the `[]` at its end.
#[tactic(auto, unfolding(crate::specs::Types::element_of))]
fn element_of(text: &[u8]) -> &[u8]
    ensures { result.now ≡ element_of text.now }
{
    let end = place_of(text, b'[');
    &text[..end]
}

/// How many `[]` stand at the end of a type's text.
#[tactic(auto, unfolding(crate::specs::Types::dimensions_of))]
pub fn dimensions_of(text: &[u8]) -> usize
    ensures { result ≡ dimensions_of text.now }
{
    (text.len() - place_of(text, b'[')) / 2
}

/// The number of the class of the catalogue that has a full name. The hidden classes are none of it.
#[tactic(auto, unfolding(crate::specs::Types::catalogue_class))]
pub fn catalogue_class(name: &[u8]) -> Option<u32>
    ensures { result ≡ catalogue_class name.now }
{
    match class_of_full_bytes(name) {
        None => None,
        Some(class) => { if class < PRELUDE { Some(class) } else { None } }
    }
}

fn is_known_word(word: &[u8]) -> bool
    ensures { result ≡ is_known_word word.now }
{
    word == b"def".as_slice()
        || primitive_of_word(word).is_some()
        || catalogue_class(word).is_some()
}

/// Whether values can have a type, by its text: `def`, a primitive or a class of the catalogue, and then any number of `[]`.
#[tactic(auto, unfolding(crate::specs::Types::is_known_type))]
pub fn is_known_type(text: &[u8]) -> bool
    ensures { result ≡ is_known_type text.now }
{
    is_known_word(element_of(text))
}

/// The number of the method of the functional interface that has a full name.
#[tactic(auto, unfolding(crate::specs::Types::interface_method))]
pub fn interface_method(allow: &Allow, name: &[u8]) -> Option<u32>
    ensures found { result ≡ interface_method name.now }
    ensures within { IfSome result (λ number. number < length allow.now.members) }
{
    match catalogue_class(name) {
        None => None,
        Some(class) => allow.iface_method(class),
    }
}
