//! The parts of lines that are words of a few.

ghost use Rattle.std.specs.Prelude.{◌≡◌, ◌==◌, [], IfOk, codes};
ghost use Rattle.std.specs.Str.{bytes_eq};
ghost use Rattle.pl_code.specs.Words.{way_word, primitive_word, slot_letter, loop_word};
ghost use Rattle.pl_code.specs.Lines.{way_of, primitive_of, loops_of, letter_of, result_of, letters_of, slots_of, interface_of};

use crate::kinds::{Slot, Way};
use listing_parts::ClassName;
use pl_types::Primitive;
use plain_data::Items;
use std::alloc::{AllocError, Global};

/// The two ways of a cast.
pub const WAYS: [Way; 2] = [Way::Implicit, Way::Explicit];

/// The primitive types that a listing names.
pub const PRIMITIVES: [Primitive; 6] = [
    Primitive::Boolean,
    Primitive::Byte,
    Primitive::Short,
    Primitive::Char,
    Primitive::Int,
    Primitive::Long,
];

/// Whether a function counts its turns against the limit: `loop`, and `free`.
pub const LOOPS: [bool; 2] = [true, false];

/// The kinds of words: an int, a long and a reference.
pub const SLOTS: [Slot; 3] = [Slot::I, Slot::J, Slot::R];

pub(crate) fn way_word(way: Way) -> &'static str
    ensures { result.now ≡ way_word way }
{
    match way {
        Way::Implicit => "imp",
        Way::Explicit => "exp",
    }
}

pub(crate) fn primitive_word(primitive: Primitive) -> &'static str
    ensures { result.now ≡ primitive_word primitive }
{
    match primitive {
        Primitive::Boolean => "boolean",
        Primitive::Byte => "byte",
        Primitive::Short => "short",
        Primitive::Char => "char",
        Primitive::Int => "int",
        Primitive::Long => "long",
    }
}

pub(crate) fn loop_word(loops: bool) -> &'static str
    ensures { result.now ≡ loop_word loops }
{
    if loops { "loop" } else { "free" }
}

pub(crate) fn slot_letter(slot: Slot) -> u8
    ensures { result ≡ slot_letter slot }
{
    match slot {
        Slot::I => b'I',
        Slot::J => b'J',
        Slot::R => b'R',
    }
}

fn is_way(way: Way, text: &str) -> bool
    ensures { result ≡ bytes_eq (way_word way) text.now }
{
    way_word(way) == text
}

#[tactic(auto, unfolding(crate::specs::Lines::way_of))]
pub(crate) fn way_of(text: &str) -> Option<Way>
    ensures { result ≡ way_of text.now }
{
    WAYS.iter().copied().find(|way| is_way(*way, text))
}

fn is_primitive(primitive: Primitive, text: &str) -> bool
    ensures { result ≡ bytes_eq (primitive_word primitive) text.now }
{
    primitive_word(primitive) == text
}

#[tactic(auto, unfolding(crate::specs::Lines::primitive_of))]
pub(crate) fn primitive_of(text: &str) -> Option<Primitive>
    ensures { result ≡ primitive_of text.now }
{
    PRIMITIVES
        .iter()
        .copied()
        .find(|primitive| is_primitive(*primitive, text))
}

fn is_loops(loops: bool, text: &str) -> bool
    ensures { result ≡ bytes_eq (loop_word loops) text.now }
{
    loop_word(loops) == text
}

#[tactic(auto, unfolding(crate::specs::Lines::loops_of))]
pub(crate) fn loops_of(text: &str) -> Option<bool>
    ensures { result ≡ loops_of text.now }
{
    LOOPS.iter().copied().find(|loops| is_loops(*loops, text))
}

fn is_letter(slot: Slot, byte: u8) -> bool
    ensures { result ≡ (slot_letter slot == byte) }
{
    slot_letter(slot) == byte
}

#[tactic(auto, unfolding(crate::specs::Lines::letter_of))]
fn letter_of(byte: u8) -> Option<Slot>
    ensures { result ≡ letter_of byte }
{
    SLOTS.iter().copied().find(|slot| is_letter(*slot, byte))
}

pub(crate) fn result_of(text: &[u8]) -> Option<Option<Slot>>
    ensures { result ≡ result_of text.now }
{
    match text {
        [letter] => {
            if *letter == b'V' {
                return Some(None);
            }
            match letter_of(*letter) {
                Some(slot) => Some(Some(slot)),
                None => None,
            }
        }
        [] => None,
        [_, _, ..] => None,
    }
}

fn letters_of(alloc: Global, text: &[u8]) -> Result<Option<Items<Slot>>, AllocError>
    ensures { IfOk result (λ slots. slots ≡ letters_of text.now) }
{
    let mut slots = Items::new(alloc);
    for letter in text {
        let Some(slot) = letter_of(*letter) else {
            return Ok(None);
        };
        slots.push(slot)?;
    }
    Ok(Some(slots))
}

fn is_dash(text: &str) -> bool
    ensures { result ≡ bytes_eq text.now (codes "-") }
{
    text == "-"
}

#[tactic(auto, unfolding(crate::specs::Lines::slots_of))]
pub(crate) fn slots_of(alloc: Global, text: &str) -> Result<Option<Items<Slot>>, AllocError>
    ensures { IfOk result (λ slots. slots ≡ slots_of text.now) }
{
    if is_dash(text) {
        return Ok(Some(Items::new(alloc)));
    }
    if text.is_empty() {
        return Ok(None);
    }
    letters_of(alloc, text.as_bytes())
}

#[tactic(auto, unfolding(crate::specs::Lines::interface_of))]
pub(crate) fn interface_of(
    alloc: Global,
    text: &str,
) -> Result<Option<Option<ClassName>>, AllocError>
    ensures { IfOk result (λ interface. interface ≡ interface_of text.now) }
{
    if is_dash(text) {
        return Ok(Some(None));
    }
    match ClassName::new(alloc, text)? {
        Some(class) => Ok(Some(Some(class))),
        None => Ok(None),
    }
}
