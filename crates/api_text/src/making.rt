//! The members of String that make texts and arrays.
ghost use Rattle.std.specs.Option.{option_copied};
ghost use Rattle.std.specs.Prelude.{◌≡◌, ◌≤◌, ◌++◌, ℕ, List, IfOk, length, map};
ghost use Rattle.object_values.specs.declared.value.Value.TheVariants as v;
ghost use Rattle.object_heap.specs.Store.{Store};
ghost use Rattle.api_text.specs.declared.outcome.Outcome.TheVariants.{Makes};
ghost use Rattle.api_text.specs.Outcomes.{Tells};
ghost use Rattle.api_text.specs.Sequences.{place_within};
ghost use Rattle.api_text.specs.Making as spec;
ghost use Rattle.api_text.specs.Pieces.{pieces};
ghost use Rattle.api_text.specs.Texts as texts;

use crate::errors::{index_error, null_error};
use crate::outcome::Outcome;
use crate::pieces::{pieces, replaced};
use crate::sequences::place_within;
use crate::texts::{to_lower, to_upper};
use crate::writing::{array_made, made, text_made};
use member_arguments::{int_at, sequence_at, text_at, text_room, value_at};
use object_heap::Heap;
use object_values::{Elements, Value};
use pl_units::UText;
use std::alloc::{AllocError, Global};
use value_walks::{VISITS, text_within};

// The text of these units.
fn text_of(heap: &Heap, units: &[u16]) -> Outcome
    ensures { Tells heap.now (Makes units.now) result }
{
    match UText::from_slice(heap.alloc(), units) {
        Ok(text) => Outcome::Makes(text),
        Err(_) => Outcome::NoMemory,
    }
}

fn cut_to(heap: &Heap, text: &[u16], start: usize, stop: i32) -> Outcome
    requires { start ≤ length text.now }
    ensures { Tells heap.now (spec.cut_to text.now start stop (place_within start (length text.now) stop)) result }
{
    match place_within(start, text.len(), stop) {
        Some(end) => text_of(heap, &text[start..end]),
        None => index_error(heap, stop, text.len()),
    }
}

fn part_between(heap: &Heap, text: &[u16], start: i32, stop: i32) -> Outcome
    ensures { Tells heap.now (spec.part_between text.now start stop) result }
{
    match place_within(0, text.len(), start) {
        Some(first) => cut_to(heap, text, first, stop),
        None => index_error(heap, start, text.len()),
    }
}

fn part_from(heap: &Heap, text: &[u16], start: i32) -> Outcome
    ensures { Tells heap.now (spec.part_from text.now start) result }
{
    match place_within(0, text.len(), start) {
        Some(first) => text_of(heap, &text[first..]),
        None => index_error(heap, start, text.len()),
    }
}

// Without the units up to 32 in front.
fn trimmed_in_front(units: &[u16]) -> &[u16]
    ensures { result.now ≡ spec.trimmed_in_front units.now }
{
    let mut rest = units;
    while let Some((unit, more)) = rest.split_first() {
        if *unit > 32 {
            break;
        }
        rest = more;
    }
    rest
}

// Without the units up to 32 at the end.
fn trimmed_behind(units: &[u16]) -> &[u16]
    ensures { result.now ≡ spec.trimmed_behind units.now }
{
    let mut rest = units;
    while let Some((unit, more)) = rest.split_last() {
        if *unit > 32 {
            break;
        }
        rest = more;
    }
    rest
}

fn lower_units(alloc: Global, text: &[u16]) -> Result<Vec<u16>, AllocError>
    ensures { IfOk result (λ units. units.items ≡ map texts.to_lower text.now) }
{
    text.iter().map(|unit| to_lower(*unit)).collect(alloc)
}

fn upper_units(alloc: Global, text: &[u16]) -> Result<Vec<u16>, AllocError>
    ensures { IfOk result (λ units. units.items ≡ map texts.to_upper text.now) }
{
    text.iter().map(|unit| to_upper(*unit)).collect(alloc)
}

fn joined_units(alloc: Global, text: &[u16], other: &[u16]) -> Result<Vec<u16>, AllocError>
    ensures { IfOk result (λ units. units.items ≡ text.now ++ other.now) }
{
    let mut units = Vec::with_capacity(alloc, text.len().saturating_add(other.len()))?;
    units.extend_from_slice(text)?;
    units.extend_from_slice(other)?;
    Ok(units)
}

// The text of units that were made, or of which there was no memory.
fn of_units(units: Result<Vec<u16>, AllocError>) -> Outcome
    ensures { (store : Store) (text : List ℕ) → IfOk units (λ made. made.items ≡ text) → Tells store (Makes text) result }
{
    match units {
        Ok(units) => Outcome::made_of(units),
        Err(_) => Outcome::NoMemory,
    }
}

fn char_values(alloc: Global, text: &[u16]) -> Result<Vec<Value>, AllocError>
    ensures { IfOk result (λ items. items.items ≡ map v.Char text.now) }
{
    text.iter().map(|unit| Value::Char(*unit)).collect(alloc)
}

// An array of the units.
#[tactic(auto, using(crate::proofs::Room::no_room_for_chars))]
fn chars_of(heap: &Heap, text: &[u16]) -> Outcome
    ensures { Tells heap.now (spec.chars_of text.now) result }
{
    if text.len() as u64 >= heap.room_left() {
        return Outcome::NoRoom;
    }
    match char_values(heap.alloc(), text) {
        Ok(items) => Outcome::Chars(Elements::from_vec(items)),
        Err(_) => Outcome::NoMemory,
    }
}

// The text is made if there is room for it.
fn to_text(heap: &Heap, value: &Value) -> Outcome
    ensures { Tells heap.now (spec.to_text heap.now.objects value.now) result }
{
    text_made(heap, text_within(heap, value, VISITS, text_room(heap)))
}

/// `String.valueOf(def)`.
pub fn value_of(heap: &Heap, args: &[Value]) -> Outcome
    ensures { Tells heap.now (spec.value_of heap.now.objects args.now) result }
{
    match value_at(args, 0) {
        Some(value) => to_text(heap, value),
        None => null_error(),
    }
}

#[tactic(auto, using(crate::proofs::Room::no_room_for_both))]
fn both(heap: &Heap, text: &[u16], other: &[u16]) -> Outcome
    ensures { Tells heap.now (spec.both text.now other.now) result }
{
    if text.len().saturating_add(other.len()) as u64 >= heap.room_left() {
        return Outcome::NoRoom;
    }
    of_units(joined_units(heap.alloc(), text, other))
}

/// `concat(String)`.
pub fn concat(heap: &Heap, args: &[Value]) -> Outcome
    ensures { Tells heap.now (spec.concat heap.now.objects args.now) result }
{
    match (text_at(args, 0), text_at(args, 1)) {
        (Some(text), Some(other)) => both(heap, text.units(), other.units()),
        _ => null_error(),
    }
}

fn with_replaced(heap: &Heap, text: &[u16], target: &[u16], by: &[u16]) -> Outcome
    ensures { Tells heap.now (spec.with_replaced text.now target.now by.now) result }
{
    made(
        heap,
        replaced(heap.alloc(), heap.room_left(), text, target, by),
    )
}

/// `replace(CharSequence, CharSequence)`.
pub fn replace(heap: &Heap, args: &[Value]) -> Outcome
    ensures { Tells heap.now (spec.replace heap.now.objects args.now) result }
{
    match (
        text_at(args, 0),
        sequence_at(heap, args, 1),
        sequence_at(heap, args, 2),
    ) {
        (Some(text), Some(target), Some(by)) => with_replaced(heap, text.units(), target, by),
        _ => null_error(),
    }
}

fn split_at(heap: &Heap, text: &[u16], token: &[u16], limit: i32) -> Outcome
    ensures { Tells heap.now (spec.array_of (pieces text.now token.now limit)) result }
{
    array_made(
        heap,
        pieces(heap.alloc(), heap.room_left(), text, token, limit),
    )
}

fn split(heap: &Heap, text: &UText, token: Option<&UText>, limit: i32) -> Outcome
    ensures { Tells heap.now (spec.split text.now (option_copied token.entry) limit) result }
{
    match token {
        Some(token) => split_at(heap, text.units(), token.units(), limit),
        None => split_at(heap, text.units(), &[], limit),
    }
}

/// `splitOnToken(String)`.
pub fn split_on_token(heap: &Heap, args: &[Value]) -> Outcome
    ensures { Tells heap.now (spec.split_on_token heap.now.objects args.now) result }
{
    match text_at(args, 0) {
        Some(text) => split(heap, text, text_at(args, 1), 0),
        None => null_error(),
    }
}

/// `splitOnToken(String, int)`.
pub fn split_on_token_limited(heap: &Heap, args: &[Value]) -> Outcome
    ensures { Tells heap.now (spec.split_on_token_limited heap.now.objects args.now) result }
{
    match (text_at(args, 0), int_at(args, 2)) {
        (Some(text), Some(limit)) => split(heap, text, text_at(args, 1), limit),
        _ => null_error(),
    }
}

/// `substring(int)`.
pub fn substring_from(heap: &Heap, args: &[Value]) -> Outcome
    ensures { Tells heap.now (spec.substring_from heap.now.objects args.now) result }
{
    match (text_at(args, 0), int_at(args, 1)) {
        (Some(text), Some(start)) => part_from(heap, text.units(), start),
        _ => null_error(),
    }
}

/// `substring(int, int)`.
pub fn substring(heap: &Heap, args: &[Value]) -> Outcome
    ensures { Tells heap.now (spec.substring heap.now.objects args.now) result }
{
    match (text_at(args, 0), int_at(args, 1), int_at(args, 2)) {
        (Some(text), Some(start), Some(stop)) => part_between(heap, text.units(), start, stop),
        _ => null_error(),
    }
}

/// `toCharArray()`.
pub fn to_char_array(heap: &Heap, args: &[Value]) -> Outcome
    ensures { Tells heap.now (spec.to_char_array heap.now.objects args.now) result }
{
    match text_at(args, 0) {
        Some(text) => chars_of(heap, text.units()),
        None => null_error(),
    }
}

fn lowered(heap: &Heap, text: &[u16]) -> Outcome
    ensures { Tells heap.now (spec.lowered text.now) result }
{
    of_units(lower_units(heap.alloc(), text))
}

/// `toLowerCase()`.
pub fn to_lower_case(heap: &Heap, args: &[Value]) -> Outcome
    ensures { Tells heap.now (spec.to_lower_case heap.now.objects args.now) result }
{
    match text_at(args, 0) {
        Some(text) => lowered(heap, text.units()),
        None => null_error(),
    }
}

fn raised(heap: &Heap, text: &[u16]) -> Outcome
    ensures { Tells heap.now (spec.raised text.now) result }
{
    of_units(upper_units(heap.alloc(), text))
}

/// `toUpperCase()`.
pub fn to_upper_case(heap: &Heap, args: &[Value]) -> Outcome
    ensures { Tells heap.now (spec.to_upper_case heap.now.objects args.now) result }
{
    match text_at(args, 0) {
        Some(text) => raised(heap, text.units()),
        None => null_error(),
    }
}

fn trimmed(heap: &Heap, text: &[u16]) -> Outcome
    ensures { Tells heap.now (spec.trimmed text.now) result }
{
    text_of(heap, trimmed_behind(trimmed_in_front(text)))
}

/// `trim()`.
pub fn trim(heap: &Heap, args: &[Value]) -> Outcome
    ensures { Tells heap.now (spec.trim heap.now.objects args.now) result }
{
    match text_at(args, 0) {
        Some(text) => trimmed(heap, text.units()),
        None => null_error(),
    }
}
