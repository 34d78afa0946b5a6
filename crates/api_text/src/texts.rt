//! The members of String that make nothing.
ghost use Rattle.std.specs.Prelude.{◌≡◌};
ghost use Rattle.std.specs.Option.{option_copied};
ghost use Rattle.api_text.specs.Outcomes.{Tells};
ghost use Rattle.api_text.specs.Texts as spec;

use crate::errors::null_error;
use crate::outcome::Outcome;
use crate::sequences::count_as_int;
use member_arguments::{int_at, sequence_at, text_at};
use object_heap::Heap;
use object_values::Value;
use pl_units::{UText, find_units};

fn flag(is: bool) -> Outcome
    ensures { result ≡ spec.flag is }
{
    Outcome::Gives(Value::Bool(is))
}

fn place_as_int(place: Option<usize>) -> i32
    ensures { result ≡ spec.place_as_int place }
{
    match place {
        Some(place) => count_as_int(place),
        None => -1,
    }
}

fn place_given(place: Option<usize>) -> Outcome
    ensures { result ≡ spec.place_given place }
{
    Outcome::Gives(Value::Int(place_as_int(place)))
}

// Where a search begins: a negative place counts as 0, and one past the end as the end.
fn start_of(count: usize, start: i32) -> usize
    ensures { result ≡ spec.start_of count start }
{
    if start < 0 {
        return 0;
    }
    let place = start as usize;
    if place <= count { place } else { count }
}

/// The first place of a part.
pub fn place_of(text: &[u16], part: &[u16]) -> Outcome
    ensures { result ≡ spec.place_of text.now part.now }
{
    place_given(find_units(text, part, 0))
}

fn place_from(text: &[u16], part: &[u16], start: i32) -> Outcome
    ensures { result ≡ spec.place_from text.now part.now start }
{
    place_given(find_units(text, part, start_of(text.len(), start)))
}

fn stands_from(text: &UText, part: &UText, at: i32) -> bool
    ensures { result ≡ spec.stands_from text.now part.now at }
{
    if at < 0 {
        return false;
    }
    text.stands_at(part, at as usize)
}

/// An ASCII letter in lower case; another unit stays.
pub fn to_lower(unit: u16) -> u16
    ensures { result ≡ spec.to_lower unit }
{
    if 65 <= unit && unit <= 90 {
        unit + 32
    } else {
        unit
    }
}

/// An ASCII letter in upper case; another unit stays.
pub fn to_upper(unit: u16) -> u16
    ensures { result ≡ spec.to_upper unit }
{
    if 97 <= unit && unit <= 122 {
        unit - 32
    } else {
        unit
    }
}

// Whether texts are one but for the case of ASCII letters.
fn same_but_case(text: &[u16], other: &[u16]) -> bool
    ensures { result ≡ spec.same_but_case text.now other.now }
{
    let mut left = text;
    let mut right = other;
    while let (Some((unit, more)), Some((next, rest))) = (left.split_first(), right.split_first()) {
        if to_lower(*unit) != to_lower(*next) {
            return false;
        }
        left = more;
        right = rest;
    }
    left.is_empty() && right.is_empty()
}

fn same_text(text: &UText, other: Option<&UText>) -> Outcome
    ensures { result ≡ spec.same_text text.now (option_copied other.entry) }
{
    match other {
        Some(other) => flag(same_but_case(text.units(), other.units())),
        None => flag(false),
    }
}

fn has_none(text: &[u16]) -> bool
    ensures { result ≡ spec.has_none text.now }
{
    match text {
        [] => true,
        _ => false,
    }
}

/// `contains(CharSequence)`.
pub fn contains(heap: &Heap, args: &[Value]) -> Outcome
    ensures { Tells heap.now (spec.contains heap.now.objects args.now) result }
{
    match (text_at(args, 0), sequence_at(heap, args, 1)) {
        (Some(text), Some(part)) => flag(find_units(text.units(), part, 0).is_some()),
        _ => null_error(),
    }
}

/// `endsWith(String)`.
pub fn ends_with(heap: &Heap, args: &[Value]) -> Outcome
    ensures { Tells heap.now (spec.ends_with heap.now.objects args.now) result }
{
    match (text_at(args, 0), text_at(args, 1)) {
        (Some(text), Some(part)) => {
            flag(text.stands_at(part, text.len().saturating_sub(part.len())))
        }
        _ => null_error(),
    }
}

/// `startsWith(String)`.
pub fn starts_with(heap: &Heap, args: &[Value]) -> Outcome
    ensures { Tells heap.now (spec.starts_with heap.now.objects args.now) result }
{
    match (text_at(args, 0), text_at(args, 1)) {
        (Some(text), Some(part)) => flag(text.stands_at(part, 0)),
        _ => null_error(),
    }
}

/// `startsWith(String, int)`.
pub fn starts_with_at(heap: &Heap, args: &[Value]) -> Outcome
    ensures { Tells heap.now (spec.starts_with_at heap.now.objects args.now) result }
{
    match (text_at(args, 0), text_at(args, 1), int_at(args, 2)) {
        (Some(text), Some(part), Some(at)) => flag(stands_from(text, part, at)),
        _ => null_error(),
    }
}

/// `equalsIgnoreCase(String)`.
pub fn equals_ignore_case(heap: &Heap, args: &[Value]) -> Outcome
    ensures { Tells heap.now (spec.equals_ignore_case heap.now.objects args.now) result }
{
    match text_at(args, 0) {
        Some(text) => same_text(text, text_at(args, 1)),
        None => null_error(),
    }
}

/// `indexOf(String)`.
pub fn index_of(heap: &Heap, args: &[Value]) -> Outcome
    ensures { Tells heap.now (spec.index_of heap.now.objects args.now) result }
{
    match (text_at(args, 0), text_at(args, 1)) {
        (Some(text), Some(part)) => place_of(text.units(), part.units()),
        _ => null_error(),
    }
}

/// `indexOf(String, int)`.
pub fn index_of_from(heap: &Heap, args: &[Value]) -> Outcome
    ensures { Tells heap.now (spec.index_of_from heap.now.objects args.now) result }
{
    match (text_at(args, 0), text_at(args, 1), int_at(args, 2)) {
        (Some(text), Some(part), Some(start)) => place_from(text.units(), part.units(), start),
        _ => null_error(),
    }
}

/// `lastIndexOf(String)`.
pub fn last_index_of(heap: &Heap, args: &[Value]) -> Outcome
    ensures { Tells heap.now (spec.last_index_of heap.now.objects args.now) result }
{
    match (text_at(args, 0), text_at(args, 1)) {
        (Some(text), Some(part)) => place_given(text.rfind(part)),
        _ => null_error(),
    }
}

/// `isEmpty()`.
pub fn is_empty(heap: &Heap, args: &[Value]) -> Outcome
    ensures { Tells heap.now (spec.is_empty heap.now.objects args.now) result }
{
    match text_at(args, 0) {
        Some(text) => flag(has_none(text.units())),
        None => null_error(),
    }
}
