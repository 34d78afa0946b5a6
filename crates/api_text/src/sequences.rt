//! Units by their places, and the members of CharSequence.
ghost use Rattle.std.specs.Prelude.{◌≡◌};
ghost use Rattle.api_text.specs.Outcomes.{Tells};
ghost use Rattle.api_text.specs.Sequences as spec;

use crate::errors::{index_error, null_error};
use crate::outcome::Outcome;
use member_arguments::{int_at, sequence_at};
use object_heap::Heap;
use object_values::Value;

/// A count of units as an int, at most the greatest one.
pub fn count_as_int(count: usize) -> i32
    ensures { result ≡ spec.count_as_int count }
{
    if count <= 2_147_483_647 {
        count as i32
    } else {
        2_147_483_647
    }
}

/// A place from one up to another.
pub fn place_within(least: usize, most: usize, at: i32) -> Option<usize>
    ensures { result ≡ spec.place_within least most at }
{
    if at < 0 {
        return None;
    }
    let place = at as usize;
    if least <= place && place <= most {
        Some(place)
    } else {
        None
    }
}

/// A place at which there is a unit.
pub fn place_before(count: usize, at: i32) -> Option<usize>
    ensures { result ≡ spec.place_before count at }
{
    if at < 0 {
        return None;
    }
    let place = at as usize;
    if place < count { Some(place) } else { None }
}

fn unit_in(text: &[u16], at: i32) -> Option<u16>
    ensures { result ≡ spec.unit_in text.now at }
{
    if at < 0 {
        return None;
    }
    match text.get(at as usize) {
        Some(unit) => Some(*unit),
        None => None,
    }
}

fn char_of(heap: &Heap, text: &[u16], at: i32) -> Outcome
    ensures { Tells heap.now (spec.char_of text.now at) result }
{
    match unit_in(text, at) {
        Some(unit) => Outcome::Gives(Value::Char(unit)),
        None => index_error(heap, at, text.len()),
    }
}

/// `charAt(int)`.
pub fn char_at(heap: &Heap, args: &[Value]) -> Outcome
    ensures { Tells heap.now (spec.char_at heap.now.objects args.now) result }
{
    match (sequence_at(heap, args, 0), int_at(args, 1)) {
        (Some(text), Some(at)) => char_of(heap, text, at),
        _ => null_error(),
    }
}

/// `length()`.
pub fn sequence_length(heap: &Heap, args: &[Value]) -> Outcome
    ensures { Tells heap.now (spec.sequence_length heap.now.objects args.now) result }
{
    match sequence_at(heap, args, 0) {
        Some(text) => Outcome::Gives(Value::Int(count_as_int(text.len()))),
        None => null_error(),
    }
}
