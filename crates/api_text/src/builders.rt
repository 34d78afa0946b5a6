//! The members of StringBuilder.
ghost use Rattle.std.specs.Prelude.{◌≡◌, ◌≤◌, [], true, IfOk, length, replicate, slice_get};
ghost use Rattle.object_heap.specs.Effects.{Answers, NoRoom};
ghost use Rattle.object_heap.specs.Parts.{units_of};
ghost use Rattle.value_walks.specs.declared.TheConstants.{VISITS};
ghost use Rattle.value_walks.specs.Texts.{IsLonger, text_of};
ghost use Rattle.api_text.specs.declared.outcome.Outcome.{Outcome};
ghost use Rattle.api_text.specs.Builders as spec;
ghost use Rattle.api_text.specs.Builders.{is_builder, with_run};
ghost use Rattle.api_text.specs.Outcomes.{Tells, WantsMemory, effect};

use crate::errors::{index_error, null_error, too_deep, too_large};
use crate::outcome::Outcome;
use crate::paying::extend;
use crate::sequences::{place_before, place_within};
use crate::texts::place_of;
use member_arguments::{int_at, object_at, sequence_at, text_at, value_at};
use object_heap::{Answer, Heap, HeapErr};
use object_values::{Elements, Object, Value};
use std::alloc::{AllocError, Global};
use value_walks::{TextErr, VISITS, text, text_within};

/// `new StringBuilder()`.
pub fn new_builder(heap: &Heap) -> Outcome
    ensures { result ≡ Outcome.NewBuilder [] }
{
    Outcome::NewBuilder(Elements::new(heap.alloc()))
}

fn copied(heap: &Heap, units: &[u16]) -> Outcome
    ensures { Tells heap.now (spec.copied units.now) result }
{
    match Vec::from_slice(heap.alloc(), units) {
        Ok(units) => Outcome::NewBuilder(Elements::from_vec(units)),
        Err(_) => Outcome::NoMemory,
    }
}

/// `new StringBuilder(CharSequence)`.
pub fn new_builder_of(heap: &Heap, args: &[Value]) -> Outcome
    ensures { Tells heap.now (spec.new_builder_of heap.now.objects args.now) result }
{
    match sequence_at(heap, args, 0) {
        Some(units) => copied(heap, units),
        None => null_error(),
    }
}

// The text of a value at the end of an object that is no builder, and stays as it is.
#[tactic(auto, using(crate::proofs::Needing::appended_needs))]
fn appended_to_other(heap: &Heap, other: u32, value: &Value) -> Outcome
    ensures { Tells heap.now (spec.appended heap.now.objects other value.now) result }
{
    match text(heap, value, VISITS) {
        Ok(text) => Outcome::Extends(other, text),
        Err(TextErr::Deep) => too_deep(heap),
        Err(TextErr::Large) => too_large(heap),
        Err(TextErr::NoMemory) => Outcome::NoMemory,
    }
}

// The text of a value at the end of a builder. It is made if there is room for it.
#[tactic(auto, using(crate::proofs::Room::no_room_to_grow, crate::proofs::Needing::appended_needs))]
fn appended_to_builder(heap: &Heap, builder: u32, value: &Value) -> Outcome
    requires { is_builder (slice_get heap.now.objects builder) ≡ true }
    ensures { Tells heap.now (spec.appended heap.now.objects builder value.now) result }
{
    match text_within(heap, value, VISITS, heap.room_left()) {
        Ok(Some(text)) => Outcome::Extends(builder, text),
        Ok(None) => Outcome::NoRoom,
        Err(TextErr::Deep) => too_deep(heap),
        Err(TextErr::Large) => too_large(heap),
        Err(TextErr::NoMemory) => Outcome::NoMemory,
    }
}

fn appended(heap: &Heap, builder: u32, value: &Value) -> Outcome
    ensures { Tells heap.now (spec.appended heap.now.objects builder value.now) result }
{
    match heap.get(builder) {
        Some(Object::Builder { .. }) => appended_to_builder(heap, builder, value),
        _ => appended_to_other(heap, builder, value),
    }
}

/// `append(def)`.
pub fn append_value(heap: &Heap, args: &[Value]) -> Outcome
    ensures { Tells heap.now (spec.append heap.now.objects args.now) result }
{
    match (object_at(args, 0), value_at(args, 1)) {
        (Some(builder), Some(value)) => appended(heap, builder, value),
        _ => null_error(),
    }
}

// Units in the place of those of a builder from one place up to another. It costs what the builder grows by.
#[tactic(auto, using(crate::proofs::Splicing::spliced_is))]
fn spliced(
    heap: &mut Heap,
    builder: u32,
    from: usize,
    to: usize,
    units: &[u16],
    value: Value,
) -> Answer
    requires ordered { from ≤ to }
    requires within { to ≤ length (units_of heap.old.objects builder) }
    ensures { Answers (effect heap.old (with_run builder (units_of heap.old.objects builder) from to units.now value)) heap.old heap.new result }
{
    match heap.splice_units(builder, from, to, units) {
        Ok(()) => Answer::Value(value),
        Err(HeapErr::Room) => {
            drop(value);
            Answer::Room
        }
        Err(HeapErr::NoMemory) => {
            drop(value);
            Answer::NoMemory
        }
    }
}

// A text at a place of a builder.
fn put_at(heap: &mut Heap, builder: u32, at: i32, text: &[u16]) -> Answer
    ensures { Answers (effect heap.old (spec.put_at builder (units_of heap.old.objects builder) at text.now)) heap.old heap.new result }
{
    let count = heap.units(builder).len();
    match place_within(0, count, at) {
        Some(place) => spliced(heap, builder, place, place, text, Value::Ref(builder)),
        None => index_error(heap, at, count).settle(heap),
    }
}

// A text that is longer than there is room for, at a place of a builder: it is not made.
#[tactic(auto, using(crate::proofs::Room::no_room_to_insert, crate::proofs::Room::no_place_to_insert))]
fn put_over(heap: &mut Heap, builder: u32, at: i32, value: &Value) -> Answer
    requires builder { is_builder (slice_get heap.old.objects builder) ≡ true }
    requires longer { IsLonger heap.old.room (text_of heap.old.objects value.now VISITS) }
    ensures { Answers (effect heap.old (spec.inserted heap.old.objects builder at value.now)) heap.old heap.new result }
{
    let count = heap.units(builder).len();
    match place_within(0, count, at) {
        Some(_) => Answer::Room,
        None => index_error(heap, at, count).settle(heap),
    }
}

// The text of a value at a place of a builder. It is made if there is room for it.
fn inserted_to_builder(heap: &mut Heap, builder: u32, at: i32, value: &Value) -> Answer
    requires { is_builder (slice_get heap.old.objects builder) ≡ true }
    ensures { Answers (effect heap.old (spec.inserted heap.old.objects builder at value.now)) heap.old heap.new result }
{
    match text_within(heap, value, VISITS, heap.room_left()) {
        Ok(Some(text)) => put_at(heap, builder, at, text.units()),
        Ok(None) => put_over(heap, builder, at, value),
        Err(TextErr::Deep) => too_deep(heap).settle(heap),
        Err(TextErr::Large) => too_large(heap).settle(heap),
        Err(TextErr::NoMemory) => Answer::NoMemory,
    }
}

// The text of a value at a place of an object that is no builder, and stays as it is.
fn inserted_to_other(heap: &mut Heap, builder: u32, at: i32, value: &Value) -> Answer
    ensures { Answers (effect heap.old (spec.inserted heap.old.objects builder at value.now)) heap.old heap.new result }
{
    match text(heap, value, VISITS) {
        Ok(text) => put_at(heap, builder, at, text.units()),
        Err(TextErr::Deep) => too_deep(heap).settle(heap),
        Err(TextErr::Large) => too_large(heap).settle(heap),
        Err(TextErr::NoMemory) => Answer::NoMemory,
    }
}

// The same, whatever the object is.
fn inserted_text(heap: &mut Heap, builder: u32, at: i32, value: &Value) -> Answer
    ensures { Answers (effect heap.old (spec.inserted heap.old.objects builder at value.now)) heap.old heap.new result }
{
    if is_builder(heap, builder) {
        inserted_to_builder(heap, builder, at, value)
    } else {
        inserted_to_other(heap, builder, at, value)
    }
}

fn is_builder(heap: &Heap, id: u32) -> bool
    ensures { result ≡ is_builder (slice_get heap.now.objects id) }
{
    match heap.get(id) {
        Some(Object::Builder { .. }) => true,
        _ => false,
    }
}

// The same; a text is no walk.
fn inserted(heap: &mut Heap, builder: u32, at: i32, value: &Value) -> Answer
    ensures { Answers (effect heap.old (spec.inserted heap.old.objects builder at value.now)) heap.old heap.new result }
{
    match value {
        Value::Str(text) => put_at(heap, builder, at, text.units()),
        _ => inserted_text(heap, builder, at, value),
    }
}

/// `insert(int, def)`.
pub fn insert(heap: &mut Heap, args: &[Value]) -> Answer
    ensures does { Answers (effect heap.old (spec.insert heap.old.objects args.now)) heap.old heap.new result }
    ensures memory { WantsMemory (spec.insert heap.old.objects args.now) result }
{
    match (object_at(args, 0), int_at(args, 1), value_at(args, 2)) {
        (Some(builder), Some(at), Some(value)) => inserted(heap, builder, at, value),
        _ => null_error().settle(heap),
    }
}

fn deleted(heap: &mut Heap, builder: u32, at: i32) -> Answer
    ensures { Answers (effect heap.old (spec.deleted heap.old.objects builder at)) heap.old heap.new result }
{
    let count = heap.units(builder).len();
    match place_before(count, at) {
        Some(place) => spliced(heap, builder, place, place + 1, &[], Value::Ref(builder)),
        None => index_error(heap, at, count).settle(heap),
    }
}

/// `deleteCharAt(int)`.
pub fn delete_char_at(heap: &mut Heap, args: &[Value]) -> Answer
    ensures does { Answers (effect heap.old (spec.delete_char_at heap.old.objects args.now)) heap.old heap.new result }
    ensures memory { WantsMemory (spec.delete_char_at heap.old.objects args.now) result }
{
    match (object_at(args, 0), int_at(args, 1)) {
        (Some(builder), Some(at)) => deleted(heap, builder, at),
        _ => null_error().settle(heap),
    }
}

/// `indexOf(String)` of a builder.
pub fn builder_index_of(heap: &Heap, args: &[Value]) -> Outcome
    ensures { Tells heap.now (spec.builder_index_of heap.now.objects args.now) result }
{
    match (sequence_at(heap, args, 0), text_at(args, 1)) {
        (Some(units), Some(part)) => place_of(units, part.units()),
        _ => null_error(),
    }
}

// Whether a builder of this length would be larger than there is room for. (It is asked before any memory is.)
#[tactic(auto, using(crate::proofs::Room::no_room_for_length))]
fn exceeds(heap: &Heap, builder: u32, count: usize) -> bool
    ensures { result ≡ true → effect heap.now (spec.set_there builder (units_of heap.now.objects builder) count) ≡ NoRoom }
{
    match heap.get(builder) {
        Some(Object::Builder { units }) => {
            count.saturating_sub(units.len()) as u64 > heap.room_left()
        }
        _ => false,
    }
}

// So many units 0.
fn zeros(alloc: Global, count: usize) -> Result<Vec<u16>, AllocError>
    ensures { IfOk result (λ made. made.items ≡ replicate count 0) }
{
    let mut made = Vec::with_capacity(alloc, count)?;
    made.resize(count, 0)?;
    Ok(made)
}

// Units 0 at the end of a builder up to a length.
fn lengthened(heap: &mut Heap, builder: u32, count: usize) -> Answer
    requires { length (units_of heap.old.objects builder) ≤ count }
    ensures { Answers (effect heap.old (spec.set_there builder (units_of heap.old.objects builder) count)) heap.old heap.new result }
{
    if exceeds(heap, builder, count) {
        return Answer::Room;
    }
    let before = heap.units(builder).len();
    match zeros(heap.alloc(), count - before) {
        Ok(units) => spliced(heap, builder, before, before, units.as_slice(), Value::Null),
        Err(_) => Answer::NoMemory,
    }
}

fn set_there(heap: &mut Heap, builder: u32, count: usize) -> Answer
    ensures { Answers (effect heap.old (spec.set_there builder (units_of heap.old.objects builder) count)) heap.old heap.new result }
{
    let before = heap.units(builder).len();
    if count <= before {
        spliced(heap, builder, count, before, &[], Value::Null)
    } else {
        lengthened(heap, builder, count)
    }
}

fn resized(heap: &mut Heap, builder: u32, count: i32) -> Answer
    ensures { Answers (effect heap.old (spec.resized heap.old.objects builder count)) heap.old heap.new result }
{
    if count < 0 {
        let before = heap.units(builder).len();
        return index_error(heap, count, before).settle(heap);
    }
    set_there(heap, builder, count as usize)
}

/// `setLength(int)`.
pub fn set_length(heap: &mut Heap, args: &[Value]) -> Answer
    ensures does { Answers (effect heap.old (spec.set_length heap.old.objects args.now)) heap.old heap.new result }
    ensures memory { WantsMemory (spec.set_length heap.old.objects args.now) result }
{
    match (object_at(args, 0), int_at(args, 1)) {
        (Some(builder), Some(count)) => resized(heap, builder, count),
        _ => null_error().settle(heap),
    }
}

/// The text of a value at the end of a builder. The units of a text are written there at once.
pub fn append(heap: &mut Heap, args: &[Value]) -> Answer
    ensures does { Answers (effect heap.old (spec.append heap.old.objects args.now)) heap.old heap.new result }
    ensures memory { WantsMemory (spec.append heap.old.objects args.now) result }
{
    match (object_at(args, 0), text_at(args, 1)) {
        (Some(builder), Some(text)) => extend(heap, builder, text.units()),
        _ => append_value(heap, args).settle(heap),
    }
}
