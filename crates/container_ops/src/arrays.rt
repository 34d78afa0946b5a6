//! Arrays that are made with their sizes: `new T[n][m]`, an array, and behind it the arrays that are its elements, and so on inwards.
ghost use Rattle.std.specs.Prelude.{◌≡◌, ◌+◌, ◌++◌, [], ◌∷◌, nat_le, replicate, IfOk, OnOk};
ghost use Rattle.std.specs.Fmt.{signed_decimal};
ghost use Rattle.std.specs.String.{string_bytes};
ghost use Rattle.object_values.specs.declared.object.Object.TheVariants as o;
ghost use Rattle.object_heap.specs.Effects.{Answers};
ghost use Rattle.object_heap.specs.Fits.{Rules, Fits, AnswerFits};
ghost use Rattle.container_values.specs.Elements.{references};
ghost use Rattle.container_ops.specs.Making as spec;
ghost use Rattle.container_ops.specs.Sizes.{cost_of};
ghost use Rattle.container_ops.specs.Types.{default_of, element_of};

use crate::errors::on_other_kind;
use crate::types::{default_of, element_of, is_type, takes_sizes};
use object_heap::{Answer, Heap, HeapErr, throw};
use object_values::{Elements, Object, Value};
use pl_types::Ty;
use pl_types::classes::NEGATIVE_ARRAY_SIZE_EXCEPTION;
use pl_units::UText;
use std::alloc::{AllocError, Global};

// ---- sizes

fn first_negative(sizes: &[i32]) -> Option<i32>
    ensures { result ≡ spec.first_negative sizes.now }
{
    let mut left = sizes;
    'sizes: while let [size, others @ ..] = left {
        if *size < 0 {
            return Some(*size);
        }
        left = others;
    }
    None
}

// The length that a size gives, a negative one none.
fn length_given(size: i32) -> u32
    ensures { result ≡ spec.length_given size }
{
    if size < 0 { 0 } else { size as u32 }
}

fn lengths_given(alloc: Global, sizes: &[i32]) -> Result<Vec<u32>, AllocError>
    ensures { IfOk result (λ lengths. lengths.items ≡ spec.lengths_given sizes.now) }
{
    let mut lengths = Vec::new(alloc);
    let mut left = sizes;
    'sizes: while let [size, others @ ..] = left {
        lengths.push(length_given(*size))?;
        left = others;
    }
    Ok(lengths)
}

// Whether so many arrays of the first size, and all that they hold, weigh no more than this.
fn are_within(sizes: &[u32], room: u64) -> bool
    ensures { result ≡ nat_le (cost_of 1 sizes.now) room }
{
    let mut count: u64 = 1;
    let mut room_left = room;
    let mut left = sizes;
    'levels: while let [size, others @ ..] = left {
        let Some(cost) = count.checked_mul(u64::from(*size) + 1) else {
            return false;
        };
        if room_left < cost {
            return false;
        }
        room_left -= cost;
        count = cost - count;
        left = others;
    }
    true
}

// ---- one level

fn push_reference(items: &mut Elements<Value>, first: usize, place: usize) -> Result<(), AllocError>
    ensures { OnOk result (items.new ≡ items.old ++ Value.Ref (first + place) ∷ []) }
{
    let Some(number) = first.checked_add(place) else {
        return Err(AllocError);
    };
    match u32::try_from(number) {
        Ok(id) => items.push(Value::Ref(id)),
        Err(_) => Err(AllocError),
    }
}

// So many references, to objects one behind the other.
fn references(alloc: Global, first: usize, count: u32) -> Result<Elements<Value>, AllocError>
    ensures { IfOk result (λ items. items ≡ references first count) }
{
    let mut items = Elements::new(alloc);
    'places: for place in 0..count {
        push_reference(&mut items, first, place as usize)?;
    }
    Ok(items)
}

fn push_row(
    all: &mut Elements<Object>,
    alloc: Global,
    elem: &Ty,
    size: u32,
    first: usize,
) -> Result<(), AllocError>
    ensures { OnOk result (all.new ≡ all.old ++ o.Array elem.now (references first size) ∷ []) }
{
    let items = references(alloc, first, size)?;
    match elem.share(alloc) {
        Ok(elem) => all.push(Object::Array { elem, items }),
        Err(refused) => {
            drop(items);
            Err(refused)
        }
    }
}

// So many arrays of references.
fn push_rows(
    all: &mut Elements<Object>,
    alloc: Global,
    elem: &Ty,
    count: u64,
    size: u32,
    first: usize,
) -> Result<(), AllocError>
    ensures { OnOk result (all.new ≡ all.old ++ spec.rows_of elem.now count size first) }
{
    let mut number = first;
    'rows: for row in 0..count {
        push_row(all, alloc, elem, size, number)?;
        let Some(next) = number.checked_add(size as usize) else {
            return Err(AllocError);
        };
        number = next;
    }
    Ok(())
}

// So many values that an element begins with.
fn defaults(alloc: Global, elem: &Ty, size: u32) -> Result<Elements<Value>, AllocError>
    ensures { IfOk result (λ items. items ≡ replicate size (default_of elem.now)) }
{
    let mut items = Elements::new(alloc);
    'places: for place in 0..size {
        items.push(default_of(elem))?;
    }
    Ok(items)
}

fn push_innermost(
    all: &mut Elements<Object>,
    alloc: Global,
    elem: &Ty,
    size: u32,
) -> Result<(), AllocError>
    ensures { OnOk result (all.new ≡ all.old ++ o.Array elem.now (replicate size (default_of elem.now)) ∷ []) }
{
    let items = defaults(alloc, elem, size)?;
    match elem.share(alloc) {
        Ok(elem) => all.push(Object::Array { elem, items }),
        Err(refused) => {
            drop(items);
            Err(refused)
        }
    }
}

// So many arrays of what their elements begin with.
fn push_all_innermost(
    all: &mut Elements<Object>,
    alloc: Global,
    elem: &Ty,
    count: u64,
    size: u32,
) -> Result<(), AllocError>
    ensures { OnOk result (all.new ≡ all.old ++ replicate count (o.Array elem.now (replicate size (default_of elem.now)))) }
{
    'rows: for row in 0..count {
        push_innermost(all, alloc, elem, size)?;
    }
    Ok(())
}

fn push_level(
    all: &mut Elements<Object>,
    alloc: Global,
    elem: &Ty,
    count: u64,
    size: u32,
    inner: &[u32],
    first: usize,
) -> Result<(), AllocError>
    ensures { OnOk result (all.new ≡ all.old ++ spec.level_of elem.now count size inner.now first) }
{
    match inner {
        [] => push_all_innermost(all, alloc, elem, count, size),
        _ => push_rows(all, alloc, elem, count, size, first),
    }
}

// ---- all levels

// One array of the first size, which has this number, and all that it holds.
fn arrays_from(
    alloc: Global,
    elem: &Ty,
    sizes: &[u32],
    first: usize,
) -> Result<Elements<Object>, AllocError>
    ensures { IfOk result (λ all. all ≡ spec.arrays_from elem.now 1 sizes.now first) }
{
    let mut all = Elements::new(alloc);
    let mut elem = elem;
    let mut count: u64 = 1;
    let mut first = first;
    let mut left = sizes;
    'levels: while let [size, others @ ..] = left {
        first = first.checked_add(count as usize).ok_or(AllocError)?;
        push_level(&mut all, alloc, elem, count, *size, others, first)?;
        elem = element_of(elem);
        count = count.checked_mul(u64::from(*size)).ok_or(AllocError)?;
        left = others;
    }
    Ok(all)
}

// Adds objects, of which this is the number of the first.
fn add_all(heap: &mut Heap, all: Elements<Object>, first: u32) -> Answer
    ensures { Answers (spec.added_all heap.old all first) heap.old heap.new result }
{
    match heap.add_all(all) {
        Ok(()) => Answer::Value(Value::Ref(first)),
        Err(HeapErr::Room) => Answer::Room,
        Err(HeapErr::NoMemory) => Answer::NoMemory,
    }
}

// The arrays of these sizes, which there is room for.
fn arrays_within(heap: &mut Heap, of: &Ty, sizes: &[u32]) -> Answer
    ensures { Answers (spec.arrays_made heap.old of.now sizes.now) heap.old heap.new result }
{
    let Ok(first) = u32::try_from(heap.len()) else {
        return Answer::NoMemory;
    };
    match arrays_from(heap.alloc(), element_of(of), sizes, first as usize) {
        Ok(all) => add_all(heap, all, first),
        Err(_) => Answer::NoMemory,
    }
}

// Where there is no room nothing is made.
fn arrays_made(heap: &mut Heap, of: &Ty, sizes: &[u32]) -> Answer
    ensures { Answers (spec.arrays_made heap.old of.now sizes.now) heap.old heap.new result }
{
    if are_within(sizes, heap.room_left()) {
        arrays_within(heap, of, sizes)
    } else {
        Answer::Room
    }
}

fn arrays_given(heap: &mut Heap, of: &Ty, sizes: &[i32]) -> Answer
    ensures { Answers (spec.arrays_made heap.old of.now (spec.lengths_given sizes.now)) heap.old heap.new result }
{
    match lengths_given(heap.alloc(), sizes) {
        Ok(lengths) => arrays_made(heap, of, lengths.as_slice()),
        Err(_) => Answer::NoMemory,
    }
}

fn size_text(alloc: Global, size: i32) -> Result<String, AllocError>
    ensures { IfOk result (λ text. string_bytes text ≡ signed_decimal size) }
{
    format!(in alloc; "{size}")
}

fn negative_size(heap: &mut Heap, size: i32) -> Answer
    ensures { Answers (spec.negative_size heap.old size) heap.old heap.new result }
{
    let Ok(text) = size_text(heap.alloc(), size) else {
        return Answer::NoMemory;
    };
    match UText::from_utf8(heap.alloc(), text.as_str()) {
        Ok(message) => throw(heap, NEGATIVE_ARRAY_SIZE_EXCEPTION, Some(message)),
        Err(_) => Answer::NoMemory,
    }
}

fn made_if(heap: &mut Heap, of: &Ty, sizes: &[i32]) -> Answer
    ensures { Answers (spec.array_made_if heap.old of.now sizes.now (spec.first_negative sizes.now)) heap.old heap.new result }
{
    match first_negative(sizes) {
        Some(size) => negative_size(heap, size),
        None => arrays_given(heap, of, sizes),
    }
}

#[tactic(auto, unfolding(crate::specs::Making::array_made))]
fn made(heap: &mut Heap, of: &Ty, sizes: &[i32]) -> Answer
    ensures { Answers (spec.array_made heap.old of.now sizes.now) heap.old heap.new result }
{
    if is_type(of) && takes_sizes(of, sizes.len()) {
        made_if(heap, of, sizes)
    } else {
        on_other_kind(heap)
    }
}

/// A new array of an array type with these sizes, the outermost first, and the arrays that it holds: `new T[n][m]`. Where the type has
/// more `[]` than there are sizes, the innermost arrays hold null. It costs the weight of all of them, and where there is no room for
/// that nothing is made.
///
/// `Thrown`: NegativeArraySizeException with the first size that is negative, whatever the others are; ClassCastException of a type
/// that is none of values or has fewer `[]`, and where no size is given. `Room`: there is none for the arrays or the exception.
/// `NoMemory`: there was none.
pub fn array_made(heap: &mut Heap, of: &Ty, sizes: &[i32]) -> Answer
    ensures does { Answers (spec.array_made heap.old of.now sizes.now) heap.old heap.new result }
    ensures keeps { (rules : Rules) → Fits rules heap.old.objects → AnswerFits rules heap.new result }
{
    made(heap, of, sizes)
}
