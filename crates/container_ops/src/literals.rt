//! Literals of lists and maps, and arrays of elements that are given.
ghost use Rattle.std.specs.Prelude.{◌≡◌, [], IfOk, OnOk, length};
ghost use Rattle.object_values.specs.Pairs.{with_pair, with_pairs};
ghost use Rattle.object_heap.specs.Effects.{Answers};
ghost use Rattle.object_heap.specs.Fits.{Rules, Fits, AllFit, AnswerFits};
ghost use Rattle.container_outcomes.specs.Outcomes.{Tells};
ghost use Rattle.container_ops.specs.Making as spec;

use crate::errors::other_kind;
use crate::types::{are_of_type, is_type};
use container_outcomes::{Outcome, copied, not_simple};
use object_heap::{Answer, Heap};
use object_values::{Elements, Guard, Object, Pairs, Value};
use pl_types::Ty;
use pl_types::classes::{ARRAY_LIST, HASH_MAP};
use std::alloc::{AllocError, Global};

fn new_list(items: Elements<Value>) -> Object
    ensures { result ≡ Object.List ARRAY_LIST items Guard.Open 0 }
{
    Object::List {
        class: ARRAY_LIST,
        items,
        guard: Guard::Open,
        changes: 0,
    }
}

fn list_told(heap: &Heap, items: &[Value]) -> Outcome
    ensures { Tells (spec.list_told items.now) result }
{
    match copied(heap.alloc(), items) {
        Ok(items) => Outcome::New(new_list(items)),
        Err(_) => Outcome::NoMemory,
    }
}

/// A new ArrayList of these items: `[a, b]`. It costs its weight.
///
/// `Room`: there is none for it. `NoMemory`: there was none.
#[tactic(auto, unfolding(crate::specs::Making::list_made))]
pub fn list_made(heap: &mut Heap, items: &[Value]) -> Answer
    ensures does { Answers (spec.list_made heap.old items.now) heap.old heap.new result }
    ensures keeps { (rules : Rules) → Fits rules heap.old.objects → AllFit (length heap.old.objects) items.now → AnswerFits rules heap.new result }
{
    let told = list_told(heap, items);
    told.settle(heap)
}

// Whether the keys that stand before values are simple.
fn have_simple_keys(parts: &[Value]) -> bool
    ensures { result ≡ spec.have_simple_keys (spec.pairs_in parts.now) }
{
    let mut left = parts;
    'parts: while let [key, _value, others @ ..] = left {
        if !key.is_simple() {
            return false;
        }
        left = others;
    }
    true
}

fn new_map(pairs: Pairs) -> Object
    ensures { result ≡ Object.Map HASH_MAP pairs Guard.Open 0 }
{
    Object::Map {
        class: HASH_MAP,
        pairs,
        guard: Guard::Open,
        changes: 0,
    }
}

fn put(pairs: &mut Pairs, key: Value, value: Value) -> Result<(), AllocError>
    ensures { OnOk result (pairs.new ≡ with_pair pairs.old key value) }
{
    match pairs.put(key, value) {
        Ok(Some(before)) => {
            drop(before);
            Ok(())
        }
        Ok(None) => Ok(()),
        Err(refused) => Err(refused),
    }
}

// Keys and values by turns, as pairs.
fn pairs_of(heap: &Heap, parts: &[Value]) -> Result<Pairs, AllocError>
    ensures { IfOk result (λ pairs. pairs ≡ with_pairs [] (spec.pairs_in parts.now)) }
{
    let mut pairs = Pairs::new(heap.alloc(), heap.seed());
    let mut left = parts;
    'parts: while let [key, value, others @ ..] = left {
        put(&mut pairs, key.share()?, value.share()?)?;
        left = others;
    }
    Ok(pairs)
}

fn map_told(heap: &Heap, parts: &[Value]) -> Outcome
    ensures { Tells (spec.map_told (spec.pairs_in parts.now)) result }
{
    if !have_simple_keys(parts) {
        return not_simple(heap);
    }
    match pairs_of(heap, parts) {
        Ok(pairs) => Outcome::New(new_map(pairs)),
        Err(_) => Outcome::NoMemory,
    }
}

/// A new HashMap of keys and values, which stand by turns: `[k: v]`. Of two equal keys the first keeps its place, and has the last
/// value. It costs its weight.
///
/// `Thrown`: IllegalArgumentException of a key that is an object. `Room`: there is none for the map or the exception. `NoMemory`:
/// there was none for it.
#[tactic(auto, unfolding(crate::specs::Making::map_made))]
pub fn map_made(heap: &mut Heap, parts: &[Value]) -> Answer
    ensures does { Answers (spec.map_made heap.old parts.now) heap.old heap.new result }
    ensures keeps { (rules : Rules) → Fits rules heap.old.objects → AllFit (length heap.old.objects) parts.now → AnswerFits rules heap.new result }
{
    let told = map_told(heap, parts);
    told.settle(heap)
}

fn array_of(alloc: Global, elem: &Ty, items: &[Value]) -> Result<Object, AllocError>
    ensures { IfOk result (λ object. object ≡ Object.Array elem.now items.now) }
{
    let elem = elem.share(alloc)?;
    match copied(alloc, items) {
        Ok(items) => Ok(Object::Array { elem, items }),
        Err(refused) => {
            drop(elem);
            Err(refused)
        }
    }
}

fn filled_told(heap: &Heap, elem: &Ty, items: &[Value]) -> Outcome
    ensures { Tells (spec.filled_told heap.now.objects elem.now items.now) result }
{
    if !(is_type(elem) && are_of_type(heap, elem, items)) {
        return other_kind();
    }
    match array_of(heap.alloc(), elem, items) {
        Ok(object) => Outcome::New(object),
        Err(_) => Outcome::NoMemory,
    }
}

/// A new array of these elements, which are of its element type: `new T[] {..}`. It costs its weight.
///
/// `Thrown`: ClassCastException of an element of another type. `Room`: there is none for the array or the exception. `NoMemory`: there
/// was none for it.
#[tactic(auto, unfolding(crate::specs::Making::array_filled))]
pub fn array_filled(heap: &mut Heap, elem: &Ty, items: &[Value]) -> Answer
    ensures does { Answers (spec.array_filled heap.old elem.now items.now) heap.old heap.new result }
    ensures keeps { (rules : Rules) → Fits rules heap.old.objects → AllFit (length heap.old.objects) items.now → AnswerFits rules heap.new result }
{
    let told = filled_told(heap, elem, items);
    told.settle(heap)
}
