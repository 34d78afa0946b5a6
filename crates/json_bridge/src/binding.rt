//! The value of a script that a JSON value is bound to, and the objects that it needs.

ghost use Rattle.std.specs.Prelude.{◌≡◌, [], true, false, is_some, IfOk, IfErr, OnOk};
ghost use Rattle.serde_json.specs.View.{view, items_view, members_view, number_view};
ghost use Rattle.serde_json.specs.Find.{as_i64};
ghost use Rattle.job_file.specs.Values.{has_whole_numbers, items_have_whole_numbers, members_have_whole_numbers};
ghost use Rattle.json_bridge.specs.Binding.{Grown, bound, bound_array, bound_items, bound_members, bound_number, bound_object, guard_of, whole_value};
ghost use Rattle.json_bridge.specs.declared.error.NumErr.TheVariants as num_err;

use crate::error::NumErr;
use object_heap::Heap;
use object_values::{Elements, Guard, Object, Pairs, Value};
use pl_types::classes::{ARRAY_LIST, HASH_MAP};
use pl_units::UText;
use serde_json::{Map, Number, Value as Json};

/// What may change what is bound.
fn guard_of(frozen: bool) -> Guard
    ensures { result ≡ guard_of frozen }
{
    if frozen { Guard::Frozen } else { Guard::Open }
}

/// A whole number as a value.
fn whole_value(number: i64) -> Value
    ensures { result ≡ whole_value number }
{
    if -2_147_483_648 <= number && number <= 2_147_483_647 {
        Value::Int(number as i32)
    } else {
        Value::Long(number)
    }
}

/// A number as a value, if it is a whole one.
fn bind_number(number: &Number) -> Result<Value, NumErr>
    ensures value { IfOk result (λ value. value ≡ bound_number (number_view number.now)) }
    ensures whole { IfOk result (λ _. is_some (as_i64 (number_view number.now)) ≡ true) }
    ensures error { IfErr result (λ e. (e ≡ num_err.Number) × (is_some (as_i64 (number_view number.now)) ≡ false)) }
{
    match number.as_i64() {
        Some(whole) => Ok(whole_value(whole)),
        None => Err(NumErr::Number),
    }
}

/// Binds a JSON value, with every number in it a whole one of 64 bits with a sign. A whole number that fits 32 bits is an
/// Integer and any other a Long, an array is an ArrayList, and an object a HashMap that is filled in byte order of its keys.
/// Lists and maps stand in the heap, each after what it holds; where it is asked, nothing may change them, at any depth. What
/// is bound takes nothing from the room. The objects that were
/// there stay; after an error there may be more that nothing names.
///
/// It goes one call deeper for each array or object around a value, of which what `serde_json` reads has at most 127.
#[tactic(auto, using(crate::proofs::Growing::grown_same, crate::proofs::Growing::grown_once, crate::proofs::Growing::grown_twice))]
#[cycle(binding)]
pub fn bind(heap: &mut Heap, json: &Json, frozen: bool) -> Result<Value, NumErr>
    ensures value { IfOk result (λ value. value ≡ (bound frozen heap.old.objects (view json.now)).value) }
    ensures store { OnOk result (heap.new ≡ record heap.old { objects = (bound frozen heap.old.objects (view json.now)).objects }) }
    ensures whole { OnOk result (has_whole_numbers (view json.now) ≡ true) }
    ensures error { IfErr result (λ e. (e ≡ num_err.Number) → (has_whole_numbers (view json.now) ≡ false)) }
    ensures grown { Grown heap.old heap.new }
{
    match json {
        Json::Null => Ok(Value::Null),
        Json::Bool(flag) => Ok(Value::Bool(*flag)),
        Json::Number(number) => bind_number(number),
        Json::String(text) => Ok(Value::Str(UText::from_utf8(heap.alloc(), text.as_str())?)),
        Json::Array(items) => bind_array(heap, items, frozen),
        Json::Object(members) => bind_object(heap, members, frozen),
    }
}

/// Binds an array.
#[tactic(auto, using(crate::proofs::Growing::grown_same, crate::proofs::Growing::grown_once, crate::proofs::Growing::grown_twice))]
#[cycle(binding)]
fn bind_array(heap: &mut Heap, items: &Vec<Json>, frozen: bool) -> Result<Value, NumErr>
    ensures value { IfOk result (λ value. value ≡ (bound_array frozen heap.old.objects (items_view items.now.items)).value) }
    ensures store { OnOk result (heap.new ≡ record heap.old { objects = (bound_array frozen heap.old.objects (items_view items.now.items)).objects }) }
    ensures whole { OnOk result (items_have_whole_numbers (items_view items.now.items) ≡ true) }
    ensures error { IfErr result (λ e. (e ≡ num_err.Number) → (items_have_whole_numbers (items_view items.now.items) ≡ false)) }
    ensures grown { Grown heap.old heap.new }
{
    let items = bind_items(heap, items, frozen)?;
    let list = Object::List {
        class: ARRAY_LIST,
        items,
        guard: guard_of(frozen),
        changes: 0,
    };
    Ok(Value::Ref(heap.place(list)?))
}

/// Binds each item of an array.
#[tactic(auto, using(crate::proofs::Growing::grown_same, crate::proofs::Growing::grown_once, crate::proofs::Growing::grown_twice))]
#[cycle(binding)]
fn bind_items(heap: &mut Heap, items: &Vec<Json>, frozen: bool) -> Result<Elements<Value>, NumErr>
    ensures values { IfOk result (λ values. values ≡ (bound_items frozen (record { values = []; objects = heap.old.objects }) (items_view items.now.items)).values) }
    ensures store { OnOk result (heap.new ≡ record heap.old { objects = (bound_items frozen (record { values = []; objects = heap.old.objects }) (items_view items.now.items)).objects }) }
    ensures whole { OnOk result (items_have_whole_numbers (items_view items.now.items) ≡ true) }
    ensures error { IfErr result (λ e. (e ≡ num_err.Number) → (items_have_whole_numbers (items_view items.now.items) ≡ false)) }
    ensures grown { Grown heap.old heap.new }
{
    let mut values = Elements::new(heap.alloc());
    for item in items {
        let value = bind(heap, item, frozen)?;
        values.push(value)?;
    }
    Ok(values)
}

/// Binds an object.
#[tactic(auto, using(crate::proofs::Growing::grown_same, crate::proofs::Growing::grown_once, crate::proofs::Growing::grown_twice))]
#[cycle(binding)]
fn bind_object(heap: &mut Heap, members: &Map<String, Json>, frozen: bool) -> Result<Value, NumErr>
    ensures value { IfOk result (λ value. value ≡ (bound_object frozen heap.old.objects (members_view members.now.entries)).value) }
    ensures store { OnOk result (heap.new ≡ record heap.old { objects = (bound_object frozen heap.old.objects (members_view members.now.entries)).objects }) }
    ensures whole { OnOk result (members_have_whole_numbers (members_view members.now.entries) ≡ true) }
    ensures error { IfErr result (λ e. (e ≡ num_err.Number) → (members_have_whole_numbers (members_view members.now.entries) ≡ false)) }
    ensures grown { Grown heap.old heap.new }
{
    let pairs = bind_members(heap, members, frozen)?;
    let map = Object::Map {
        class: HASH_MAP,
        pairs,
        guard: guard_of(frozen),
        changes: 0,
    };
    Ok(Value::Ref(heap.place(map)?))
}

/// Binds the value of each member of an object, under its name.
#[tactic(auto, using(crate::proofs::Growing::grown_same, crate::proofs::Growing::grown_once, crate::proofs::Growing::grown_twice))]
#[cycle(binding)]
fn bind_members(heap: &mut Heap, members: &Map<String, Json>, frozen: bool) -> Result<Pairs, NumErr>
    ensures pairs { IfOk result (λ pairs. pairs ≡ (bound_members frozen (record { pairs = []; objects = heap.old.objects }) (members_view members.now.entries)).pairs) }
    ensures store { OnOk result (heap.new ≡ record heap.old { objects = (bound_members frozen (record { pairs = []; objects = heap.old.objects }) (members_view members.now.entries)).objects }) }
    ensures whole { OnOk result (members_have_whole_numbers (members_view members.now.entries) ≡ true) }
    ensures error { IfErr result (λ e. (e ≡ num_err.Number) → (members_have_whole_numbers (members_view members.now.entries) ≡ false)) }
    ensures grown { Grown heap.old heap.new }
{
    let mut pairs = Pairs::new(heap.alloc(), heap.seed());
    for (name, member) in members.iter() {
        let value = bind(heap, member, frozen)?;
        let key = Value::Str(UText::from_utf8(heap.alloc(), name.as_str())?);
        pairs.put(key, value)?;
    }
    Ok(pairs)
}
