//! The JSON form of a value of a script, and of what it holds.

ghost use Rattle.std.specs.Prelude.{◌≡◌, ◌++◌, ℕ, List, [], ◌∷◌, Ok, map, true, false, IfErr, IfNone, IfOk, IfSome, OnOk};
ghost use Rattle.std.specs.Option.{option_copied};
ghost use Rattle.pl_units.specs.Utf16.{bytes};
ghost use Rattle.serde_json.specs.Data.{Data, array, no_members, string};
ghost use Rattle.serde_json.specs.View.{view, items_view, members_view};
ghost use Rattle.object_heap.specs.Parts.{pairs_in};
ghost use Rattle.object_values.specs.declared.object.Object.{Object};
ghost use Rattle.object_values.specs.declared.value.Value.{Value};
ghost use Rattle.json_bridge.specs.Giving as spec;
ghost use Rattle.json_bridge.specs.Giving.{AValue, AnEntry, Makes, TellsEnd, TellsFault, Walk, given_of, node_at};

use crate::error::GiveErr;
use crate::names::{are_names, pair_at, put};
use object_heap::Heap;
use object_values::{Object, Pairs, Part, Value};
use pl_units::UText;
use serde_json::{Map, Value as Json};
use std::alloc::{AllocError, Global};

/// How deep a value may stand, the given one being at depth 1.
const LEVELS: u32 = 100;

/// How many values may be met.
const NODES: u64 = 1_000_000;

/// The JSON form of a value and of all that it holds: null; truth values; whole numbers as numbers; a char and a text as a string,
/// with U+FFFD for an unpaired surrogate; lists, arrays, sets and views as arrays; maps as objects, whose names are the UTF-8 forms
/// of the keys.
///
/// The values are met from the front, each before what it holds, and the first that has a fault decides. At one value `Depth` (it
/// stands deeper than 100) comes before `Size` (1,000,000 values were met before), and this before `Kind` (it is an entry, an
/// iterator, a builder, a function value or an exception) and `Key` (it is a map, and a key is no text, or two keys have one UTF-8
/// form): all keys of a map come before its first value. Keys are not counted.
#[tactic(auto, unfolding(crate::specs::Giving::given_of))]
pub fn give(heap: &Heap, value: &Value) -> Result<Json, GiveErr>
    ensures value { IfOk result (λ json. given_of heap.now.objects value.now ≡ Ok (view json)) }
    ensures error { IfErr result (TellsFault (given_of heap.now.objects value.now)) }
{
    let mut nodes = NODES;
    value_at(heap, LEVELS, value, &mut nodes)
}

/// Meets a value, at so many levels and with so many values from here on.
#[cycle(giving)]
pub fn value_at(heap: &Heap, levels: u32, value: &Value, nodes: &mut u64) -> Result<Json, GiveErr>
    ensures value { IfOk result (λ json. node_at levels heap.now.objects (AValue value.now) nodes.old ≡ Makes (view json) nodes.new) }
    ensures error { IfErr result (TellsEnd (node_at levels heap.now.objects (AValue value.now) nodes.old)) }
{
    if levels == 0 {
        return Err(GiveErr::Depth);
    }
    if *nodes == 0 {
        return Err(GiveErr::Size);
    }
    *nodes -= 1;
    value_given(heap, levels - 1, value, nodes)
}

/// Meets an entry that a view shows, which has no form.
fn entry_at(levels: u32, nodes: u64) -> GiveErr
    ensures { (objects : List Object) → TellsEnd (node_at levels objects AnEntry nodes) result }
{
    if levels == 0 {
        GiveErr::Depth
    } else if nodes == 0 {
        GiveErr::Size
    } else {
        GiveErr::Kind
    }
}

#[cycle(giving)]
fn value_given(heap: &Heap, levels: u32, value: &Value, nodes: &mut u64) -> Result<Json, GiveErr>
    ensures value { IfOk result (λ json. spec.value_given (node_at levels heap.now.objects) heap.now.objects value.now nodes.old ≡ Makes (view json) nodes.new) }
    ensures error { IfErr result (TellsEnd (spec.value_given (node_at levels heap.now.objects) heap.now.objects value.now nodes.old)) }
{
    match value {
        Value::Ref(id) => match heap.get(*id) {
            Some(object) => held_given(heap, levels, object, nodes),
            None => Err(GiveErr::Kind),
        },
        _ => plain_given(heap.alloc(), value, *nodes),
    }
}

/// The JSON of a text.
fn text_given(text: &UText) -> Result<Json, AllocError>
    ensures { IfOk result (λ json. view json ≡ string (bytes text.now)) }
{
    Ok(Json::String(text.to_utf8()?))
}

/// The JSON of a char.
fn char_given(alloc: Global, unit: u16) -> Result<Json, AllocError>
    ensures { IfOk result (λ json. view json ≡ string (bytes (unit ∷ []))) }
{
    let text = UText::from_slice(alloc, &[unit])?;
    text_given(&text)
}

/// The JSON of a value that is no object.
fn plain_given(alloc: Global, value: &Value, nodes: u64) -> Result<Json, GiveErr>
    ensures value { IfOk result (λ json. spec.plain_given value.now nodes ≡ Makes (view json) nodes) }
    ensures error { IfErr result (TellsEnd (spec.plain_given value.now nodes)) }
{
    match value {
        Value::Null => Ok(Json::Null),
        Value::Bool(flag) => Ok(Json::Bool(*flag)),
        Value::Byte(number) => Ok(Json::from(*number)),
        Value::Short(number) => Ok(Json::from(*number)),
        Value::Char(unit) => Ok(char_given(alloc, *unit)?),
        Value::Int(number) => Ok(Json::from(*number)),
        Value::Long(number) => Ok(Json::from(*number)),
        Value::Str(text) => Ok(text_given(text)?),
        Value::Ref(_) => Err(GiveErr::Kind),
    }
}

#[cycle(giving)]
fn held_given(heap: &Heap, levels: u32, object: &Object, nodes: &mut u64) -> Result<Json, GiveErr>
    ensures value { IfOk result (λ json. spec.held_given (node_at levels heap.now.objects) heap.now.objects object.now nodes.old ≡ Makes (view json) nodes.new) }
    ensures error { IfErr result (TellsEnd (spec.held_given (node_at levels heap.now.objects) heap.now.objects object.now nodes.old)) }
{
    match object {
        Object::List { items, .. } => array_given(heap, levels, items.as_slice(), nodes),
        Object::Array { items, .. } => array_given(heap, levels, items.as_slice(), nodes),
        Object::Map { pairs, .. } => map_given(heap, levels, pairs, nodes),
        Object::Set { items, .. } => shown_given(heap, levels, Part::Keys, Some(items), nodes),
        Object::View { map, part } => shown_given(heap, levels, *part, heap.pairs(*map), nodes),
        _ => Err(GiveErr::Kind),
    }
}

/// The array of the items of a list or an array.
#[cycle(giving)]
fn array_given(heap: &Heap, levels: u32, items: &[Value], nodes: &mut u64) -> Result<Json, GiveErr>
    ensures value { IfOk result (λ json. spec.array_given (λ value. node_at levels heap.now.objects (AValue value)) items.now nodes.old ≡ Makes (view json) nodes.new) }
    ensures error { IfErr result (TellsEnd (spec.array_given (λ value. node_at levels heap.now.objects (AValue value)) items.now nodes.old)) }
{
    let given = items_given(heap, levels, items, nodes)?;
    Ok(Json::Array(given))
}

/// The items of a list or an array.
#[cycle(giving)]
fn items_given(
    heap: &Heap,
    levels: u32,
    items: &[Value],
    nodes: &mut u64,
) -> Result<Vec<Json>, GiveErr>
    ensures value { IfOk result (λ given. spec.items_given (λ value. node_at levels heap.now.objects (AValue value)) [] items.now nodes.old ≡ Makes (map view given.items) nodes.new) }
    ensures error { IfErr result (TellsEnd (spec.items_given (λ value. node_at levels heap.now.objects (AValue value)) [] items.now nodes.old)) }
{
    let mut given = Vec::new(heap.alloc());
    for item in items {
        let json = value_at(heap, levels, item, nodes)?;
        push(&mut given, json)?;
    }
    Ok(given)
}

/// Puts an item last.
fn push(given: &mut Vec<Json>, json: Json) -> Result<(), AllocError>
    ensures { OnOk result (map view given.new.items ≡ map view given.old.items ++ view json ∷ []) }
{
    given.push(json)?;
    Ok(())
}

/// The array of what is shown of the pairs of a map or a set.
#[cycle(giving)]
fn shown_given(
    heap: &Heap,
    levels: u32,
    part: Part,
    pairs: Option<&Pairs>,
    nodes: &mut u64,
) -> Result<Json, GiveErr>
    ensures value { IfOk result (λ json. spec.array_given (λ pair. node_at levels heap.now.objects (spec.shown_of part pair)) (pairs_in (option_copied pairs.entry)) nodes.old ≡ Makes (view json) nodes.new) }
    ensures error { IfErr result (TellsEnd (spec.array_given (λ pair. node_at levels heap.now.objects (spec.shown_of part pair)) (pairs_in (option_copied pairs.entry)) nodes.old)) }
{
    match pairs {
        Some(pairs) => {
            let given = all_shown(heap, levels, part, pairs, nodes)?;
            Ok(Json::Array(given))
        }
        None => Ok(Json::Array(Vec::new(heap.alloc()))),
    }
}

/// What is shown of each pair of a map or a set.
#[cycle(giving)]
fn all_shown(
    heap: &Heap,
    levels: u32,
    part: Part,
    pairs: &Pairs,
    nodes: &mut u64,
) -> Result<Vec<Json>, GiveErr>
    ensures value { IfOk result (λ given. spec.items_given (λ pair. node_at levels heap.now.objects (spec.shown_of part pair)) [] pairs.now nodes.old ≡ Makes (map view given.items) nodes.new) }
    ensures error { IfErr result (TellsEnd (spec.items_given (λ pair. node_at levels heap.now.objects (spec.shown_of part pair)) [] pairs.now nodes.old)) }
{
    let mut given = Vec::new(heap.alloc());
    for at in 0..pairs.len() {
        let Some((key, value)) = pair_at(pairs, at) else {
            return Ok(given);
        };
        let json = pair_shown(heap, levels, part, key, value, nodes)?;
        push(&mut given, json)?;
    }
    Ok(given)
}

/// What is shown of a pair.
#[cycle(giving)]
fn pair_shown(
    heap: &Heap,
    levels: u32,
    part: Part,
    key: &Value,
    value: &Value,
    nodes: &mut u64,
) -> Result<Json, GiveErr>
    ensures value { IfOk result (λ json. node_at levels heap.now.objects (spec.shown_of part (key.now, value.now)) nodes.old ≡ Makes (view json) nodes.new) }
    ensures error { IfErr result (TellsEnd (node_at levels heap.now.objects (spec.shown_of part (key.now, value.now)) nodes.old)) }
{
    match part {
        Part::Keys => value_at(heap, levels, key, nodes),
        Part::Values => value_at(heap, levels, value, nodes),
        Part::Entries => Err(entry_at(levels, *nodes)),
    }
}

/// The object of a map. A fault of a key comes before one of a value, though it is met later.
#[cycle(giving)]
fn map_given(heap: &Heap, levels: u32, pairs: &Pairs, nodes: &mut u64) -> Result<Json, GiveErr>
    ensures value { IfOk result (λ json. spec.map_given (λ value. node_at levels heap.now.objects (AValue value)) pairs.now nodes.old ≡ Makes (view json) nodes.new) }
    ensures error { IfErr result (TellsEnd (spec.map_given (λ value. node_at levels heap.now.objects (AValue value)) pairs.now nodes.old)) }
{
    match members_given(heap, levels, pairs, nodes) {
        Ok(Some(members)) => Ok(Json::Object(members)),
        Ok(None) => Err(GiveErr::Key),
        Err(error) => Err(first_fault(heap.alloc(), pairs, error)),
    }
}

/// The first fault of a map, of which a value has one.
fn first_fault(alloc: Global, pairs: &Pairs, of_value: GiveErr) -> GiveErr
    ensures { (give : Value → ℕ → Walk Data) (nodes : ℕ) → TellsEnd (spec.members_given give no_members pairs.now nodes) of_value → TellsEnd (spec.map_given give pairs.now nodes) result }
{
    match are_names(alloc, pairs) {
        Ok(true) => of_value,
        Ok(false) => GiveErr::Key,
        Err(_) => GiveErr::NoMemory,
    }
}

/// The members of the object of a map, if each key is a name of its own.
#[cycle(giving)]
fn members_given(
    heap: &Heap,
    levels: u32,
    pairs: &Pairs,
    nodes: &mut u64,
) -> Result<Option<Map<String, Json>>, GiveErr>
    ensures value { IfOk result (λ given. IfSome given (λ members. (spec.are_new_names [] pairs.now ≡ true) × (spec.members_given (λ value. node_at levels heap.now.objects (AValue value)) no_members pairs.now nodes.old ≡ Makes (members_view members.entries) nodes.new))) }
    ensures key { IfOk result (λ given. IfNone given (spec.are_new_names [] pairs.now ≡ false)) }
    ensures error { IfErr result (TellsEnd (spec.members_given (λ value. node_at levels heap.now.objects (AValue value)) no_members pairs.now nodes.old)) }
{
    let mut members = Map::new(heap.alloc());
    for at in 0..pairs.len() {
        let Some((key, value)) = pair_at(pairs, at) else {
            return Ok(Some(members));
        };
        let json = value_at(heap, levels, value, nodes)?;
        if !put(&mut members, key, json)? {
            return Ok(None);
        }
    }
    Ok(Some(members))
}
