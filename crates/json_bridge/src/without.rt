//! The JSON form of a map without some of its keys.

ghost use Rattle.std.specs.Prelude.{◌≡◌, ℕ, [], Ok, true, false, IfErr, IfNone, IfOk, IfSome};
ghost use Rattle.serde_json.specs.Data.{Data, no_members};
ghost use Rattle.serde_json.specs.View.{view, members_view};
ghost use Rattle.object_values.specs.declared.value.Value.{Value};
ghost use Rattle.json_bridge.specs.Giving as spec;
ghost use Rattle.json_bridge.specs.Giving.{AValue, Makes, TellsEnd, TellsFault, Walk, node_at};
ghost use Rattle.json_bridge.specs.Without.{given_without, is_one_of, without};

use crate::error::GiveErr;
use crate::giving::value_at;
use crate::names::{pair_at, put};
use object_heap::Heap;
use object_values::{Pairs, Value};
use serde_json::{Map, Value as Json};
use std::alloc::{AllocError, Global};

/// How deep the values of a map may stand below it.
const LEVELS: u32 = 99;

/// How many values may be met behind the map.
const NODES: u64 = 999_999;

/// Whether a key is one of these.
fn is_one_of(keys: &[Value], key: &Value) -> bool
    ensures { result ≡ is_one_of keys.now key.now }
{
    for at in 0..keys.len() {
        if *key == keys[at] {
            return true;
        }
    }
    false
}

/// Whether each other key is a text, and no two have one UTF-8 form.
fn are_names(alloc: Global, keys: &[Value], pairs: &Pairs) -> Result<bool, AllocError>
    ensures { IfOk result (λ are. are ≡ spec.are_new_names [] (without keys.now pairs.now)) }
{
    let mut names = Map::new(alloc);
    for at in 0..pairs.len() {
        let Some((key, _)) = pair_at(pairs, at) else {
            return Ok(true);
        };
        if is_one_of(keys, key) {
            continue;
        }
        if !put(&mut names, key, Json::Null)? {
            return Ok(false);
        }
    }
    Ok(true)
}

/// The members of the object of the other pairs, if each of their keys is a name of its own.
fn members_given(
    heap: &Heap,
    keys: &[Value],
    pairs: &Pairs,
    nodes: &mut u64,
) -> Result<Option<Map<String, Json>>, GiveErr>
    ensures value { IfOk result (λ given. IfSome given (λ members. (spec.are_new_names [] (without keys.now pairs.now) ≡ true) × (spec.members_given (λ value. node_at 99 heap.now.objects (AValue value)) no_members (without keys.now pairs.now) nodes.old ≡ Makes (members_view members.entries) nodes.new))) }
    ensures key { IfOk result (λ given. IfNone given (spec.are_new_names [] (without keys.now pairs.now) ≡ false)) }
    ensures error { IfErr result (TellsEnd (spec.members_given (λ value. node_at 99 heap.now.objects (AValue value)) no_members (without keys.now pairs.now) nodes.old)) }
{
    let mut members = Map::new(heap.alloc());
    for at in 0..pairs.len() {
        let Some((key, value)) = pair_at(pairs, at) else {
            return Ok(Some(members));
        };
        if is_one_of(keys, key) {
            continue;
        }
        let json = value_at(heap, LEVELS, value, nodes)?;
        if !put(&mut members, key, json)? {
            return Ok(None);
        }
    }
    Ok(Some(members))
}

/// The first fault of the other pairs, of which a value has one.
fn first_fault(alloc: Global, keys: &[Value], pairs: &Pairs, of_value: GiveErr) -> GiveErr
    ensures { (give : Value → ℕ → Walk Data) (nodes : ℕ) → TellsEnd (spec.members_given give no_members (without keys.now pairs.now) nodes) of_value → TellsEnd (spec.map_given give (without keys.now pairs.now) nodes) result }
{
    match are_names(alloc, keys, pairs) {
        Ok(true) => of_value,
        Ok(false) => GiveErr::Key,
        Err(_) => GiveErr::NoMemory,
    }
}

/// The object of the other pairs. A fault of a key comes before one of a value, though it is met later.
fn map_given(heap: &Heap, keys: &[Value], pairs: &Pairs, nodes: &mut u64) -> Result<Json, GiveErr>
    ensures value { IfOk result (λ json. spec.map_given (λ value. node_at 99 heap.now.objects (AValue value)) (without keys.now pairs.now) nodes.old ≡ Makes (view json) nodes.new) }
    ensures error { IfErr result (TellsEnd (spec.map_given (λ value. node_at 99 heap.now.objects (AValue value)) (without keys.now pairs.now) nodes.old)) }
{
    match members_given(heap, keys, pairs, nodes) {
        Ok(Some(members)) => Ok(Json::Object(members)),
        Ok(None) => Err(GiveErr::Key),
        Err(error) => Err(first_fault(heap.alloc(), keys, pairs, error)),
    }
}

/// The JSON form of a map of these pairs without those of some keys, as `give` has it for a map: the map is at depth 1 and counted, and
/// nothing of what is left out is met.
#[tactic(auto, unfolding(crate::specs::Without::given_without))]
pub fn give_without(heap: &Heap, keys: &[Value], pairs: &Pairs) -> Result<Json, GiveErr>
    ensures value { IfOk result (λ json. given_without keys.now heap.now.objects pairs.now ≡ Ok (view json)) }
    ensures error { IfErr result (TellsFault (given_without keys.now heap.now.objects pairs.now)) }
{
    let mut nodes = NODES;
    map_given(heap, keys, pairs, &mut nodes)
}
