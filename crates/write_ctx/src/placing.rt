//! The map `ctx` of a line in a heap.

ghost use Rattle.std.specs.Prelude.{◌≡◌, false, option_map, unwrap_or, IfErr, IfOk, OnOk};
ghost use Rattle.pl_units.specs.Utf16.{units};
ghost use Rattle.serde_json.specs.Data.{null};
ghost use Rattle.serde_json.specs.Find.{get};
ghost use Rattle.serde_json.specs.View.{view, members_view};
ghost use Rattle.object_values.specs.declared.value.Value.TheVariants as v;
ghost use Rattle.object_values.specs.declared.object.Guard.TheVariants as g;
ghost use Rattle.job_file.specs.Keys.{default_data};
ghost use Rattle.job_file.specs.Mappings.{members_of};
ghost use Rattle.job_file.specs.Values.{has_whole_numbers};
ghost use Rattle.json_bridge.specs.Binding.{bound, bound_members};
ghost use Rattle.json_bridge.specs.declared.error.NumErr.TheVariants as num_err;
ghost use Rattle.write_ctx.specs.Keys.{row_of, value_at};
ghost use Rattle.write_ctx.specs.Placing.{ctx_placed, ingest_members, no_pairs, put_keys, update_at};
ghost use Rattle.write_ctx.specs.declared.keys.WriteKind.TheVariants as kinds;

use crate::checking::value_of;
use crate::keys::{LineKey, UPDATE_KEYS, WriteKind};
use json_bridge::{NumErr, bind};
use object_heap::Heap;
use object_values::{Elements, Guard, Object, Pairs, Value};
use pl_types::classes::HASH_MAP;
use pl_units::UText;
use plain_data::Boxed;
use serde_json::{Map, Value as Json};
use std::alloc::{AllocError, Global};

/// A name as a text of a script.
pub(crate) fn text_value(alloc: Global, name: &str) -> Result<Value, AllocError>
    ensures { IfOk result (λ value. value ≡ v.Str (units name.now)) }
{
    Ok(Value::Str(UText::from_utf8(alloc, name)?))
}

// ---- update

/// Binds what stands for a key that an update lacks.
#[tactic(auto, using(crate::proofs::Whole::default_whole, crate::proofs::Whole::default_is_whole))]
fn bind_default(heap: &mut Heap, key: LineKey) -> Result<Value, NumErr>
    ensures value { IfOk result (λ value. value ≡ (bound false heap.old.objects (default_data (row_of kinds.Update key).default)).value) }
    ensures store { OnOk result (heap.new ≡ record heap.old { objects = (bound false heap.old.objects (default_data (row_of kinds.Update key).default)).objects }) }
    ensures error { IfErr result (λ e. ¬ (e ≡ num_err.Number)) }
{
    let json = key.default_json(heap.alloc(), WriteKind::Update)?;
    bind(heap, &json, false)
}

/// Binds the value of an update at a key, or its default.
#[tactic(auto, using(crate::proofs::Whole::not_found_whole))]
fn bind_at(heap: &mut Heap, line: &Json, key: LineKey) -> Result<Value, NumErr>
    ensures value { IfOk result (λ value. value ≡ (bound false heap.old.objects (value_at kinds.Update (view line.now) key)).value) }
    ensures store { OnOk result (heap.new ≡ record heap.old { objects = (bound false heap.old.objects (value_at kinds.Update (view line.now) key)).objects }) }
    ensures error { IfErr result (λ e. (e ≡ num_err.Number) → (has_whole_numbers (view line.now) ≡ false)) }
{
    match value_of(line, key) {
        Some(json) => bind(heap, json, false),
        None => bind_default(heap, key),
    }
}

/// Binds the values of an update at some keys, each under its name, and the operation behind them.
fn update_pairs(heap: &mut Heap, line: &Json, keys: &[LineKey]) -> Result<Pairs, NumErr>
    ensures pairs { IfOk result (λ pairs. pairs ≡ (bound_members false (no_pairs heap.old.objects) (update_at (view line.now) keys.now)).pairs) }
    ensures store { OnOk result (heap.new ≡ record heap.old { objects = (bound_members false (no_pairs heap.old.objects) (update_at (view line.now) keys.now)).objects }) }
    ensures error { IfErr result (λ e. (e ≡ num_err.Number) → (has_whole_numbers (view line.now) ≡ false)) }
{
    let mut pairs = Pairs::new(heap.alloc(), heap.seed());
    for key in keys {
        let value = bind_at(heap, line, *key)?;
        let name = text_value(heap.alloc(), key.name())?;
        pairs.put(name, value)?;
    }
    let name = text_value(heap.alloc(), "op")?;
    let operation = text_value(heap.alloc(), "index")?;
    pairs.put(name, operation)?;
    Ok(pairs)
}

/// The keys that may be put.
fn put_keys(alloc: Global) -> Result<Elements<UText>, AllocError>
    ensures { IfOk result (λ keys. keys ≡ put_keys) }
{
    let mut keys = Elements::from_vec(Vec::with_capacity(alloc, 2)?);
    keys.push(UText::from_utf8(alloc, "_source")?)?;
    keys.push(UText::from_utf8(alloc, "op")?)?;
    Ok(keys)
}

/// What lets values be put under these keys alone.
fn keys_guard(alloc: Global) -> Result<Guard, AllocError>
    ensures { IfOk result (λ guard. guard ≡ g.Keys put_keys) }
{
    let keys = put_keys(alloc)?;
    Ok(Guard::Keys(Boxed::new(alloc, keys)?))
}

/// Places the map `ctx` of an update.
fn place_update(heap: &mut Heap, line: &Json) -> Result<Value, NumErr>
    ensures value { IfOk result (λ value. value ≡ (ctx_placed kinds.Update heap.old.objects (view line.now)).value) }
    ensures store { OnOk result (heap.new ≡ record heap.old { objects = (ctx_placed kinds.Update heap.old.objects (view line.now)).objects }) }
    ensures error { IfErr result (λ e. (e ≡ num_err.Number) → (has_whole_numbers (view line.now) ≡ false)) }
{
    let pairs = update_pairs(heap, line, &UPDATE_KEYS)?;
    let guard = keys_guard(heap.alloc())?;
    let map = Object::Map {
        class: HASH_MAP,
        pairs,
        guard,
        changes: 0,
    };
    Ok(Value::Ref(heap.place(map)?))
}

// ---- ingest

/// The value of an ingest at a key once more, or its default.
fn value_at(alloc: Global, line: &Json, key: LineKey) -> Result<Json, AllocError>
    ensures { IfOk result (λ json. view json ≡ value_at kinds.Ingest (view line.now) key) }
{
    match value_of(line, key) {
        Some(json) => Ok(json.clone()?),
        None => key.default_json(alloc, WriteKind::Ingest),
    }
}

/// Takes a member out of a line, and lets the others go.
fn member_of(line: Json, name: &str) -> Option<Json>
    ensures { option_map view result ≡ get name.now (view line) }
{
    match line {
        Json::Object(mut members) => members.remove(name),
        _ => None,
    }
}

/// The members of what is an object; what is none has none.
fn members_in(alloc: Global, value: Json) -> Map<String, Json>
    ensures { members_view result.entries ≡ members_of (view value) }
{
    match value {
        Json::Object(members) => members,
        _ => Map::new(alloc),
    }
}

/// The same of what may be there.
fn members_of(alloc: Global, value: Option<Json>) -> Map<String, Json>
    ensures { members_view result.entries ≡ members_of (unwrap_or (option_map view value) null) }
{
    match value {
        Some(value) => members_in(alloc, value),
        None => Map::new(alloc),
    }
}

/// The fields of the source of an ingest with its id and its index.
fn ingest_members(alloc: Global, line: Json) -> Result<Map<String, Json>, AllocError>
    ensures { IfOk result (λ members. members_view members.entries ≡ ingest_members (view line)) }
{
    let id = value_at(alloc, &line, LineKey::Id)?;
    let index = value_at(alloc, &line, LineKey::Index)?;
    let mut members = members_of(alloc, member_of(line, "_source"));
    serde_json::put(&mut members, alloc, "_index", index)?;
    serde_json::put(&mut members, alloc, "_id", id)?;
    Ok(members)
}

/// Places the map `ctx` of an ingest.
fn place_ingest(heap: &mut Heap, line: Json) -> Result<Value, NumErr>
    ensures value { IfOk result (λ value. value ≡ (ctx_placed kinds.Ingest heap.old.objects (view line)).value) }
    ensures store { OnOk result (heap.new ≡ record heap.old { objects = (ctx_placed kinds.Ingest heap.old.objects (view line)).objects }) }
    ensures error { IfErr result (λ e. (e ≡ num_err.Number) → (has_whole_numbers (view line) ≡ false)) }
{
    let members = ingest_members(heap.alloc(), line)?;
    bind(heap, &Json::Object(members), false)
}

/// Places the map `ctx` of a test.
fn place_test(heap: &mut Heap, line: Json) -> Result<Value, NumErr>
    ensures value { IfOk result (λ value. value ≡ (ctx_placed kinds.Test heap.old.objects (view line)).value) }
    ensures store { OnOk result (heap.new ≡ record heap.old { objects = (ctx_placed kinds.Test heap.old.objects (view line)).objects }) }
    ensures error { IfErr result (λ e. (e ≡ num_err.Number) → (has_whole_numbers (view line) ≡ false)) }
{
    let members = ingest_members(heap.alloc(), line)?;
    bind(heap, &Json::Object(members), true)
}

/// Places the map `ctx` of a line. What is placed takes nothing from the room. `Number` where some number is no whole one of 64 bits with a
/// sign.
pub(crate) fn place_ctx(heap: &mut Heap, kind: WriteKind, line: Json) -> Result<Value, NumErr>
    ensures value { IfOk result (λ value. value ≡ (ctx_placed kind heap.old.objects (view line)).value) }
    ensures store { OnOk result (heap.new ≡ record heap.old { objects = (ctx_placed kind heap.old.objects (view line)).objects }) }
    ensures error { IfErr result (λ e. (e ≡ num_err.Number) → (has_whole_numbers (view line) ≡ false)) }
{
    match kind {
        WriteKind::Update => place_update(heap, &line),
        WriteKind::Ingest => place_ingest(heap, line),
        WriteKind::Test => place_test(heap, line),
    }
}
