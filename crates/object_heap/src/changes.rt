//! Changes of one object. What a change does not apply to stays as it is.
ghost use Rattle.std.specs.Prelude.{◌≡◌, ◌-◌, [], ◌∷◌, ◌++◌, length, IfOk, OnOk, OnErr, slice_get, remove};
ghost use Rattle.object_values.specs.Pairs.{value_of, with_pair, with_pairs, without_key};
ghost use Rattle.object_heap.specs.Objects.{changed_by, with_inserted, with_all_inserted, with_item, with_removed, with_put, with_all_put, with_key_cut, with_pair_cut, with_units, with_spliced, spliced, put_counted, cut_counted, pair_counted};
ghost use Rattle.object_heap.specs.Parts.{object_items, list_items, object_pairs, items_of, list_items_of, pairs_of};
ghost use Rattle.object_heap.specs.Store.{changed_one};

use object_values::{Elements, Object, Pairs, Value};
use std::alloc::AllocError;

/// Adds an object behind the others.
pub fn push_object(objects: &mut Vec<Object>, object: Object) -> Result<(), AllocError>
    ensures ok { OnOk result (objects.new.items ≡ objects.old.items ++ object ∷ []) }
    ensures err { OnErr result (objects.new.items ≡ objects.old.items) }
{
    match objects.push(object) {
        Ok(()) => Ok(()),
        Err(refused) => {
            drop(refused);
            Err(AllocError)
        }
    }
}

/// Adds objects behind the others.
pub fn append_objects(objects: &mut Vec<Object>, more: Elements<Object>) -> Result<(), AllocError>
    ensures ok { OnOk result (objects.new.items ≡ objects.old.items ++ more) }
    ensures err { OnErr result (objects.new.items ≡ objects.old.items) }
{
    let mut more = more.into_vec();
    match objects.append(&mut more) {
        Ok(()) => Ok(()),
        Err(_) => Err(AllocError),
    }
}

/// Inserts an item into a list.
pub fn insert_item(
    objects: &mut Vec<Object>,
    id: usize,
    at: usize,
    value: Value,
) -> Result<(), AllocError>
    ensures ok { OnOk result (objects.new.items ≡ changed_one objects.old.items id (with_inserted at value)) }
    ensures err { OnErr result (objects.new.items ≡ objects.old.items) }
{
    match objects.get_mut(id) {
        Some(object) => insert_into(object, at, value),
        None => {
            drop(value);
            Ok(())
        }
    }
}

fn insert_into(object: &mut Object, at: usize, value: Value) -> Result<(), AllocError>
    ensures ok { OnOk result (object.new ≡ with_inserted at value object.old) }
    ensures err { OnErr result (object.new ≡ object.old) }
{
    match object {
        Object::List { items, changes, .. } => {
            if at <= items.len() {
                items.insert(at, value)?;
                *changes = changes.wrapping_add(1);
            } else {
                drop(value);
            }
            Ok(())
        }
        _ => {
            drop(value);
            Ok(())
        }
    }
}

/// Inserts items into a list, in their order.
pub fn insert_items(
    objects: &mut Vec<Object>,
    id: usize,
    at: usize,
    more: Elements<Value>,
) -> Result<(), AllocError>
    ensures ok { OnOk result (objects.new.items ≡ changed_one objects.old.items id (with_all_inserted at more)) }
    ensures err { OnErr result (objects.new.items ≡ objects.old.items) }
{
    match objects.get_mut(id) {
        Some(object) => insert_all_into(object, at, more),
        None => {
            drop(more);
            Ok(())
        }
    }
}

fn insert_all_into(object: &mut Object, at: usize, more: Elements<Value>) -> Result<(), AllocError>
    ensures ok { OnOk result (object.new ≡ with_all_inserted at more object.old) }
    ensures err { OnErr result (object.new ≡ object.old) }
{
    match object {
        Object::List { items, changes, .. } => {
            if at <= items.len() {
                let count = more.len() as u64;
                items.insert_all(at, more)?;
                *changes = changes.wrapping_add(count);
            } else {
                drop(more);
            }
            Ok(())
        }
        _ => {
            drop(more);
            Ok(())
        }
    }
}

/// Writes an item of a list or an array.
pub fn put_item(objects: &mut Vec<Object>, id: usize, at: usize, value: Value) -> Option<Value>
    ensures before { result ≡ slice_get (items_of objects.old.items id) at }
    ensures written { objects.new.items ≡ changed_one objects.old.items id (with_item at value) }
{
    match objects.get_mut(id) {
        Some(object) => put_into(object, at, value),
        None => {
            drop(value);
            None
        }
    }
}

fn put_into(object: &mut Object, at: usize, value: Value) -> Option<Value>
    ensures before { result ≡ slice_get (object_items object.old) at }
    ensures written { object.new ≡ with_item at value object.old }
{
    match object {
        Object::List { items, .. } => items.put(at, value),
        Object::Array { items, .. } => items.put(at, value),
        _ => {
            drop(value);
            None
        }
    }
}

/// Takes an item out of a list.
pub fn cut_item(objects: &mut Vec<Object>, id: usize, at: usize) -> Option<Value>
    ensures item { result ≡ slice_get (list_items_of objects.old.items id) at }
    ensures rest { objects.new.items ≡ changed_one objects.old.items id (with_removed at) }
{
    match objects.get_mut(id) {
        Some(object) => cut_from(object, at),
        None => None,
    }
}

fn cut_from(object: &mut Object, at: usize) -> Option<Value>
    ensures item { result ≡ slice_get (list_items object.old) at }
    ensures rest { object.new ≡ with_removed at object.old }
{
    match object {
        Object::List { items, changes, .. } if at < items.len() => {
            *changes = changes.wrapping_add(1);
            Some(items.remove(at))
        }
        _ => None,
    }
}

/// Puts a value under a key of a map, or a key into a set.
pub fn put_key(
    objects: &mut Vec<Object>,
    id: usize,
    key: Value,
    value: Value,
) -> Result<Option<Value>, AllocError>
    ensures before { IfOk result (λ before. before ≡ value_of (pairs_of objects.old.items id) key) }
    ensures ok { OnOk result (objects.new.items ≡ changed_one objects.old.items id (with_put key value)) }
    ensures err { OnErr result (objects.new.items ≡ objects.old.items) }
{
    match objects.get_mut(id) {
        Some(object) => put_key_into(object, key, value),
        None => {
            drop(key);
            drop(value);
            Ok(None)
        }
    }
}

fn put_key_into(object: &mut Object, key: Value, value: Value) -> Result<Option<Value>, AllocError>
    ensures before { IfOk result (λ before. before ≡ value_of (object_pairs object.old) key) }
    ensures ok { OnOk result (object.new ≡ with_put key value object.old) }
    ensures err { OnErr result (object.new ≡ object.old) }
{
    match object {
        Object::Map { pairs, changes, .. } => put_pair(pairs, changes, key, value),
        Object::Set { items, changes, .. } => {
            drop(value);
            put_pair(items, changes, key, Value::Null)
        }
        _ => {
            drop(key);
            drop(value);
            Ok(None)
        }
    }
}

// Puts a pair, and counts a new key.
fn put_pair(
    pairs: &mut Pairs,
    changes: &mut u64,
    key: Value,
    value: Value,
) -> Result<Option<Value>, AllocError>
    ensures before { IfOk result (λ before. before ≡ value_of pairs.old key) }
    ensures pairs { OnOk result (pairs.new ≡ with_pair pairs.old key value) }
    ensures counted { OnOk result (changes.new ≡ put_counted (value_of pairs.old key) changes.old) }
    ensures pairs_stay { OnErr result (pairs.new ≡ pairs.old) }
    ensures count_stays { OnErr result (changes.new ≡ changes.old) }
{
    match pairs.put(key, value) {
        Ok(None) => {
            *changes = changes.wrapping_add(1);
            Ok(None)
        }
        Ok(Some(before)) => Ok(Some(before)),
        Err(_) => Err(AllocError),
    }
}

/// Puts pairs into a map or a set, in their order.
pub fn put_pairs(objects: &mut Vec<Object>, id: usize, more: Pairs) -> Result<(), AllocError>
    ensures ok { OnOk result (objects.new.items ≡ changed_one objects.old.items id (with_all_put more)) }
    ensures err { OnErr result (objects.new.items ≡ objects.old.items) }
{
    match objects.get_mut(id) {
        Some(object) => put_all_into(object, more),
        None => {
            drop(more);
            Ok(())
        }
    }
}

fn put_all_into(object: &mut Object, more: Pairs) -> Result<(), AllocError>
    ensures ok { OnOk result (object.new ≡ with_all_put more object.old) }
    ensures err { OnErr result (object.new ≡ object.old) }
{
    match object {
        Object::Map { pairs, changes, .. } => append_counted(pairs, changes, more),
        Object::Set { items, changes, .. } => append_counted(items, changes, more),
        _ => {
            drop(more);
            Ok(())
        }
    }
}

// Puts pairs, and counts the keys that are new.
fn append_counted(pairs: &mut Pairs, changes: &mut u64, more: Pairs) -> Result<(), AllocError>
    ensures pairs { OnOk result (pairs.new ≡ with_pairs pairs.old more) }
    ensures counted { OnOk result (changes.new ≡ changed_by changes.old (length (with_pairs pairs.old more) - length pairs.old)) }
    ensures pairs_stay { OnErr result (pairs.new ≡ pairs.old) }
    ensures count_stays { OnErr result (changes.new ≡ changes.old) }
{
    let before = pairs.len();
    pairs.append(more)?;
    let came = pairs.len().saturating_sub(before) as u64;
    *changes = changes.wrapping_add(came);
    Ok(())
}

/// Takes a key out of a map or a set.
pub fn cut_key(objects: &mut Vec<Object>, id: usize, key: &Value) -> Option<Value>
    ensures before { result ≡ value_of (pairs_of objects.old.items id) key.now }
    ensures rest { objects.new.items ≡ changed_one objects.old.items id (with_key_cut key.now) }
{
    match objects.get_mut(id) {
        Some(object) => cut_key_from(object, key),
        None => None,
    }
}

fn cut_key_from(object: &mut Object, key: &Value) -> Option<Value>
    ensures before { result ≡ value_of (object_pairs object.old) key.now }
    ensures rest { object.new ≡ with_key_cut key.now object.old }
{
    match object {
        Object::Map { pairs, changes, .. } => cut_pair(pairs, changes, key),
        Object::Set { items, changes, .. } => cut_pair(items, changes, key),
        _ => None,
    }
}

/// Takes the pair at a place out of a map or a set.
pub fn cut_pair_at(objects: &mut Vec<Object>, id: usize, at: usize) -> Option<(Value, Value)>
    ensures pair { result ≡ slice_get (pairs_of objects.old.items id) at }
    ensures rest { objects.new.items ≡ changed_one objects.old.items id (with_pair_cut at) }
{
    match objects.get_mut(id) {
        Some(object) => cut_pair_from(object, at),
        None => None,
    }
}

fn cut_pair_from(object: &mut Object, at: usize) -> Option<(Value, Value)>
    ensures pair { result ≡ slice_get (object_pairs object.old) at }
    ensures rest { object.new ≡ with_pair_cut at object.old }
{
    match object {
        Object::Map { pairs, changes, .. } => remove_pair(pairs, changes, at),
        Object::Set { items, changes, .. } => remove_pair(items, changes, at),
        _ => None,
    }
}

// Takes the pair at a place out, and counts that.
fn remove_pair(pairs: &mut Pairs, changes: &mut u64, at: usize) -> Option<(Value, Value)>
    ensures pair { result ≡ slice_get pairs.old at }
    ensures pairs { pairs.new ≡ remove pairs.old at }
    ensures counted { changes.new ≡ pair_counted (slice_get pairs.old at) changes.old }
{
    match pairs.remove(at) {
        Some(pair) => {
            *changes = changes.wrapping_add(1);
            Some(pair)
        }
        None => None,
    }
}

/// Writes units at the end of a builder.
pub fn append_units(objects: &mut Vec<Object>, id: usize, units: &[u16]) -> Result<(), AllocError>
    ensures ok { OnOk result (objects.new.items ≡ changed_one objects.old.items id (with_units units.now)) }
    ensures err { OnErr result (objects.new.items ≡ objects.old.items) }
{
    match objects.get_mut(id) {
        Some(object) => append_to(object, units),
        None => Ok(()),
    }
}

fn append_to(object: &mut Object, more: &[u16]) -> Result<(), AllocError>
    ensures ok { OnOk result (object.new ≡ with_units more.now object.old) }
    ensures err { OnErr result (object.new ≡ object.old) }
{
    match object {
        Object::Builder { units } => units.extend(more),
        _ => Ok(()),
    }
}

/// Puts units in the place of those of a builder from one place up to another.
pub fn splice_units(
    objects: &mut Vec<Object>,
    id: usize,
    from: usize,
    to: usize,
    units: &[u16],
) -> Result<(), AllocError>
    ensures ok { OnOk result (objects.new.items ≡ changed_one objects.old.items id (with_spliced from to units.now)) }
    ensures err { OnErr result (objects.new.items ≡ objects.old.items) }
{
    match objects.get_mut(id) {
        Some(object) => splice_in(object, from, to, units),
        None => Ok(()),
    }
}

fn splice_in(object: &mut Object, from: usize, to: usize, more: &[u16]) -> Result<(), AllocError>
    ensures ok { OnOk result (object.new ≡ with_spliced from to more.now object.old) }
    ensures err { OnErr result (object.new ≡ object.old) }
{
    match object {
        Object::Builder { units } => splice_run(units, from, to, more),
        _ => Ok(()),
    }
}

fn splice_run(
    units: &mut Elements<u16>,
    from: usize,
    to: usize,
    more: &[u16],
) -> Result<(), AllocError>
    ensures ok { OnOk result (units.new ≡ spliced from to more.now units.old) }
    ensures err { OnErr result (units.new ≡ units.old) }
{
    if from <= to && to <= units.len() {
        units.splice(from, to, more)
    } else {
        Ok(())
    }
}

// Takes a pair out, and counts that.
fn cut_pair(pairs: &mut Pairs, changes: &mut u64, key: &Value) -> Option<Value>
    ensures before { result ≡ value_of pairs.old key.now }
    ensures pairs { pairs.new ≡ without_key pairs.old key.now }
    ensures counted { changes.new ≡ cut_counted (value_of pairs.old key.now) changes.old }
{
    match pairs.cut(key) {
        Some(before) => {
            *changes = changes.wrapping_add(1);
            Some(before)
        }
        None => None,
    }
}
