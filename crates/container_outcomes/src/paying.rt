//! How what members come to is paid, and what it changes.
ghost use Rattle.std.specs.Prelude.{◌≡◌, ◌+◌, ◌++◌, IfSome, is_some, length, not, true};
ghost use Rattle.object_heap.specs.Effects.{Answers, Gives, after_paying, gives_paid};
ghost use Rattle.object_heap.specs.Objects.{with_all_inserted, with_all_put, with_inserted, with_item, with_key_cut, with_pair_cut, with_put, with_removed};
ghost use Rattle.object_heap.specs.Store.{paid, with_change};
ghost use Rattle.object_values.specs.declared.value.Value.TheVariants as v;
ghost use Rattle.value_walks.specs.Equality.{value_now, value_or};
ghost use Rattle.container_outcomes.specs.Outcomes.{changed_freely, gives_grown, gives_made, gives_new, gives_renewed, has_key, is_collection, item_out, key_out, list_item_out, IsGiven, MakesNothing};

use object_heap::{Answer, Heap, HeapErr};
use object_values::{Elements, Object, Pairs, Value};

/// Adds an object, which costs its weight.
pub fn add_object(heap: &mut Heap, object: Object) -> Answer
    ensures { Answers (gives_new heap.old object) heap.old heap.new result }
{
    match heap.add(object) {
        Ok(id) => Answer::Value(Value::Ref(id)),
        Err(HeapErr::Room) => Answer::Room,
        Err(HeapErr::NoMemory) => Answer::NoMemory,
    }
}

// The number that an object has which comes behind so many others, if there is one.
fn number_behind(heap: &Heap, count: usize) -> Option<u32>
    ensures { IfSome result (λ id. id ≡ length heap.now.objects + count) }
{
    let at = heap.len().checked_add(count)?;
    match u32::try_from(at) {
        Ok(id) => Some(id),
        Err(_) => None,
    }
}

// Adds objects, of which this is the number of the last.
fn add_all(heap: &mut Heap, all: Elements<Object>, last: u32) -> Answer
    ensures { Answers (after_paying (paid heap.old (heap.old.objects ++ all) 0) (λ paid. Gives (v.Ref last) paid)) heap.old heap.new result }
{
    match heap.add_all(all) {
        Ok(()) => Answer::Value(Value::Ref(last)),
        Err(HeapErr::Room) => Answer::Room,
        Err(HeapErr::NoMemory) => Answer::NoMemory,
    }
}

/// Adds objects and one more behind them, which cost their weights, and gives the last.
pub fn add_made(heap: &mut Heap, before: Elements<Object>, object: Object) -> Answer
    ensures { Answers (gives_made heap.old before object) heap.old heap.new result }
{
    let Some(last) = number_behind(heap, before.len()) else {
        drop(before);
        drop(object);
        return Answer::NoMemory;
    };
    let mut all = before;
    match all.push(object) {
        Ok(()) => add_all(heap, all, last),
        Err(_) => {
            drop(all);
            Answer::NoMemory
        }
    }
}

/// Inserts an item into a list, which costs 1.
pub fn insert(heap: &mut Heap, list: u32, at: usize, item: Value, value: Value) -> Answer
    ensures { Answers (gives_paid heap.old (with_change heap.old.objects list (with_inserted at item)) value) heap.old heap.new result }
{
    match heap.grow(list, at, item) {
        Ok(()) => Answer::Value(value),
        Err(HeapErr::Room) => {
            drop(value);
            Answer::Room
        }
        Err(HeapErr::NoMemory) => {
            drop(value);
            Answer::NoMemory
        }
    }
}

/// Inserts items into a list, which costs 1 for each.
pub fn extend(heap: &mut Heap, list: u32, at: usize, items: Elements<Value>, value: Value) -> Answer
    ensures { Answers (gives_paid heap.old (with_change heap.old.objects list (with_all_inserted at items)) value) heap.old heap.new result }
{
    match heap.extend(list, at, items) {
        Ok(()) => Answer::Value(value),
        Err(HeapErr::Room) => {
            drop(value);
            Answer::Room
        }
        Err(HeapErr::NoMemory) => {
            drop(value);
            Answer::NoMemory
        }
    }
}

/// Sets an item, and gives the one that stood there, or null. It takes no memory.
pub fn set(heap: &mut Heap, list: u32, at: usize, item: Value) -> Answer
    ensures does { Answers (Gives (item_out heap.old.objects list at) (changed_freely heap.old list (with_item at item))) heap.old heap.new result }
    ensures memory { IsGiven result }
{
    match heap.put(list, at, item) {
        Some(before) => Answer::Value(before),
        None => Answer::Value(Value::Null),
    }
}

fn set_one(heap: &mut Heap, list: u32, at: usize, item: Value)
    ensures { heap.new ≡ changed_freely heap.old list (with_item at item) }
{
    match heap.put(list, at, item) {
        Some(before) => drop(before),
        None => {}
    }
}

/// Sets an item and then another, and gives null. It takes no memory.
pub fn set_two(
    heap: &mut Heap,
    list: u32,
    at: usize,
    item: Value,
    other_at: usize,
    other: Value,
) -> Answer
    ensures does { Answers (Gives v.Null (changed_freely (changed_freely heap.old list (with_item at item)) list (with_item other_at other))) heap.old heap.new result }
    ensures memory { IsGiven result }
{
    set_one(heap, list, at, item);
    set_one(heap, list, other_at, other);
    Answer::Value(Value::Null)
}

/// Takes the item at a place out, and gives it, or null. It takes no memory.
pub fn cut(heap: &mut Heap, list: u32, at: usize) -> Answer
    ensures does { Answers (Gives (list_item_out heap.old.objects list at) (changed_freely heap.old list (with_removed at))) heap.old heap.new result }
    ensures memory { IsGiven result }
{
    match heap.cut(list, at) {
        Some(item) => Answer::Value(item),
        None => Answer::Value(Value::Null),
    }
}

/// Takes the item at a place out, and gives true. It takes no memory.
pub fn drop_at(heap: &mut Heap, list: u32, at: usize) -> Answer
    ensures does { Answers (Gives (v.Bool true) (changed_freely heap.old list (with_removed at))) heap.old heap.new result }
    ensures memory { IsGiven result }
{
    match heap.cut(list, at) {
        Some(item) => drop(item),
        None => {}
    }
    Answer::Value(Value::Bool(true))
}

/// Puts a value under a key, and gives what the key had, or null.
pub fn put(heap: &mut Heap, map: u32, key: Value, value: Value) -> Answer
    ensures { Answers (gives_paid heap.old (with_change heap.old.objects map (with_put key value)) (value_now heap.old.objects map key)) heap.old heap.new result }
{
    match heap.map_put(map, key, value) {
        Ok(Some(before)) => Answer::Value(before),
        Ok(None) => Answer::Value(Value::Null),
        Err(HeapErr::Room) => Answer::Room,
        Err(HeapErr::NoMemory) => Answer::NoMemory,
    }
}

/// Puts a key into a set, and gives whether it was not there.
pub fn add_key(heap: &mut Heap, set: u32, key: Value) -> Answer
    ensures { Answers (gives_paid heap.old (with_change heap.old.objects set (with_put key v.Null)) (v.Bool (not (has_key heap.old.objects set key)))) heap.old heap.new result }
{
    match heap.map_put(set, key, Value::Null) {
        Ok(Some(before)) => {
            drop(before);
            Answer::Value(Value::Bool(false))
        }
        Ok(None) => Answer::Value(Value::Bool(true)),
        Err(HeapErr::Room) => Answer::Room,
        Err(HeapErr::NoMemory) => Answer::NoMemory,
    }
}

/// Puts pairs into a map, which costs what it grows by, and gives null.
pub fn put_all(heap: &mut Heap, map: u32, pairs: Pairs) -> Answer
    ensures { Answers (gives_paid heap.old (with_change heap.old.objects map (with_all_put pairs)) v.Null) heap.old heap.new result }
{
    match heap.map_extend(map, pairs) {
        Ok(()) => Answer::Value(Value::Null),
        Err(HeapErr::Room) => Answer::Room,
        Err(HeapErr::NoMemory) => Answer::NoMemory,
    }
}

/// Puts keys into a set, which costs what it grows by, and gives whether it grew.
pub fn add_all_keys(heap: &mut Heap, set: u32, keys: Pairs) -> Answer
    ensures { Answers (gives_grown heap.old set keys) heap.old heap.new result }
{
    let before = heap.size(set);
    match heap.map_extend(set, keys) {
        Ok(()) => Answer::Value(Value::Bool(before < heap.size(set))),
        Err(HeapErr::Room) => Answer::Room,
        Err(HeapErr::NoMemory) => Answer::NoMemory,
    }
}

/// Takes a key out, and gives what it had, or null. It takes no memory.
pub fn cut_key(heap: &mut Heap, map: u32, key: &Value) -> Answer
    ensures does { Answers (Gives (value_or (key_out heap.old.objects map key.now) v.Null) (changed_freely heap.old map (with_key_cut key.now))) heap.old heap.new result }
    ensures memory { IsGiven result }
{
    match heap.map_cut(map, key) {
        Some(before) => Answer::Value(before),
        None => Answer::Value(Value::Null),
    }
}

/// Takes a key out, and gives whether it was there. It takes no memory.
pub fn drop_key(heap: &mut Heap, map: u32, key: &Value) -> Answer
    ensures does { Answers (Gives (v.Bool (is_some (key_out heap.old.objects map key.now))) (changed_freely heap.old map (with_key_cut key.now))) heap.old heap.new result }
    ensures memory { IsGiven result }
{
    match heap.map_cut(map, key) {
        Some(before) => {
            drop(before);
            Answer::Value(Value::Bool(true))
        }
        None => Answer::Value(Value::Bool(false)),
    }
}

/// Takes the pair at a place out, and gives true. It takes no memory.
pub fn cut_pair(heap: &mut Heap, map: u32, at: usize) -> Answer
    ensures does { Answers (Gives (v.Bool true) (changed_freely heap.old map (with_pair_cut at))) heap.old heap.new result }
    ensures memory { IsGiven result }
{
    match heap.map_cut_at(map, at) {
        Some(pair) => drop(pair),
        None => {}
    }
    Answer::Value(Value::Bool(true))
}

fn is_collection(object: &Object) -> bool
    ensures { result ≡ is_collection object.now }
{
    match object {
        Object::List { .. } => true,
        Object::Map { .. } => true,
        Object::Set { .. } => true,
        _ => false,
    }
}

/// A list, a map or a set takes the place of another of its kind and class, which costs what it grows by; and gives null. It takes no
/// memory.
pub fn empty(heap: &mut Heap, id: u32, object: Object) -> Answer
    ensures does { Answers (gives_renewed heap.old id object v.Null) heap.old heap.new result }
    ensures memory { MakesNothing result }
{
    if !is_collection(&object) {
        drop(object);
        return Answer::Value(Value::Null);
    }
    if heap.renew(id, object) {
        Answer::Value(Value::Null)
    } else {
        Answer::Room
    }
}

/// A list, a map or a set takes the place of another of its kind and class, which costs what it grows by.
pub fn renew(heap: &mut Heap, id: u32, object: Object, value: Value) -> Answer
    ensures { Answers (gives_renewed heap.old id object value) heap.old heap.new result }
{
    if !is_collection(&object) {
        drop(object);
        return Answer::Value(value);
    }
    if heap.renew(id, object) {
        Answer::Value(value)
    } else {
        drop(value);
        Answer::Room
    }
}
