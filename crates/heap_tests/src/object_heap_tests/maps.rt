//! Maps and sets, step by step.

use super::making::{Plain, Shape, made, number, placed, taken};
use object_heap::{Heap, HeapErr};
use object_values::Value;
use pl_types::classes::{HASH_MAP, HASH_SET};
use std::alloc::AllocError;
use std::test::Fail;

#[derive(Clone, Copy)]
enum Step {
    Put,
    Get,
    Cut,
    /// The pair at the place that the value says.
    CutAt,
}

const OBJECTS: [Shape; 2] = [Shape::Map(HASH_MAP, 0), Shape::Set(HASH_SET, 0)];

// The map is object 0 and the set object 1; a put of a new key costs 2 in the map and 1 in the set.
const ROWS: [(u32, Step, Plain, i32, i32, usize, u64, u64); 35] = [
    (0, Step::Get, Plain::Null, 0, -1, 0, 100, 0),
    (0, Step::Put, Plain::Null, 10, -1, 1, 98, 1),
    (0, Step::Put, Plain::Bool(true), 11, -1, 2, 96, 2),
    (0, Step::Put, Plain::Byte(1), 12, -1, 3, 94, 3),
    (0, Step::Put, Plain::Short(1), 13, -1, 4, 92, 4),
    (0, Step::Put, Plain::Char(1), 14, -1, 5, 90, 5),
    (0, Step::Put, Plain::Int(1), 15, -1, 6, 88, 6),
    (0, Step::Put, Plain::Long(1), 16, -1, 7, 86, 7),
    (0, Step::Put, Plain::Text("1"), 17, -1, 8, 84, 8),
    (0, Step::Get, Plain::Int(1), 0, 15, 8, 84, 8),
    (0, Step::Get, Plain::Long(1), 0, 16, 8, 84, 8),
    (0, Step::Get, Plain::Text("1"), 0, 17, 8, 84, 8),
    (0, Step::Get, Plain::Text("2"), 0, -1, 8, 84, 8),
    (0, Step::Get, Plain::Bool(false), 0, -1, 8, 84, 8),
    (0, Step::Put, Plain::Int(1), 20, 15, 8, 84, 8),
    (0, Step::Get, Plain::Int(1), 0, 20, 8, 84, 8),
    (0, Step::Cut, Plain::Byte(1), 0, 12, 7, 84, 9),
    (0, Step::Cut, Plain::Byte(1), 0, -1, 7, 84, 9),
    (0, Step::Put, Plain::Byte(1), 21, -1, 8, 82, 10),
    (1, Step::Put, Plain::Text("a"), 5, -1, 1, 81, 1),
    (1, Step::Put, Plain::Text("a"), 5, 0, 1, 81, 1),
    (1, Step::Get, Plain::Text("a"), 0, 0, 1, 81, 1),
    (1, Step::Put, Plain::Int(1), 0, -1, 2, 80, 2),
    (1, Step::Put, Plain::Long(1), 0, -1, 3, 79, 3),
    (1, Step::Cut, Plain::Int(1), 0, 0, 2, 79, 4),
    (1, Step::Get, Plain::Long(1), 0, 0, 2, 79, 4),
    (1, Step::Get, Plain::Int(1), 0, -1, 2, 79, 4),
    (2, Step::Put, Plain::Int(1), 0, -1, 0, 79, 0),
    (2, Step::Get, Plain::Int(1), 0, -1, 0, 79, 0),
    (2, Step::Cut, Plain::Int(1), 0, -1, 0, 79, 0),
    (1, Step::CutAt, Plain::Null, 2, -1, 2, 79, 4),
    (1, Step::CutAt, Plain::Null, 0, 0, 1, 79, 5),
    (1, Step::Get, Plain::Text("a"), 0, -1, 1, 79, 5),
    (0, Step::Get, Plain::Ref(0), 0, -1, 8, 79, 10),
    (0, Step::Get, Plain::Char(1), 0, 14, 8, 79, 10),
];

fn cut_at(heap: &mut Heap, id: u32, at: i32) -> i32 {
    match usize::try_from(at) {
        Ok(at) => match heap.map_cut_at(id, at) {
            Some((_, value)) => taken(Some(value)),
            None => -1,
        },
        Err(_) => -1,
    }
}

fn put(heap: &mut Heap, id: u32, key: Plain, value: i32) -> Result<i32, HeapErr> {
    match made(heap.alloc(), key) {
        Ok(key) => Ok(taken(heap.map_put(id, key, Value::Int(value))?)),
        Err(_) => Err(HeapErr::NoMemory),
    }
}

fn looked_up(heap: &mut Heap, id: u32, step: Step, key: &Value, at: i32) -> i32 {
    match step {
        Step::Cut => taken(heap.map_cut(id, key)),
        Step::CutAt => cut_at(heap, id, at),
        _ => number(heap.map_get(id, key)),
    }
}

fn taken_step(
    heap: &mut Heap,
    id: u32,
    step: Step,
    key: Plain,
    value: i32,
) -> Result<i32, HeapErr> {
    if let Step::Put = step {
        return put(heap, id, key, value);
    }
    match made(heap.alloc(), key) {
        Ok(key) => Ok(looked_up(heap, id, step, &key, value)),
        Err(_) => Err(HeapErr::NoMemory),
    }
}

// The keys of the map in their order: those that were there kept their places, and the one that was put anew came last.
const ORDER: [(usize, Plain, i32); 9] = [
    (0, Plain::Null, 10),
    (1, Plain::Bool(true), 11),
    (2, Plain::Short(1), 13),
    (3, Plain::Char(1), 14),
    (4, Plain::Int(1), 20),
    (5, Plain::Long(1), 16),
    (6, Plain::Text("1"), 17),
    (7, Plain::Byte(1), 21),
    (8, Plain::Null, -1),
];

fn is_key(found: Option<&Value>, key: &Value) -> bool {
    match found {
        Some(found) => *found == *key,
        None => false,
    }
}

fn is_key_at(heap: &Heap, at: usize, key: Plain) -> Result<bool, AllocError> {
    let key = made(heap.alloc(), key)?;
    Ok(is_key(heap.key_at(0, at), &key))
}

#[test]
fn maps_and_sets(rt: HostRuntime) -> Result<(), Fail> {
    let mut heap = placed(rt.alloc(), 100, &OBJECTS)?;
    for (id, step, key, value, before, size, room, changes) in &ROWS {
        let found = taken_step(&mut heap, *id, *step, *key, *value)?;
        assert!(rt; found == *before);
        let found = heap.size(*id);
        assert!(rt; found == *size);
        let left = heap.room_left();
        assert!(rt; left == *room);
        let count = heap.changes(*id);
        assert!(rt; count == *changes);
    }
    for (at, key, value) in &ORDER {
        let there = is_key_at(&heap, *at, *key)?;
        assert!(rt; there == (*at < 8));
        let found = number(heap.value_at(0, *at));
        assert!(rt; found == *value);
    }
    Ok(())
}
