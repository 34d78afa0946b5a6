//! Objects that several heaps have in front in common.

use super::making::{Shape, counted, number, place, taken};
use object_heap::{Front, Heap, HeapErr};
use object_values::{Guard, Object, Pairs, Seed, Value};
use pl_types::classes::{ARRAY_LIST, HASH_MAP};
use std::alloc::{AllocError, Global};
use std::test::Fail;

// A frozen list of 1, 2 and 3, and a frozen map of 7 to 8.
fn front(alloc: Global) -> Result<Option<Front>, AllocError> {
    let seed = Seed::of(b"job");
    let mut heap = Heap::new(alloc, 0, seed);
    heap.place(Object::List {
        class: ARRAY_LIST,
        items: counted(alloc, 1, 3)?,
        guard: Guard::Frozen,
        changes: 0,
    })?;
    let mut pairs = Pairs::new(alloc, seed);
    pairs.put(Value::Int(7), Value::Int(8))?;
    heap.place(Object::Map {
        class: HASH_MAP,
        pairs,
        guard: Guard::Frozen,
        changes: 0,
    })?;
    heap.into_front()
}

// A heap with these objects in front, and behind them a list of 0 and 1.
fn heap_over(front: &Front, alloc: Global) -> Result<Heap, AllocError> {
    let mut heap = Heap::over(front.share()?, alloc, 10, Seed::of(b"line"));
    place(&mut heap, Shape::List(ARRAY_LIST, 2))?;
    Ok(heap)
}

fn digits(parts: &[i32]) -> i32 {
    let mut all = 0i32;
    for part in parts {
        all = all.wrapping_mul(10).wrapping_add(*part);
    }
    all
}

fn count(heap: &Heap, id: u32) -> i32 {
    match i32::try_from(heap.size(id)) {
        Ok(size) => size,
        Err(_) => -1,
    }
}

// The sizes of the three, an item of each list and the value of a key of the map, as digits.
fn shown(heap: &Heap) -> i32 {
    let first = number(heap.items(0).get(0));
    let last = number(heap.items(2).get(1));
    let value = number(heap.map_get(1, &Value::Int(7)));
    digits(&[
        count(heap, 0),
        count(heap, 1),
        count(heap, 2),
        first,
        last,
        value,
    ])
}

// Each change of what is frozen, and what it gives, as digits.
fn change_all(heap: &mut Heap) -> Result<i32, HeapErr> {
    let put = taken(heap.put(0, 0, Value::Int(5)));
    heap.grow(0, 0, Value::Int(5))?;
    let cut = taken(heap.cut(0, 0));
    let before = taken(heap.map_put(1, Value::Int(7), Value::Int(9))?);
    let other = taken(heap.map_put(1, Value::Int(9), Value::Int(9))?);
    let key = taken(heap.map_cut(1, &Value::Int(7)));
    if heap.map_cut_at(1, 0).is_some() {
        return Ok(0);
    }
    Ok(digits(&[put, cut, before, other, key]))
}

#[test]
fn fronts(rt: HostRuntime) -> Result<(), Fail> {
    let alloc = rt.alloc();
    let Some(front) = front(alloc)? else {
        assert!(rt; false);
        return Ok(());
    };
    let mut heap = heap_over(&front, alloc)?;
    let there = shown(&heap);
    assert!(rt; there == 312_118);
    let given = change_all(&mut heap)?;
    assert!(rt; given == -10211);
    heap.grow(2, 2, Value::Int(4))?;
    let there = shown(&heap);
    assert!(rt; there == 313_118);
    let left = heap.room_left();
    assert!(rt; left == 9);
    heap.refill(5);
    let there = shown(&heap);
    assert!(rt; there == 313_118);
    let other = heap_over(&front, alloc)?;
    let there = shown(&other);
    assert!(rt; there == 312_118);
    let count = other.len();
    assert!(rt; count == 3);
    Ok(())
}
