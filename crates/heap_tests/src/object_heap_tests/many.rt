//! A map with many keys, and a list with many items: what takes too long does not end the test in time.

use super::making::{Shape, add, number, placed, taken};
use object_heap::{Heap, HeapErr};
use object_values::{Seed, Value};
use pl_types::classes::{ARRAY_LIST, HASH_MAP};
use std::test::Fail;

const KEYS: i32 = 400_000;

fn fill(heap: &mut Heap) -> Result<(), HeapErr> {
    add(heap, Shape::Map(HASH_MAP, 0))?;
    for key in 0..KEYS {
        heap.map_put(0, Value::Int(key), Value::Int(key))?;
    }
    Ok(())
}

// Takes the keys 100, 200, .. up to 10,000 out, and says how many were there.
fn thin_out(heap: &mut Heap) -> u32 {
    let mut found = 0u32;
    for step in 1i32..101 {
        let key = step.wrapping_mul(100);
        if taken(heap.map_cut(0, &Value::Int(key))) == key {
            found = found.saturating_add(1);
        }
    }
    found
}

const KEYS_LEFT: [(usize, i32); 5] = [
    (0, 0),
    (99, 99),
    (100, 101),
    (399_899, 399_999),
    (399_900, -1),
];

const VALUES_LEFT: [(i32, i32); 5] = [
    (99, 99),
    (100, -1),
    (10_000, -1),
    (10_100, 10_100),
    (399_999, 399_999),
];

#[test]
fn many_keys(rt: HostRuntime) -> Result<(), Fail> {
    let mut heap = Heap::new(rt.alloc(), 1_000_000, Seed::of(b"test"));
    fill(&mut heap)?;
    let size = heap.size(0);
    assert!(rt; size == 400_000);
    let left = heap.room_left();
    assert!(rt; left == 199_999);
    let found = thin_out(&mut heap);
    assert!(rt; found == 100);
    let size = heap.size(0);
    assert!(rt; size == 399_900);
    let left = heap.room_left();
    assert!(rt; left == 199_999);
    let changes = heap.changes(0);
    assert!(rt; changes == 400_100);
    for (at, key) in &KEYS_LEFT {
        let there = number(heap.key_at(0, *at));
        assert!(rt; there == *key);
    }
    for (key, value) in &VALUES_LEFT {
        let there = number(heap.map_get(0, &Value::Int(*key)));
        assert!(rt; there == *value);
    }
    Ok(())
}

// Takes the first item out of a list of the ints from 0 so often, and puts it at the end where it is odd. It says how many were the
// next int, from 0 on.
fn turn_round(heap: &mut Heap, times: i32) -> Result<i32, HeapErr> {
    let mut found = 0i32;
    for turn in 0..times {
        let first = taken(heap.cut(0, 0));
        if first == turn {
            found = found.saturating_add(1);
        }
        if first % 2 == 1 {
            let end = heap.size(0);
            heap.grow(0, end, Value::Int(first))?;
        }
    }
    Ok(found)
}

#[test]
fn many_items(rt: HostRuntime) -> Result<(), Fail> {
    let mut heap = placed(rt.alloc(), 1_000_000, &[Shape::List(ARRAY_LIST, KEYS)])?;
    let found = turn_round(&mut heap, KEYS)?;
    assert!(rt; found == 400_000);
    let size = heap.size(0);
    assert!(rt; size == 200_000);
    let first = number(heap.items(0).first());
    assert!(rt; first == 1);
    let last = number(heap.items(0).last());
    assert!(rt; last == 399_999);
    Ok(())
}
