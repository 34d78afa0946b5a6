//! Lists and arrays, step by step.

use super::making::{Shape, counted, number, placed, taken};
use object_heap::{Heap, HeapErr};
use object_values::Value;
use pl_types::classes::ARRAY_LIST;
use std::test::Fail;

#[derive(Clone, Copy)]
enum Step {
    Put,
    Grow,
    Cut,
}

const OBJECTS: [Shape; 2] = [Shape::List(ARRAY_LIST, 3), Shape::Ints(2)];

// Object 0 is a list of 0, 1, 2, object 1 an array of 0, 1, and there is no object 2. A growth answers no value.
const ROWS: [(u32, Step, usize, i32, i32, usize, u64, u64); 15] = [
    (0, Step::Put, 1, 9, 1, 3, 10, 0),
    (0, Step::Put, 3, 9, -1, 3, 10, 0),
    (0, Step::Grow, 3, 5, -1, 4, 9, 1),
    (0, Step::Grow, 0, 6, -1, 5, 8, 2),
    (0, Step::Grow, 6, 7, -1, 5, 8, 2),
    (0, Step::Cut, 0, 0, 6, 4, 8, 3),
    (0, Step::Cut, 3, 0, 5, 3, 8, 4),
    (0, Step::Cut, 3, 0, -1, 3, 8, 4),
    (1, Step::Put, 0, 4, 0, 2, 8, 0),
    (1, Step::Put, 2, 4, -1, 2, 8, 0),
    (1, Step::Grow, 0, 4, -1, 2, 8, 0),
    (1, Step::Cut, 0, 0, -1, 2, 8, 0),
    (2, Step::Put, 0, 1, -1, 0, 8, 0),
    (2, Step::Grow, 0, 1, -1, 0, 8, 0),
    (2, Step::Cut, 0, 0, -1, 0, 8, 0),
];

fn taken_step(heap: &mut Heap, id: u32, step: Step, at: usize, value: i32) -> Result<i32, HeapErr> {
    match step {
        Step::Put => Ok(taken(heap.put(id, at, Value::Int(value)))),
        Step::Grow => {
            heap.grow(id, at, Value::Int(value))?;
            Ok(-1)
        }
        Step::Cut => Ok(taken(heap.cut(id, at))),
    }
}

// What the list and the array hold at the end.
const LEFT: [(u32, usize, i32); 6] = [
    (0, 0, 0),
    (0, 1, 9),
    (0, 2, 2),
    (0, 3, -1),
    (1, 0, 4),
    (1, 1, 1),
];

#[test]
fn lists_and_arrays(rt: HostRuntime) -> Result<(), Fail> {
    let mut heap = placed(rt.alloc(), 10, &OBJECTS)?;
    for (id, step, at, value, before, size, room, changes) in &ROWS {
        let found = taken_step(&mut heap, *id, *step, *at, *value)?;
        assert!(rt; found == *before);
        let found = heap.size(*id);
        assert!(rt; found == *size);
        let left = heap.room_left();
        assert!(rt; left == *room);
        let count = heap.changes(*id);
        assert!(rt; count == *changes);
    }
    for (id, at, value) in &LEFT {
        let found = number(heap.items(*id).get(*at));
        assert!(rt; found == *value);
    }
    Ok(())
}

// The object, the place, the first item and how many come; then whether there is room, and the size, the room and the change
// count behind that.
const MANY: [(u32, usize, i32, i32, bool, usize, u64, u64); 9] = [
    (0, 3, 10, 2, true, 5, 8, 2),
    (0, 0, 20, 1, true, 6, 7, 3),
    (0, 2, 30, 3, true, 9, 4, 6),
    (0, 10, 40, 1, true, 9, 4, 6),
    (0, 9, 40, 0, true, 9, 4, 6),
    (0, 9, 40, 5, false, 9, 4, 6),
    (0, 9, 50, 4, true, 13, 0, 10),
    (1, 0, 40, 1, true, 2, 0, 0),
    (2, 0, 40, 1, true, 0, 0, 0),
];

const ALL_LEFT: [i32; 13] = [20, 0, 30, 31, 32, 1, 2, 10, 11, 50, 51, 52, 53];

fn extended(heap: &mut Heap, id: u32, at: usize, first: i32, count: i32) -> Result<bool, HeapErr> {
    let Ok(more) = counted(heap.alloc(), first, count) else {
        return Err(HeapErr::NoMemory);
    };
    match heap.extend(id, at, more) {
        Ok(()) => Ok(true),
        Err(HeapErr::Room) => Ok(false),
        Err(HeapErr::NoMemory) => Err(HeapErr::NoMemory),
    }
}

#[test]
fn many_items_at_once(rt: HostRuntime) -> Result<(), Fail> {
    let mut heap = placed(rt.alloc(), 10, &OBJECTS)?;
    for (id, at, first, count, room, size, left, changes) in &MANY {
        let found = extended(&mut heap, *id, *at, *first, *count)?;
        assert!(rt; found == *room);
        let found = heap.size(*id);
        assert!(rt; found == *size);
        let found = heap.room_left();
        assert!(rt; found == *left);
        let found = heap.changes(*id);
        assert!(rt; found == *changes);
    }
    for (at, value) in ALL_LEFT.iter().enumerate() {
        let found = number(heap.items(0).get(at));
        assert!(rt; found == *value);
    }
    Ok(())
}

// A place of a list of the ints from 0 to 99, and how many items are taken out there one after the other; then the last of them, the
// first and the last item of those that are left, and how many these are.
const TAKEN: [(usize, usize, i32, i32, i32, usize); 8] = [
    (0, 10, 9, 10, 99, 90),
    (3, 1, 13, 10, 99, 89),
    (80, 2, 92, 10, 99, 87),
    (0, 35, 45, 46, 99, 52),
    (1, 10, 56, 46, 99, 42),
    (20, 1, 76, 46, 99, 41),
    (0, 41, 99, -1, -1, 0),
    (0, 1, -1, -1, -1, 0),
];

#[test]
fn items_that_go(rt: HostRuntime) -> Result<(), Fail> {
    let mut heap = placed(rt.alloc(), 0, &[Shape::List(ARRAY_LIST, 100)])?;
    for (at, times, before, first, last, size) in &TAKEN {
        let mut found = -1;
        for _ in 0..*times {
            found = taken(heap.cut(0, *at));
        }
        assert!(rt; found == *before);
        let found = number(heap.items(0).first());
        assert!(rt; found == *first);
        let found = number(heap.items(0).last());
        assert!(rt; found == *last);
        let found = heap.size(0);
        assert!(rt; found == *size);
    }
    Ok(())
}

// A place of a list of the ints from 0 to 39, of which the first 35 have gone, and what is inserted there; then the four items in
// front.
const CAME: [(usize, i32, [i32; 4]); 4] = [
    (0, 50, [50, 35, 36, 37]),
    (1, 51, [50, 51, 35, 36]),
    (7, 52, [50, 51, 35, 36]),
    (2, 53, [50, 51, 53, 35]),
];

#[test]
fn items_that_come_behind_those_that_went(rt: HostRuntime) -> Result<(), Fail> {
    let mut heap = placed(rt.alloc(), 10, &[Shape::List(ARRAY_LIST, 40)])?;
    for _ in 0..35 {
        taken(heap.cut(0, 0));
    }
    for (at, value, front) in &CAME {
        heap.grow(0, *at, Value::Int(*value))?;
        for (at, value) in front.iter().enumerate() {
            let found = number(heap.items(0).get(at));
            assert!(rt; found == *value);
        }
    }
    let before = taken(heap.put(0, 8, Value::Int(54)));
    assert!(rt; before == 52);
    let last = number(heap.items(0).last());
    assert!(rt; last == 54);
    Ok(())
}
