//! Iterators, step by step.
use super::making::sample;
use container_parts::{has_next, iterate, next, remove};
use object_heap::{Answer, Heap};
use object_values::Value;
use std::test::Fail;

#[derive(Clone, Copy)]
enum Step {
    Iterate,
    HasNext,
    Next,
    Remove,
    /// 40 is added at the end.
    Grow,
    /// The first item is taken out.
    Cut,
}

/// A step on an object, what it comes to, the room after it, and how many elements an object has then.
///
/// An int is itself, null is -1, a reference 1000 and its number, an exception its class with a minus, no room -100, no memory -101.
type Row = (Step, u32, i32, u64, u32, usize);

const ALL: [Row; 38] = [
    (Step::Iterate, 0, 1008, 99, 0, 3),
    (Step::HasNext, 8, 1, 99, 0, 3),
    (Step::Next, 8, 10, 99, 0, 3),
    (Step::Remove, 8, -1, 99, 0, 2),
    (Step::Remove, 8, -45, 88, 0, 2),
    (Step::Next, 8, 20, 88, 0, 2),
    (Step::Next, 8, 30, 88, 0, 2),
    (Step::HasNext, 8, 0, 88, 0, 2),
    (Step::Next, 8, -48, 87, 0, 2),
    (Step::Remove, 8, -1, 87, 0, 1),
    (Step::HasNext, 8, 0, 87, 0, 1),
    (Step::Grow, 0, 0, 86, 0, 2),
    (Step::HasNext, 8, 1, 86, 0, 2),
    (Step::Next, 8, -43, 85, 0, 2),
    (Step::Cut, 0, 20, 85, 0, 1),
    (Step::Next, 8, -48, 84, 0, 1),
    (Step::Cut, 0, 40, 84, 0, 0),
    (Step::HasNext, 8, 1, 84, 0, 0),
    (Step::Next, 8, -43, 83, 0, 0),
    (Step::Iterate, 1, 1014, 82, 1, 1),
    (Step::Remove, 14, -50, 81, 1, 1),
    (Step::Next, 14, 10, 81, 1, 1),
    (Step::Remove, 14, -50, 80, 1, 1),
    (Step::Iterate, 2, 1017, 79, 2, 1),
    (Step::Next, 17, 5, 79, 2, 1),
    (Step::Remove, 17, -50, 78, 2, 1),
    (Step::Iterate, 3, 1019, 77, 3, 2),
    (Step::Next, 19, 1, 77, 3, 2),
    (Step::Remove, 19, -1, 77, 3, 1),
    (Step::Next, 19, 2, 77, 3, 1),
    (Step::HasNext, 19, 0, 77, 3, 1),
    (Step::Iterate, 7, 1020, 76, 4, 2),
    (Step::Next, 20, 1021, 73, 4, 2),
    (Step::Remove, 20, -1, 73, 4, 1),
    (Step::Next, 20, 1022, 70, 4, 1),
    (Step::Iterate, 6, 1023, 69, 4, 1),
    (Step::Next, 23, 8, 69, 4, 1),
    (Step::Next, 0, -49, 68, 0, 0),
];

/// With room for one entry and nothing else, and without it.
const EDGE: [Row; 5] = [
    (Step::Iterate, 7, 1008, 3, 4, 2),
    (Step::Next, 8, 1009, 0, 4, 2),
    (Step::Remove, 8, -1, 0, 4, 1),
    (Step::Remove, 8, -100, 0, 4, 1),
    (Step::Next, 8, -100, 0, 4, 1),
];

const BELOW: [Row; 4] = [
    (Step::Iterate, 7, 1008, 2, 4, 2),
    (Step::Next, 8, -100, 2, 4, 2),
    (Step::Iterate, 4, -49, 1, 4, 2),
    (Step::HasNext, 0, 0, 1, 0, 3),
];

fn number(value: &Value) -> i32 {
    match value {
        Value::Int(number) => *number,
        Value::Null => -1,
        Value::Ref(id) => i32::try_from(*id).unwrap_or(0).wrapping_add(1000),
        _ => -2,
    }
}

fn thrown(heap: &Heap, id: u32) -> i32 {
    match heap.class(id) {
        Some(class) => 0i32.wrapping_sub(i32::try_from(class).unwrap_or(0)),
        None => -3,
    }
}

fn told(heap: &Heap, answer: &Answer) -> i32 {
    match answer {
        Answer::Value(value) => number(value),
        Answer::Thrown(id) => thrown(heap, *id),
        Answer::Room => -100,
        Answer::NoMemory => -101,
    }
}

fn cut(heap: &mut Heap, id: u32) -> i32 {
    match heap.cut(id, 0) {
        Some(item) => number(&item),
        None => -4,
    }
}

fn grown(heap: &mut Heap, id: u32) -> i32 {
    let at = heap.size(id);
    match heap.grow(id, at, Value::Int(40)) {
        Ok(()) => 0,
        Err(_) => -5,
    }
}

fn taken(heap: &mut Heap, step: Step, id: u32) -> i32 {
    match step {
        Step::Iterate => {
            let answer = iterate(heap, id);
            told(heap, &answer)
        }
        Step::HasNext => i32::from(has_next(heap, id)),
        Step::Next => {
            let answer = next(heap, id);
            told(heap, &answer)
        }
        Step::Remove => {
            let answer = remove(heap, id);
            told(heap, &answer)
        }
        Step::Grow => grown(heap, id),
        Step::Cut => cut(heap, id),
    }
}

// The place of the first row that comes to something else, or how many there are.
fn first_wrong(heap: &mut Heap, rows: &[Row]) -> usize {
    for (at, row) in rows.iter().enumerate() {
        let (step, id, wanted, room, held, size) = row;
        let found = taken(heap, *step, *id);
        if found != *wanted || heap.room_left() != *room || heap.size(*held) != *size {
            return at;
        }
    }
    rows.len()
}

#[test]
fn iterators_step_by_step(rt: HostRuntime) -> Result<(), Fail> {
    let mut heap = sample(rt.alloc(), 100)?;
    let wrong = first_wrong(&mut heap, &ALL);
    assert!(rt; wrong == 38);
    Ok(())
}

#[test]
fn room_at_the_edge(rt: HostRuntime) -> Result<(), Fail> {
    let mut heap = sample(rt.alloc(), 4)?;
    let wrong = first_wrong(&mut heap, &EDGE);
    assert!(rt; wrong == 5);
    let mut heap = sample(rt.alloc(), 3)?;
    let wrong = first_wrong(&mut heap, &BELOW);
    assert!(rt; wrong == 4);
    Ok(())
}
