//! What each kind of object weighs, and room at its exact edge.

use super::making::{Shape, add, counted, object, place, placed, renew};
use object_heap::{Answer, Heap, HeapErr, throw};
use object_values::{Elements, Seed, Value};
use pl_types::classes::{ARITHMETIC_EXCEPTION, ARRAY_LIST, HASH_MAP, HASH_SET};
use pl_units::UText;
use std::alloc::AllocError;
use std::test::Fail;

const WEIGHTS: [(Shape, u64); 15] = [
    (Shape::List(ARRAY_LIST, 0), 1),
    (Shape::List(ARRAY_LIST, 3), 4),
    (Shape::Map(HASH_MAP, 0), 1),
    (Shape::Map(HASH_MAP, 3), 7),
    (Shape::Set(HASH_SET, 0), 1),
    (Shape::Set(HASH_SET, 3), 4),
    (Shape::Defs(2), 3),
    (Shape::View, 1),
    (Shape::Entry, 3),
    (Shape::Iterator, 1),
    (Shape::Builder(0), 1),
    (Shape::Builder(5), 6),
    (Shape::Function(None, 2), 3),
    (Shape::Exception(ARITHMETIC_EXCEPTION, None), 1),
    (
        Shape::Exception(ARITHMETIC_EXCEPTION, Some("a\u{1F600}b")),
        5,
    ),
];

// The number of the object that was added, or -1 where there is no room for it.
fn number_of(answer: Result<u32, HeapErr>) -> i64 {
    match answer {
        Ok(id) => i64::from(id),
        Err(HeapErr::Room) => -1,
        Err(_) => -2,
    }
}

#[test]
fn weights(rt: HostRuntime) -> Result<(), Fail> {
    for (shape, weight) in &WEIGHTS {
        assert!(rt; *weight > 0);
        let mut heap = Heap::new(rt.alloc(), *weight - 1, Seed::of(b"test"));
        let id = number_of(add(&mut heap, *shape));
        assert!(rt; id == -1);
        let left = heap.room_left();
        assert!(rt; left == *weight - 1);
        let count = heap.len();
        assert!(rt; count == 0);
        heap.refill(*weight);
        let id = number_of(add(&mut heap, *shape));
        assert!(rt; id == 0);
        let left = heap.room_left();
        assert!(rt; left == 0);
        let count = heap.len();
        assert!(rt; count == 1);
        let id = place(&mut heap, *shape)?;
        assert!(rt; id == 1);
    }
    Ok(())
}

#[derive(Clone, Copy)]
enum Paid {
    Charge(u64),
    Grow,
    Extend(i32),
    AddAll,
    PutNew(i32),
    Renew(i32),
    Append,
}

// A list of two and an exception without a message, which weigh 4.
fn add_two(heap: &mut Heap) -> Result<bool, AllocError> {
    let mut more = Elements::new(heap.alloc());
    more.push(object(heap.alloc(), Shape::List(ARRAY_LIST, 2))?)?;
    more.push(object(heap.alloc(), Shape::Exception(ARITHMETIC_EXCEPTION, None))?)?;
    Ok(is_ok(heap.add_all(more)))
}

fn pay(heap: &mut Heap, paid: Paid) -> Result<bool, AllocError> {
    match paid {
        Paid::Charge(units) => Ok(is_ok(heap.charge(units))),
        Paid::Grow => Ok(is_ok(heap.grow(0, 0, Value::Int(4)))),
        Paid::Extend(count) => {
            let more = counted(heap.alloc(), 0, count)?;
            Ok(is_ok(heap.extend(0, 1, more)))
        }
        Paid::AddAll => add_two(heap),
        Paid::PutNew(key) => match heap.map_put(1, Value::Int(key), Value::Null) {
            Ok(_) => Ok(true),
            Err(_) => Ok(false),
        },
        Paid::Append => Ok(
            is_ok(heap.append(2, &[97, 98, 99])) && is_ok(heap.append(0, &[97, 98, 99])),
        ),
        Paid::Renew(count) => renew(heap, 0, Shape::List(ARRAY_LIST, count)),
    }
}

fn is_ok(answer: Result<(), HeapErr>) -> bool {
    match answer {
        Ok(()) => true,
        Err(_) => false,
    }
}

const OBJECTS: [Shape; 3] = [
    Shape::List(ARRAY_LIST, 2),
    Shape::Map(HASH_MAP, 2),
    Shape::Builder(1),
];

// Object 0 is a list of two, object 1 a map of the keys 0 and 1, object 2 a builder. Each row starts with so much room.
const EDGES: [(Paid, u64, bool, u64, usize, usize); 21] = [
    (Paid::Charge(0), 0, true, 0, 2, 2),
    (Paid::Charge(3), 3, true, 0, 2, 2),
    (Paid::Charge(4), 3, false, 3, 2, 2),
    (Paid::Grow, 0, false, 0, 2, 2),
    (Paid::Grow, 1, true, 0, 3, 2),
    (Paid::Extend(3), 2, false, 2, 2, 2),
    (Paid::Extend(3), 3, true, 0, 5, 2),
    (Paid::Extend(0), 0, true, 0, 2, 2),
    (Paid::AddAll, 3, false, 3, 2, 2),
    (Paid::AddAll, 4, true, 0, 2, 2),
    (Paid::PutNew(1), 0, true, 0, 2, 2),
    (Paid::PutNew(2), 0, false, 0, 2, 2),
    (Paid::PutNew(2), 1, false, 1, 2, 2),
    (Paid::PutNew(2), 2, true, 0, 2, 3),
    (Paid::Renew(5), 2, false, 2, 2, 2),
    (Paid::Renew(5), 3, true, 0, 5, 2),
    (Paid::Renew(2), 0, true, 0, 2, 2),
    (Paid::Renew(0), 0, true, 0, 0, 2),
    (Paid::Renew(0), 7, true, 7, 0, 2),
    (Paid::Append, 3, true, 0, 2, 2),
    (Paid::Append, 2, false, 2, 2, 2),
];

#[test]
fn edges(rt: HostRuntime) -> Result<(), Fail> {
    for (paid, room, goes, left, listed, mapped) in &EDGES {
        let mut heap = placed(rt.alloc(), *room, &OBJECTS)?;
        let went = pay(&mut heap, *paid)?;
        assert!(rt; went == *goes);
        let after = heap.room_left();
        assert!(rt; after == *left);
        let size = heap.size(0);
        assert!(rt; size == *listed);
        let size = heap.size(1);
        assert!(rt; size == *mapped);
    }
    Ok(())
}

fn thrown(answer: Answer) -> i64 {
    match answer {
        Answer::Thrown(id) => i64::from(id),
        Answer::Room => -1,
        _ => -2,
    }
}

#[test]
fn throws(rt: HostRuntime) -> Result<(), Fail> {
    let message = UText::from_utf8(rt.alloc(), "/ by zero")?;
    let mut heap = Heap::new(rt.alloc(), 10, Seed::of(b"test"));
    let id = thrown(throw(&mut heap, ARITHMETIC_EXCEPTION, Some(message)));
    assert!(rt; id == 0);
    let left = heap.room_left();
    assert!(rt; left == 0);
    let class = heap.class(0);
    assert!(rt; class == Some(ARITHMETIC_EXCEPTION));
    let units = match heap.message(0) {
        Some(message) => message.len(),
        None => 0,
    };
    assert!(rt; units == 9);
    let id = thrown(throw(&mut heap, ARITHMETIC_EXCEPTION, None));
    assert!(rt; id == -1);
    let count = heap.len();
    assert!(rt; count == 1);
    Ok(())
}
