//! What calls of members of containers take, over a map and a list of so many elements.
ghost use Rattle.std.specs.Prelude.{◌<◌};

use container_calls::call;
use object_heap::{Answer, Heap};
use object_values::{Seed, Value};
use std::alloc::Global;
use std::io;
use std::rt::Clock;
use std::time::Instant;

const ITERATOR: u32 = 86;

const ADD: u32 = 97;

const CONTAINS: u32 = 100;

const LIST_GET: u32 = 115;

const NEW_LIST: u32 = 123;

const NEW_LIST_OF: u32 = 124;

const CONTAINS_KEY: u32 = 130;

const MAP_GET: u32 = 133;

const KEY_SET: u32 = 136;

const PUT: u32 = 137;

const NEW_MAP: u32 = 159;

const HAS_NEXT: u32 = 166;

const NEXT: u32 = 167;

const SORT: u32 = 175;

/// The objects of a heap that is filled: a map, the view of its keys, and a list whose elements are in no order.
const MAP: Value = Value::Ref(0);

const KEYS: Value = Value::Ref(1);

const LIST: Value = Value::Ref(2);

/// What is done with each element.
#[derive(Clone, Copy)]
enum Work {
    MapGet,
    MapPut,
    MapFill,
    ContainsKey,
    MapIterate,
    ListGet,
    ListAdd,
    ListContains,
    ListIterate,
    Sort,
}

const ALL: [Work; 10] = [
    Work::MapGet,
    Work::ContainsKey,
    Work::MapPut,
    Work::MapFill,
    Work::MapIterate,
    Work::ListGet,
    Work::ListAdd,
    Work::ListContains,
    Work::ListIterate,
    Work::Sort,
];

fn name(work: Work) -> &'static str {
    match work {
        Work::MapGet => "map get",
        Work::ContainsKey => "map containsKey",
        Work::MapPut => "map put, the key is there",
        Work::MapFill => "map put, the key is new",
        Work::MapIterate => "map iteration over keys",
        Work::ListGet => "list get",
        Work::ListAdd => "list add",
        Work::ListContains => "list contains, an element that is passed",
        Work::ListIterate => "list iteration",
        Work::Sort => "list copied and sorted, an element",
    }
}

/// How many elements are gone over in a run, and how many runs there are, of which the fastest counts.
const TIMES: u32 = 100_000;

const RUNS: u32 = 50;

fn number(turn: u32) -> Value {
    Value::Int(i32::try_from(turn).unwrap_or(0))
}

// The object that a call made.
fn made(answer: &Answer) -> Value {
    match answer {
        Answer::Value(Value::Ref(id)) => Value::Ref(*id),
        _ => Value::Null,
    }
}

fn same(value: &Value) -> Value {
    match value {
        Value::Ref(id) => Value::Ref(*id),
        _ => Value::Null,
    }
}

// Calls a member of an object with each number.
fn call_each(heap: &mut Heap, member: u32, object: &Value, size: u32) {
    for turn in 0..size {
        let _ = call(member, heap, &[same(object), number(turn)]);
    }
}

fn put_each(heap: &mut Heap, map: &Value, size: u32) {
    for turn in 0..size {
        let _ = call(PUT, heap, &[same(map), number(turn), number(turn)]);
    }
}

fn fill_map(heap: &mut Heap, size: u32) {
    let map = call(NEW_MAP, heap, &[]);
    put_each(heap, &made(&map), size);
}

fn fill_list(heap: &mut Heap, size: u32) {
    let list = call(NEW_LIST, heap, &[]);
    call_each(heap, ADD, &made(&list), size);
}

fn iterate(heap: &mut Heap, over: Value, size: u32) {
    let iterator = call(ITERATOR, heap, &[over]);
    let iterator = made(&iterator);
    for _turn in 0..size {
        let _ = call(HAS_NEXT, heap, &[same(&iterator)]);
        let _ = call(NEXT, heap, &[same(&iterator)]);
    }
}

fn sort_copy(heap: &mut Heap) {
    let copy = call(NEW_LIST_OF, heap, &[LIST]);
    let _ = call(SORT, heap, &[made(&copy)]);
}

// Goes over so many elements.
fn round(heap: &mut Heap, work: Work, size: u32) {
    match work {
        Work::MapGet => call_each(heap, MAP_GET, &MAP, size),
        Work::ContainsKey => call_each(heap, CONTAINS_KEY, &MAP, size),
        Work::MapPut => put_each(heap, &MAP, size),
        Work::MapFill => fill_map(heap, size),
        Work::MapIterate => iterate(heap, KEYS, size),
        Work::ListGet => call_each(heap, LIST_GET, &LIST, size),
        Work::ListAdd => fill_list(heap, size),
        Work::ListContains => {
            let _ = call(CONTAINS, heap, &[LIST, Value::Null]);
        }
        Work::ListIterate => iterate(heap, LIST, size),
        Work::Sort => sort_copy(heap),
    }
}

// A map of so many numbers to themselves, the view of its keys, and a list of as many numbers in no order.
fn filled(alloc: Global, size: u32) -> Heap {
    let mut heap = Heap::new(alloc, u64::MAX, Seed::of(b"bench"));
    fill_map(&mut heap, size);
    let _ = call(KEY_SET, &mut heap, &[MAP]);
    let _ = call(NEW_LIST, &mut heap, &[]);
    let mut last = 12_345u32;
    for _turn in 0..size {
        last = last.wrapping_mul(1_103_515_245).wrapping_add(12_345);
        let _ = call(ADD, &mut heap, &[LIST, number(last >> 8)]);
    }
    heap
}

// The nanoseconds of a run.
fn run(rt: &impl Clock, alloc: Global, work: Work, size: u32) -> io::Result<u128>
    requires { 0 < size }
{
    let mut heap = filled(alloc, size);
    let start = Instant::now(rt)?;
    for _turn in 0..TIMES / size {
        round(&mut heap, work, size);
    }
    Ok(start.elapsed(rt)?.as_nanos())
}

fn measure(rt: &(impl Clock + Print), alloc: Global, work: Work, size: u32) -> io::Result<()>
    requires { 0 < size }
{
    let mut least = u128::MAX;
    for _turn in 0..RUNS {
        least = least.min(run(rt, alloc, work, size)?);
    }
    let spent = least / u128::from(TIMES);
    let name = name(work);
    println!(rt; "{name}, {size}: {spent}")
}

/// Prints what an element takes in each, in nanoseconds.
pub fn measure_members(rt: &(impl Clock + Print), alloc: Global) -> io::Result<()> {
    for work in ALL {
        for size in [10, 100_000] {
            measure(rt, alloc, work, size)?;
        }
    }
    Ok(())
}
