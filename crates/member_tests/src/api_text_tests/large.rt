//! Large texts and builders: what takes too long does not end the test in time.
use api_text::call;
use object_heap::{Answer, Heap};
use object_values::{Elements, Object, Seed, Value};
use pl_units::UText;
use std::alloc::{AllocError, Global};
use std::test::Fail;

const APPEND: u32 = 81;

const DELETE_CHAR_AT: u32 = 82;

const SET_LENGTH: u32 = 85;

const REPLACE: u32 = 68;

const INDEX_OF: u32 = 64;

const SPLIT_ON_TOKEN: u32 = 69;

const UNITS: usize = 1_000_000;

fn word(alloc: Global, text: &str) -> Result<Value, AllocError> {
    Ok(Value::Str(UText::from_utf8(alloc, text)?))
}

fn builder(alloc: Global, room: u64) -> Result<Heap, AllocError> {
    let mut heap = Heap::new(alloc, room, Seed::of(b"test"));
    heap.place(Object::Builder {
        units: Elements::new(alloc),
    })?;
    Ok(heap)
}

fn is_value(answer: &Answer) -> bool {
    match answer {
        Answer::Value(_) => true,
        _ => false,
    }
}

fn is_room(answer: &Answer) -> bool {
    match answer {
        Answer::Room => true,
        _ => false,
    }
}

// A builder of so many units by single appends; 0 where one of them came to nothing.
fn appended(alloc: Global) -> Result<usize, AllocError> {
    let mut heap = builder(alloc, 2_000_000)?;
    let mut args = Vec::new(alloc);
    args.push(Value::Ref(0))?;
    args.push(word(alloc, "a")?)?;
    for _ in 0..UNITS {
        if !is_value(&call(APPEND, &mut heap, args.as_slice())) {
            return Ok(0);
        }
    }
    Ok(heap.units(0).len())
}

#[test]
fn a_million_appends(rt: HostRuntime) -> Result<(), Fail> {
    let count = appended(rt.alloc())?;
    assert!(rt; count == UNITS, "{count}");
    Ok(())
}

// A call of a member of the builder with a number.
fn changed(heap: &mut Heap, member: u32, number: i32) -> Result<Answer, AllocError> {
    let mut args = Vec::new(heap.alloc());
    args.push(Value::Ref(0))?;
    args.push(Value::Int(number))?;
    Ok(call(member, heap, args.as_slice()))
}

// How many units are left of a long builder, of which the first and the last go by turns.
fn emptied(alloc: Global) -> Result<usize, AllocError> {
    let mut heap = builder(alloc, 2_000_000)?;
    let long = is_value(&changed(&mut heap, SET_LENGTH, 1_000_000)?);
    for turn in 0..UNITS {
        let last = heap.units(0).len().saturating_sub(1);
        let at = if turn % 2 == 0 { 0 } else { last };
        let answer = changed(&mut heap, DELETE_CHAR_AT, i32::try_from(at).unwrap_or(0))?;
        if !(long && is_value(&answer)) {
            return Ok(UNITS);
        }
    }
    Ok(heap.units(0).len())
}

#[test]
fn a_million_deletions(rt: HostRuntime) -> Result<(), Fail> {
    let count = emptied(rt.alloc())?;
    assert!(rt; count == 0, "{count}");
    Ok(())
}

// A text of so many units, each an `a`.
fn long_text(alloc: Global) -> Result<Value, AllocError> {
    let mut units = Vec::new(alloc);
    units.resize(UNITS, 97)?;
    Ok(Value::Str(UText::from_units(units)?))
}

fn length_of(answer: &Answer) -> usize {
    match answer {
        Answer::Value(Value::Str(text)) => text.len(),
        _ => 0,
    }
}

fn number_of(answer: &Answer) -> i32 {
    match answer {
        Answer::Value(Value::Int(number)) => *number,
        _ => 0,
    }
}

// A call on the long text and short ones.
fn called(
    alloc: Global,
    heap: &mut Heap,
    member: u32,
    rest: &[&str],
) -> Result<Answer, AllocError> {
    let mut args = Vec::new(alloc);
    args.push(long_text(alloc)?)?;
    for text in rest {
        args.push(word(alloc, text)?)?;
    }
    Ok(call(member, heap, args.as_slice()))
}

#[test]
fn a_million_occurrences(rt: HostRuntime) -> Result<(), Fail> {
    let alloc = rt.alloc();
    let mut heap = Heap::new(alloc, 10_000_000, Seed::of(b"test"));
    let longer = length_of(&called(alloc, &mut heap, REPLACE, &["a", "bc"])?);
    let place = number_of(&called(alloc, &mut heap, INDEX_OF, &["b"])?);
    let made = is_value(&called(alloc, &mut heap, SPLIT_ON_TOKEN, &["a"])?);
    assert!(rt; longer == 2_000_000 && place == -1 && made);
    assert!(rt; heap.items(0).len() == 1_000_001);
    Ok(())
}

// The room is asked before the memory: each of these would take gigabytes.
#[test]
fn no_room_is_told_at_once(rt: HostRuntime) -> Result<(), Fail> {
    let alloc = rt.alloc();
    let mut heap = builder(alloc, 1_000)?;
    let mut args = Vec::new(alloc);
    args.push(Value::Ref(0))?;
    args.push(Value::Int(2_147_483_647))?;
    let set = is_room(&call(SET_LENGTH, &mut heap, args.as_slice()));
    let long = "0123456789012345678901234567890123456789";
    let replaced = is_room(&called(alloc, &mut heap, REPLACE, &["a", long])?);
    let split = is_room(&called(alloc, &mut heap, SPLIT_ON_TOKEN, &["a"])?);
    assert!(rt; set && replaced && split && heap.room_left() == 1_000);
    Ok(())
}
