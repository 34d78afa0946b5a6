//! Equality and texts of values, at the edges of depth and of visits.
use super::sample::{sample, tower, word};
use object_heap::Heap;
use object_values::{Seed, Value};
use std::alloc::{AllocError, Global};
use std::test::Fail;
use value_walks::{
    Output, TextErr, VISITS, Walked, equal, equal_entries, push_text, text, text_within,
};

// Pairs of objects, and whether they are equal: `Some(true)`, `Some(false)`, or `None` for Deep.
const EQUAL: [(u32, u32, Option<bool>); 24] = [
    (0, 0, Some(true)),
    (0, 1, Some(true)),
    (0, 2, Some(false)),
    (0, 25, Some(false)),
    (3, 4, Some(true)),
    (3, 0, Some(false)),
    (5, 6, Some(true)),
    (5, 7, Some(false)),
    (5, 8, Some(false)),
    (8, 9, Some(true)),
    (8, 10, Some(true)),
    (10, 11, Some(true)),
    (11, 8, Some(true)),
    (12, 12, Some(true)),
    (12, 13, Some(false)),
    (13, 14, Some(false)),
    (14, 15, Some(true)),
    (14, 16, Some(false)),
    (17, 17, Some(true)),
    (17, 18, Some(false)),
    (19, 20, Some(false)),
    (21, 22, Some(false)),
    (23, 23, Some(true)),
    (23, 24, None),
];

fn is_equal(heap: &Heap, a: &Value, b: &Value, wanted: Option<bool>) -> bool {
    match equal(heap, a, b, VISITS) {
        Walked::On(found, _) => wanted == Some(found),
        Walked::Deep => wanted.is_none(),
        Walked::Large => false,
    }
}

#[test]
fn objects_are_equal_by_their_kinds(rt: HostRuntime) -> Result<(), Fail> {
    let heap = sample(rt.alloc())?;
    for (a, b, wanted) in EQUAL {
        let holds = is_equal(&heap, &Value::Ref(a), &Value::Ref(b), wanted);
        assert!(rt; holds, "{a} {b}");
        let turned = is_equal(&heap, &Value::Ref(b), &Value::Ref(a), wanted);
        assert!(rt; turned, "{b} {a}");
    }
    Ok(())
}

#[test]
fn boxes_are_equal_in_one_type(rt: HostRuntime) -> Result<(), Fail> {
    let heap = sample(rt.alloc())?;
    let same = is_equal(&heap, &Value::Char(97), &Value::Char(97), Some(true));
    assert!(rt; same);
    let other = is_equal(&heap, &Value::Int(1), &Value::Long(1), Some(false));
    assert!(rt; other);
    let null = is_equal(&heap, &Value::Null, &Value::Null, Some(true));
    assert!(rt; null);
    let text = is_equal(
        &heap,
        &word(rt.alloc(), "a")?,
        &Value::Char(97),
        Some(false),
    );
    assert!(rt; text);
    Ok(())
}

const TEXTS: [(u32, &str); 20] = [
    (0, "[1, a, null]"),
    (3, "[1, 2]"),
    (5, "{a=1, b=2}"),
    (6, "{b=2, a=1}"),
    (8, "[a, b]"),
    (10, "[a, b]"),
    (11, "[b, a]"),
    (12, "[1, 2]"),
    (13, "[a=1, b=2]"),
    (14, "a=1"),
    (16, "gone=null"),
    (17, "Iterator"),
    (18, "hi"),
    (19, "lambda"),
    (20, "Function"),
    (21, "java.lang.Exception"),
    (22, "java.lang.IllegalArgumentException: bad"),
    (23, "deep"),
    (25, "[]"),
    (99, ""),
];

fn has_text(heap: &Heap, value: &Value, wanted: &str) -> Result<bool, AllocError> {
    match text(heap, value, VISITS) {
        Ok(text) => {
            let text = text.to_utf8()?;
            Ok(text.as_str() == wanted)
        }
        Err(TextErr::Deep) => Ok(wanted == "deep"),
        Err(TextErr::Large) => Ok(wanted == "large"),
        Err(TextErr::NoMemory) => Ok(false),
    }
}

#[test]
fn objects_have_texts(rt: HostRuntime) -> Result<(), Fail> {
    let heap = sample(rt.alloc())?;
    for (id, wanted) in &TEXTS {
        let holds = has_text(&heap, &Value::Ref(*id), *wanted)?;
        assert!(rt; holds, "{wanted}");
    }
    Ok(())
}

const NUMBERS: [(i64, &str); 4] = [
    (0, "0"),
    (-7, "-7"),
    (9_223_372_036_854_775_807, "9223372036854775807"),
    (-9_223_372_036_854_775_808, "-9223372036854775808"),
];

#[test]
fn values_have_texts(rt: HostRuntime) -> Result<(), Fail> {
    let heap = Heap::new(rt.alloc(), 0, Seed::of(b"test"));
    for (number, wanted) in &NUMBERS {
        let holds = has_text(&heap, &Value::Long(*number), *wanted)?;
        assert!(rt; holds, "{wanted}");
    }
    let null = has_text(&heap, &Value::Null, "null")?;
    assert!(rt; null);
    let truth = has_text(&heap, &Value::Bool(true), "true")?;
    assert!(rt; truth);
    let unit = has_text(&heap, &Value::Char(97), "a")?;
    assert!(rt; unit);
    let byte = has_text(&heap, &Value::Byte(-128), "-128")?;
    assert!(rt; byte);
    Ok(())
}

// A budget, and whether it suffices for three elements and what holds them.
#[test]
fn a_budget_counts_each_visit(rt: HostRuntime) -> Result<(), Fail> {
    let heap = sample(rt.alloc())?;
    let enough = equal(&heap, &Value::Ref(0), &Value::Ref(1), 4) == Walked::On(true, 0);
    assert!(rt; enough);
    let large = equal(&heap, &Value::Ref(0), &Value::Ref(1), 3) == Walked::Large;
    assert!(rt; large);
    let mut out = Output::new(rt.alloc(), 100);
    let written = push_text(&heap, &Value::Ref(5), 5, &mut out) == Ok(0);
    assert!(rt; written);
    let refused = push_text(&heap, &Value::Ref(5), 4, &mut out) == Err(TextErr::Large);
    assert!(rt; refused);
    let entries = push_text(&heap, &Value::Ref(13), 7, &mut out) == Ok(0);
    assert!(rt; entries);
    Ok(())
}

// An object, the room for its text, and the units that it has; or `None` where it is longer.
const LENGTHS: [(u32, u64, Option<usize>); 6] = [
    (0, 12, Some(12)),
    (0, 11, None),
    (3, 6, Some(6)),
    (3, 5, None),
    (14, 2, None),
    (99, 0, Some(0)),
];

fn has_length(heap: &Heap, id: u32, room: u64, wanted: Option<usize>) -> bool {
    match text_within(heap, &Value::Ref(id), VISITS, room) {
        Ok(Some(text)) => wanted == Some(text.len()),
        Ok(None) => wanted.is_none(),
        Err(_) => false,
    }
}

#[test]
fn a_text_is_made_where_there_is_room(rt: HostRuntime) -> Result<(), Fail> {
    let heap = sample(rt.alloc())?;
    for (id, room, wanted) in &LENGTHS {
        let holds = has_length(&heap, *id, *room, *wanted);
        assert!(rt; holds, "{id} {room}");
    }
    let deep = text_within(&heap, &Value::Ref(23), VISITS, 3);
    assert!(rt; deep.is_err());
    let large = text_within(&heap, &Value::Ref(0), 3, 3);
    assert!(rt; large.is_err());
    Ok(())
}

// The entries of "a" in 5 and 6, which are a visit, and then their keys and their values.
#[test]
fn entries_are_visited_like_objects(rt: HostRuntime) -> Result<(), Fail> {
    let heap = sample(rt.alloc())?;
    let key = word(rt.alloc(), "a")?;
    let enough = equal_entries(&heap, 5, &key, 6, &key, 3) == Walked::On(true, 0);
    assert!(rt; enough);
    let large = equal_entries(&heap, 5, &key, 6, &key, 2) == Walked::Large;
    assert!(rt; large);
    let objects = equal(&heap, &Value::Ref(14), &Value::Ref(15), 3) == Walked::On(true, 0);
    assert!(rt; objects);
    Ok(())
}

// Levels, how often each list holds the one below, and whether the walk ends: 0 it does, 1 Deep, 2 Large.
const TOWERS: [(u32, &[u32], u8); 4] = [
    (100, &[0], 0),
    (101, &[0], 1),
    (19, &[0, 0], 0),
    (20, &[0, 0], 2),
];

fn ends(alloc: Global, levels: u32, times: &[u32], wanted: u8) -> Result<bool, AllocError> {
    let mut heap = Heap::new(alloc, 0, Seed::of(b"test"));
    let a = tower(alloc, &mut heap, levels, times)?;
    let b = tower(alloc, &mut heap, levels, times)?;
    let compared = match equal(&heap, &Value::Ref(a), &Value::Ref(b), VISITS) {
        Walked::On(_, _) => 0,
        Walked::Deep => 1,
        Walked::Large => 2,
    };
    let mut out = Output::new(alloc, 0);
    let written = match push_text(&heap, &Value::Ref(a), VISITS, &mut out) {
        Ok(_) => 0,
        Err(TextErr::Deep) => 1,
        Err(TextErr::Large) => 2,
        Err(TextErr::NoMemory) => 3,
    };
    Ok(compared == wanted && written == wanted)
}

#[test]
fn walks_end_at_their_limits(rt: HostRuntime) -> Result<(), Fail> {
    for (levels, times, wanted) in &TOWERS {
        let holds = ends(rt.alloc(), *levels, *times, *wanted)?;
        assert!(rt; holds, "{levels}");
    }
    Ok(())
}
