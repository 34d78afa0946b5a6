//! What values are given as.
use super::sample::{list, sample};
use json_bridge::{GiveErr, bind, give};
use object_heap::Heap;
use object_values::{Elements, Seed, Value};
use serde_json::Value as Json;
use std::alloc::{AllocError, Global};

/// Room that is never asked for.
const ROOM: u64 = 0;

/// Whether a value is given as this JSON text, or has this fault first.
fn is_given(alloc: Global, heap: &Heap, value: &Value, wanted: &str) -> bool {
    match give(heap, value) {
        Ok(json) => match json.to_string(alloc) {
            Ok(text) => text.as_str() == wanted,
            Err(_) => false,
        },
        Err(GiveErr::Key) => wanted == "key",
        Err(GiveErr::Depth) => wanted == "depth",
        Err(GiveErr::Size) => wanted == "size",
        Err(GiveErr::Kind) => wanted == "kind",
        Err(GiveErr::NoMemory) => false,
    }
}

/// Whether a JSON text, bound and given back, is this text.
fn comes_back(alloc: Global, json: &str, wanted: &str) -> bool {
    let Ok(json) = Json::from_str(alloc, json) else {
        return false;
    };
    let mut heap = Heap::new(alloc, ROOM, Seed::of(b"test"));
    match bind(&mut heap, &json, false) {
        Ok(value) => is_given(alloc, &heap, &value, wanted),
        Err(_) => false,
    }
}

/// JSON texts, and what they are given back as.
const BOUND: [(&str, &str); 9] = [
    ("null", "null"),
    ("[true,false]", "[true,false]"),
    (
        "[0,-1,2147483648,-9223372036854775808]",
        "[0,-1,2147483648,-9223372036854775808]",
    ),
    ("\"a\\u00e9\\ud83d\\ude00\"", "\"a\u{e9}\u{1f600}\""),
    ("[]", "[]"),
    ("{}", "{}"),
    (
        "{\"b\":[1,{\"d\":2,\"c\":{}}],\"a\":null}",
        "{\"a\":null,\"b\":[1,{\"c\":{},\"d\":2}]}",
    ),
    ("{\"a\":1,\"a\":2}", "{\"a\":2}"),
    (
        "{\"\\ud800\\udc00\":1,\"\\uffff\":2,\"\":3}",
        "{\"\":3,\"\u{ffff}\":2,\"\u{10000}\":1}",
    ),
];

#[test]
fn what_was_bound(rt: HostRuntime) {
    for (json, wanted) in &BOUND {
        let as_wanted = comes_back(rt.alloc(), *json, *wanted);
        assert!(rt; as_wanted, "{json}");
    }
}

/// Objects of the sample, and what they are given as.
const OBJECTS: [(u32, &str); 28] = [
    (0, "[1,\"a\",null,true,-2,3]"),
    (1, "{\"a\":[1,\"a\",null,true,-2,3],\"b\":7}"),
    (2, "[\"x\",1]"),
    (3, "[\"a\",\"\u{fffd}\"]"),
    (4, "[\"b\",\"a\"]"),
    (5, "[7,[1,\"a\",null,true,-2,3]]"),
    (6, "kind"),
    (7, "{}"),
    (8, "[]"),
    (9, "kind"),
    (10, "kind"),
    (11, "kind"),
    (12, "kind"),
    (13, "kind"),
    (14, "key"),
    (15, "key"),
    (16, "key"),
    (17, "key"),
    (18, "key"),
    (19, "kind"),
    (20, "kind"),
    (21, "key"),
    (22, "[]"),
    (23, "depth"),
    (24, "kind"),
    (25, "depth"),
    (26, "[null,1]"),
    (99, "kind"),
];

#[test]
fn each_kind(rt: HostRuntime) {
    let heap = sample(rt.alloc());
    assert!(rt; heap.is_ok());
    if let Ok(heap) = heap {
        for (id, wanted) in &OBJECTS {
            let as_wanted = is_given(rt.alloc(), &heap, &Value::Ref(*id), *wanted);
            assert!(rt; as_wanted, "{id}");
        }
    }
}

/// A value in so many lists.
fn nested(alloc: Global, inner: Value, levels: u32) -> Result<(Heap, Value), AllocError> {
    let mut heap = Heap::new(alloc, ROOM, Seed::of(b"test"));
    let mut value = inner;
    for _ in 0..levels {
        let mut items = Elements::new(alloc);
        items.push(value)?;
        value = Value::Ref(heap.place(list(items))?);
    }
    Ok((heap, value))
}

/// The fault of a value in so many lists, if it has one.
fn fault_of(alloc: Global, inner: Value, levels: u32) -> Option<GiveErr> {
    match nested(alloc, inner, levels) {
        Ok((heap, value)) => give(&heap, &value).err(),
        Err(_) => Some(GiveErr::NoMemory),
    }
}

#[test]
fn the_deepest(rt: HostRuntime) {
    let deepest = fault_of(rt.alloc(), Value::Int(1), 99);
    let deeper = fault_of(rt.alloc(), Value::Int(1), 100);
    let no_form = fault_of(rt.alloc(), Value::Ref(1000), 99);
    let deeper_before = fault_of(rt.alloc(), Value::Ref(1000), 100);
    assert!(rt; deepest == None);
    assert!(rt; deeper == Some(GiveErr::Depth));
    assert!(rt; no_form == Some(GiveErr::Kind));
    assert!(rt; deeper_before == Some(GiveErr::Depth));
}

/// A list that stands in so many others, in each of them twice.
fn doubled(alloc: Global, levels: u32) -> Result<(Heap, Value), AllocError> {
    let mut heap = Heap::new(alloc, ROOM, Seed::of(b"test"));
    let mut id = heap.place(list(Elements::new(alloc)))?;
    for _ in 0..levels {
        let mut items = Elements::new(alloc);
        items.push(Value::Ref(id))?;
        items.push(Value::Ref(id))?;
        id = heap.place(list(items))?;
    }
    Ok((heap, Value::Ref(id)))
}

/// Nulls in a list.
fn nulls(alloc: Global, count: u32) -> Result<Elements<Value>, AllocError> {
    let mut items = Elements::new(alloc);
    for _ in 0..count {
        items.push(Value::Null)?;
    }
    Ok(items)
}

/// A list of 999 times one list of 999 nulls, of 999 nulls, which are 1,000,000 nodes, and of another value, if there is one.
fn large(alloc: Global, more: Option<Value>) -> Result<(Heap, Value), AllocError> {
    let mut heap = Heap::new(alloc, ROOM, Seed::of(b"test"));
    let id = heap.place(list(nulls(alloc, 999)?))?;
    let mut items = nulls(alloc, 999)?;
    for _ in 0..999 {
        items.push(Value::Ref(id))?;
    }
    if let Some(value) = more {
        items.push(value)?;
    }
    let whole = Value::Ref(heap.place(list(items))?);
    Ok((heap, whole))
}

/// The fault of a heap's value, if it has one.
fn fault_in(made: Result<(Heap, Value), AllocError>) -> Option<GiveErr> {
    match made {
        Ok((heap, value)) => give(&heap, &value).err(),
        Err(_) => Some(GiveErr::NoMemory),
    }
}

#[test]
fn the_largest(rt: HostRuntime) {
    let largest = fault_in(large(rt.alloc(), None));
    let larger = fault_in(large(rt.alloc(), Some(Value::Null)));
    let larger_before = fault_in(large(rt.alloc(), Some(Value::Ref(1000))));
    let shared = fault_in(doubled(rt.alloc(), 40));
    assert!(rt; largest == None);
    assert!(rt; larger == Some(GiveErr::Size));
    assert!(rt; larger_before == Some(GiveErr::Size));
    assert!(rt; shared == Some(GiveErr::Size));
}
