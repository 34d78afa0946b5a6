//! What JSON values are bound to.
use super::shown::is_shown;
use json_bridge::{NumErr, bind};
use object_heap::Heap;
use object_values::Seed;
use serde_json::Value as Json;
use std::alloc::Global;

/// The room before a value is bound, which is the room afterwards.
const ROOM: u64 = 3;

/// Whether a JSON text is bound to this; of one with a number that is not bound the answer is `number`.
fn is_bound(alloc: Global, json: &str, frozen: bool, wanted: &str) -> bool {
    let Ok(json) = Json::from_str(alloc, json) else {
        return wanted == "syntax";
    };
    let mut heap = Heap::new(alloc, ROOM, Seed::of(b"test"));
    match bind(&mut heap, &json, frozen) {
        Ok(value) => is_shown(alloc, &heap, &value, wanted) && heap.room_left() == ROOM,
        Err(NumErr::Number) => wanted == "number",
        Err(NumErr::NoMemory) => false,
    }
}

/// JSON texts, and what they are bound to where anything may change it.
const OPEN: [(&str, &str); 32] = [
    ("null", "null"),
    ("true", "true"),
    ("false", "false"),
    ("0", "0i"),
    ("-1", "-1i"),
    ("2147483647", "2147483647i"),
    ("2147483648", "2147483648L"),
    ("-2147483648", "-2147483648i"),
    ("-2147483649", "-2147483649L"),
    ("9223372036854775807", "9223372036854775807L"),
    ("9223372036854775808", "number"),
    ("-9223372036854775808", "-9223372036854775808L"),
    ("-9223372036854775809", "number"),
    ("18446744073709551616", "number"),
    ("-0", "number"),
    ("1.0", "number"),
    ("1e3", "number"),
    ("1e400", "syntax"),
    ("\"\"", "''"),
    ("\"a\\n\"", "'a\n'"),
    ("[]", "[] #0"),
    ("{}", "{} #0"),
    ("[1,\"1\",null]", "[1i,'1',null,] #0"),
    ("[[],[[]]]", "[] [] [#1,] [#0,#2,] #3"),
    ("{\"b\":1,\"a\":2}", "{'a'=2i,'b'=1i,} #0"),
    ("{\"a\":1.5,\"a\":1}", "{'a'=1i,} #0"),
    ("{\"a\":1,\"a\":1.5}", "number"),
    ("{\"a\":[1,{\"b\":[2,0.5]}]}", "number"),
    (
        "{\"b\":{\"d\":1,\"c\":[]},\"a\":[3]}",
        "[3i,] [] {'c'=#1,'d'=1i,} {'a'=#0,'b'=#2,} #3",
    ),
    (
        "{\"\":0,\"a.b\":1,\"a\":{\"b\":2}}",
        "{'b'=2i,} {''=0i,'a'=#0,'a.b'=1i,} #1",
    ),
    (
        "{\"\\uffff\":1,\"\\ud800\\udc00\":2}",
        "{'\u{ffff}'=1i,'\u{10000}'=2i,} #0",
    ),
    ("[\"\\ud800\"]", "syntax"),
];

#[test]
fn values_that_may_change(rt: HostRuntime) {
    for (json, wanted) in &OPEN {
        let as_wanted = is_bound(rt.alloc(), *json, false, *wanted);
        assert!(rt; as_wanted, "{json}");
    }
}

/// JSON texts, and what they are bound to where nothing may change it.
const FROZEN: [(&str, &str); 4] = [
    ("7", "7i"),
    ("[]", "[]! #0"),
    (
        "{\"a\":[{\"b\":{}}]}",
        "{}! {'b'=#0,}! [#1,]! {'a'=#2,}! #3",
    ),
    ("[1,{\"a\":0.5}]", "number"),
];

#[test]
fn values_that_stay(rt: HostRuntime) {
    for (json, wanted) in &FROZEN {
        let as_wanted = is_bound(rt.alloc(), *json, true, *wanted);
        assert!(rt; as_wanted, "{json}");
    }
}

/// So many arrays in one another.
fn nested(alloc: Global, levels: usize) -> Option<String> {
    let mut text = String::new(alloc);
    for _ in 0..levels {
        text.push_str("[").ok()?;
    }
    for _ in 0..levels {
        text.push_str("]").ok()?;
    }
    Some(text)
}

/// How many objects come of so many arrays in one another, if they are read.
fn objects_of(alloc: Global, levels: usize) -> Option<usize> {
    let text = nested(alloc, levels)?;
    let json = Json::from_str(alloc, text.as_str()).ok()?;
    let mut heap = Heap::new(alloc, ROOM, Seed::of(b"test"));
    let _bound = bind(&mut heap, &json, false).ok()?;
    Some(heap.len())
}

#[test]
fn the_deepest_values(rt: HostRuntime) {
    let deepest = objects_of(rt.alloc(), 127);
    let deeper = objects_of(rt.alloc(), 128);
    assert!(rt; deepest == Some(127));
    assert!(rt; deeper == None);
}
