//! What ends of runs over documents are told as.
use json_replies::search_reply_line;
use object_heap::{End, Heap, Which};
use object_values::{Elements, Guard, Object, Seed, Value};
use pl_types::classes::ARRAY_LIST;
use pl_units::UText;
use search_ctx::SearchKind;
use std::alloc::{AllocError, Global};

/// A heap with an exception that has a message, and a list that holds itself.
fn heap(alloc: Global) -> Result<Heap, AllocError> {
    let mut heap = Heap::new(alloc, 0, Seed::of(b"test"));
    let message = UText::from_utf8(alloc, "m")?;
    heap.place(Object::Exc {
        class: pl_types::classes::EXCEPTION,
        message: Some(message),
    })?;
    let mut items = Elements::new(alloc);
    items.push(Value::Ref(1))?;
    heap.place(Object::List {
        class: ARRAY_LIST,
        items,
        guard: Guard::Open,
        changes: 0,
    })?;
    Ok(heap)
}

/// Whether the reply to an end is this line, and an error or not.
fn is_told(alloc: Global, kind: SearchKind, end: &End, wanted: (bool, &str)) -> bool {
    let Ok(heap) = heap(alloc) else {
        return false;
    };
    match search_reply_line(alloc, kind, end, &heap) {
        Ok(line) => line.text.as_str() == wanted.1 && line.is_error == wanted.0,
        Err(_) => false,
    }
}

/// Contexts, numbers that a run gives as a long, and the lines.
const LONGS: [(SearchKind, i64, bool, &str); 9] = [
    (
        SearchKind::Score,
        -1,
        true,
        "{\"error\":{\"kind\":\"negative-score\"}}\n",
    ),
    (
        SearchKind::Score,
        -9_223_372_036_854_775_808,
        true,
        "{\"error\":{\"kind\":\"negative-score\"}}\n",
    ),
    (SearchKind::Score, 0, false, "{\"result\":0}\n"),
    (SearchKind::Score, 1, false, "{\"result\":1}\n"),
    (
        SearchKind::Score,
        9_223_372_036_854_775_807,
        false,
        "{\"result\":9223372036854775807}\n",
    ),
    (SearchKind::Field, -1, false, "{\"result\":-1}\n"),
    (SearchKind::Field, 0, false, "{\"result\":0}\n"),
    (SearchKind::Filter, -1, false, "{\"result\":-1}\n"),
    (SearchKind::Filter, 7, false, "{\"result\":7}\n"),
];

#[test]
fn longs(rt: HostRuntime) {
    for (kind, number, is_error, wanted) in &LONGS {
        let as_wanted = is_told(
            rt.alloc(),
            *kind,
            &End::Value(Value::Long(*number)),
            (*is_error, *wanted),
        );
        assert!(rt; as_wanted, "{number} {wanted}");
    }
}

/// Limits, and the lines in each context.
const LIMITS: [(Which, &str); 4] = [
    (Which::Loop, "{\"error\":{\"kind\":\"limit-loop\"}}\n"),
    (Which::Depth, "{\"error\":{\"kind\":\"limit-depth\"}}\n"),
    (Which::Ticks, "{\"error\":{\"kind\":\"limit-ticks\"}}\n"),
    (Which::Room, "{\"error\":{\"kind\":\"limit-room\"}}\n"),
];

#[test]
fn limits(rt: HostRuntime) {
    for (which, wanted) in &LIMITS {
        let score = is_told(
            rt.alloc(),
            SearchKind::Score,
            &End::Limit {
                limit: *which,
                place: None,
            },
            (true, *wanted),
        );
        let filter = is_told(
            rt.alloc(),
            SearchKind::Filter,
            &End::Limit {
                limit: *which,
                place: None,
            },
            (true, *wanted),
        );
        assert!(rt; score, "{wanted}");
        assert!(rt; filter, "{wanted}");
    }
}

#[test]
fn other_ends(rt: HostRuntime) {
    let truth = is_told(
        rt.alloc(),
        SearchKind::Filter,
        &End::Value(Value::Bool(true)),
        (false, "{\"result\":true}\n"),
    );
    let null = is_told(
        rt.alloc(),
        SearchKind::Field,
        &End::Value(Value::Null),
        (false, "{\"result\":null}\n"),
    );
    let int = is_told(
        rt.alloc(),
        SearchKind::Score,
        &End::Value(Value::Int(-1)),
        (false, "{\"result\":-1}\n"),
    );
    let deep = is_told(
        rt.alloc(),
        SearchKind::Field,
        &End::Value(Value::Ref(1)),
        (true, "{\"error\":{\"kind\":\"result-depth\"}}\n"),
    );
    let no_form = is_told(
        rt.alloc(),
        SearchKind::Field,
        &End::Value(Value::Ref(0)),
        (true, "{\"error\":{\"kind\":\"result-kind\"}}\n"),
    );
    let thrown = is_told(
        rt.alloc(),
        SearchKind::Score,
        &End::Thrown { id: 0, place: None },
        (
            true,
            "{\"error\":{\"class\":\"Exception\",\"kind\":\"thrown\",\"message\":\"m\"}}\n",
        ),
    );
    assert!(rt; truth);
    assert!(rt; null);
    assert!(rt; int);
    assert!(rt; deep);
    assert!(rt; no_form);
    assert!(rt; thrown);
}
