//! Replies to runs over lines.
use crate::binding::{bound, is_text};
use crate::changes::make_changes;
use json_reading::Scratch;
use object_heap::{End, Outcome, Which};
use object_values::{Elements, Value};
use std::alloc::{AllocError, Global};
use write_ctx::{WriteKind, reply};

/// Objects of the heap: 0 params, 1 the list, 2 the source, 3 ctx.
const UPDATE: &str = r#"{"_id":"1","_source":{"l":[1]}}"#;

/// What a script does to that line, and the reply.
const UPDATES: [(&str, &str); 34] = [
    ("", r#"{"_id":"1","_source":{"l":[1]},"op":"index"}"#),
    (
        "2 'a' 'ä';2 'l' -",
        r#"{"_id":"1","_source":{"a":"ä"},"op":"index"}"#,
    ),
    ("3 'op' 'none'", r#"{"_id":"1","op":"none"}"#),
    ("3 'op' 'noop'", r#"{"_id":"1","op":"none"}"#),
    ("3 'op' 'delete'", r#"{"_id":"1","op":"delete"}"#),
    ("3 'op' 'none';2 'a' 1", r#"{"_id":"1","op":"none"}"#),
    ("3 'op' 'bad'", r#"{"error":{"kind":"bad-op"}}"#),
    ("3 'op' 'Index'", r#"{"error":{"kind":"bad-op"}}"#),
    ("3 'op' 'index '", r#"{"error":{"kind":"bad-op"}}"#),
    ("3 'op' ''", r#"{"error":{"kind":"bad-op"}}"#),
    ("3 'op' null", r#"{"error":{"kind":"bad-op"}}"#),
    ("3 'op' 7", r#"{"error":{"kind":"bad-op"}}"#),
    ("3 'op' true", r#"{"error":{"kind":"bad-op"}}"#),
    ("3 'op' c", r#"{"error":{"kind":"bad-op"}}"#),
    ("3 'op' #2", r#"{"error":{"kind":"bad-op"}}"#),
    ("3 'op' -", r#"{"error":{"kind":"bad-op"}}"#),
    ("3 'op' 'bad';3 '_id' 7", r#"{"error":{"kind":"bad-op"}}"#),
    ("3 '_id' 7", r#"{"error":{"kind":"result-kind"}}"#),
    (
        "3 '_id' -;3 'op' 'none'",
        r#"{"error":{"kind":"result-kind"}}"#,
    ),
    (
        "3 '_id' 'x';3 'op' 'delete'",
        r#"{"_id":"x","op":"delete"}"#,
    ),
    ("3 '_source' #0", r#"{"_id":"1","_source":{},"op":"index"}"#),
    ("3 '_source' #1", r#"{"error":{"kind":"result-kind"}}"#),
    ("3 '_source' null", r#"{"error":{"kind":"result-kind"}}"#),
    ("3 '_source' '{}'", r#"{"error":{"kind":"result-kind"}}"#),
    ("3 '_source' 7", r#"{"error":{"kind":"result-kind"}}"#),
    ("3 '_source' -", r#"{"error":{"kind":"result-kind"}}"#),
    ("3 '_source' #99", r#"{"error":{"kind":"result-kind"}}"#),
    (
        "3 '_source' null;3 'op' 'noop'",
        r#"{"_id":"1","op":"none"}"#,
    ),
    ("2 'me' #2", r#"{"error":{"kind":"result-depth"}}"#),
    ("3 '_source' #3", r#"{"error":{"kind":"result-depth"}}"#),
    ("2 7 1", r#"{"error":{"kind":"result-key"}}"#),
    ("exception;2 'e' #4", r#"{"error":{"kind":"result-kind"}}"#),
    (
        "exception;2 'e' #4;2 null 1",
        r#"{"error":{"kind":"result-key"}}"#,
    ),
    ("2 'me' #2;3 'op' 'delete'", r#"{"_id":"1","op":"delete"}"#),
];

/// Objects of the heap: 0 params, 1 the list, 2 ctx.
const INGEST: &str = r#"{"_id":"1","_index":"i","_source":{"a":5,"l":[1]}}"#;

/// What a script does to that line, and the reply.
const INGESTS: [(&str, &str); 21] = [
    ("", r#"{"_id":"1","_index":"i","_source":{"a":5,"l":[1]}}"#),
    (
        "2 'b' 5;2 'a' -;2 '_index' 'x'",
        r#"{"_id":"1","_index":"x","_source":{"b":5,"l":[1]}}"#,
    ),
    (
        "2 '_id' ''",
        r#"{"_id":"","_index":"i","_source":{"a":5,"l":[1]}}"#,
    ),
    (
        "2 '_id' -;2 '_id' '2'",
        r#"{"_id":"2","_index":"i","_source":{"a":5,"l":[1]}}"#,
    ),
    (
        "2 'a' -;2 'l' -",
        r#"{"_id":"1","_index":"i","_source":{}}"#,
    ),
    (
        "2 '_source' #0;2 'op' 'none'",
        r#"{"_id":"1","_index":"i","_source":{"_source":{},"a":5,"l":[1],"op":"none"}}"#,
    ),
    ("2 '_id' 7", r#"{"error":{"kind":"result-kind"}}"#),
    ("2 '_id' null", r#"{"error":{"kind":"result-kind"}}"#),
    ("2 '_id' c", r#"{"error":{"kind":"result-kind"}}"#),
    ("2 '_id' -", r#"{"error":{"kind":"result-kind"}}"#),
    ("2 '_index' #2", r#"{"error":{"kind":"result-kind"}}"#),
    ("2 '_index' true", r#"{"error":{"kind":"result-kind"}}"#),
    ("2 '_index' -", r#"{"error":{"kind":"result-kind"}}"#),
    (
        "2 '_index' null;2 'me' #2",
        r#"{"error":{"kind":"result-kind"}}"#,
    ),
    ("2 'me' #2", r#"{"error":{"kind":"result-depth"}}"#),
    ("2 7 1", r#"{"error":{"kind":"result-key"}}"#),
    ("2 7 1;2 '_id' 7", r#"{"error":{"kind":"result-kind"}}"#),
    ("2 'me' #2;2 null 1", r#"{"error":{"kind":"result-key"}}"#),
    (
        "2 'b' #2;exception;2 'A' #3",
        r#"{"error":{"kind":"result-depth"}}"#,
    ),
    (
        "2 'l' -;2 'a' -;exception;2 'e' #3",
        r#"{"error":{"kind":"result-kind"}}"#,
    ),
    ("2 'e' #99", r#"{"error":{"kind":"result-kind"}}"#),
];

/// What a run comes to, by its name.
fn end_of(name: &str, id: u32) -> End {
    match name {
        "loop" => End::Limit {
            limit: Which::Loop,
            place: None,
        },
        "room" => End::Limit {
            limit: Which::Room,
            place: None,
        },
        "thrown" => End::Thrown { id, place: None },
        _ => End::Value(Value::Int(7)),
    }
}

/// The text of the reply to a run that made such changes of a line's heap and ended so.
fn replied(
    alloc: Global,
    kind: WriteKind,
    line: &str,
    changes: &str,
    end: &str,
) -> Option<Result<String, AllocError>> {
    let mut scratch = Scratch::new(alloc);
    let start = bound(alloc, kind, "{}", line.as_bytes(), &mut scratch).ok()?;
    let (mut heap, args) = start.into_parts();
    make_changes(&mut heap, changes)?;
    let last = u32::try_from(heap.len()).ok()?;
    let outcome = Outcome {
        end: end_of(end, last.saturating_sub(1)),
        heap,
        ticks: 0,
        steps: 0,
        reached: Elements::new(alloc),
    };
    let ctx = args.as_slice().get(1)?;
    Some(match reply(kind, ctx, &outcome) {
        Ok(json) => json.to_string(alloc),
        Err(error) => Err(error),
    })
}

/// Whether that is the text that is wanted.
fn replies_so(
    alloc: Global,
    kind: WriteKind,
    line: &str,
    changes: &str,
    end: &str,
    wanted: &str,
) -> bool {
    match replied(alloc, kind, line, changes, end) {
        Some(text) => is_text(text, wanted),
        None => false,
    }
}

#[test]
fn updates_reply(rt: HostRuntime) {
    for (changes, wanted) in &UPDATES {
        let as_wanted = replies_so(rt.alloc(), WriteKind::Update, UPDATE, *changes, "", *wanted);
        assert!(rt; as_wanted, "{changes}");
    }
}

#[test]
fn ingests_reply(rt: HostRuntime) {
    for (changes, wanted) in &INGESTS {
        let as_wanted = replies_so(rt.alloc(), WriteKind::Ingest, INGEST, *changes, "", *wanted);
        assert!(rt; as_wanted, "{changes}");
    }
}

/// Ends that are no normal ones, over changes, and the reply in both kinds.
const ENDS: [(&str, &str, &str); 4] = [
    (
        "loop",
        "3 'op' 'none'",
        r#"{"error":{"kind":"limit-loop"}}"#,
    ),
    (
        "room",
        "2 'a' 1;3 'op' 'bad'",
        r#"{"error":{"kind":"limit-room"}}"#,
    ),
    (
        "thrown",
        "2 'a' 1;exception",
        r#"{"error":{"class":"ArithmeticException","kind":"thrown","message":null}}"#,
    ),
    (
        "thrown",
        "2 '_index' 7;exception",
        r#"{"error":{"class":"ArithmeticException","kind":"thrown","message":null}}"#,
    ),
];

#[test]
fn ends_reply(rt: HostRuntime) {
    for (end, changes, wanted) in &ENDS {
        let update = replies_so(
            rt.alloc(),
            WriteKind::Update,
            UPDATE,
            *changes,
            *end,
            *wanted,
        );
        let ingest = replies_so(
            rt.alloc(),
            WriteKind::Ingest,
            INGEST,
            *changes,
            *end,
            *wanted,
        );
        assert!(rt; update && ingest, "{changes}");
    }
}
