//! What `set`, `remove` and `rename` make of a document.

use super::large::{joined, times};
use super::shown::{document, is_text, shown};
use pipe_fields::{EditErr, Field, IngestDoc, Place, WhenMissing, WhenThere, remove, rename, set};
use serde_json::Value;
use std::alloc::{AllocError, Global};
use std::test::Fail;

/// What is done.
#[derive(Clone, Copy)]
enum Edit {
    Set(WhenThere),
    Remove(WhenMissing),
    Rename(WhenMissing),
}

/// Puts a value at a place. `None` where a text is none of a place or a value.
fn put(
    alloc: Global,
    at: &str,
    value: &str,
    when: WhenThere,
    doc: &mut IngestDoc,
) -> Option<Result<(), EditErr>> {
    let at = Place::read(alloc, at).ok()??;
    let value = Value::from_str(alloc, value).ok()?;
    Some(set(alloc, &at, &value, when, doc))
}

/// Takes a field out. `None` where a text is none of a field.
fn take(
    alloc: Global,
    field: &str,
    when: WhenMissing,
    doc: &mut IngestDoc,
) -> Option<Result<(), EditErr>> {
    let field = Field::read(alloc, field).ok()??;
    Some(remove(alloc, &field, when, doc))
}

/// Takes a field out and puts it at a target. `None` where a text is none of a field.
fn name(
    alloc: Global,
    field: &str,
    target: &str,
    when: WhenMissing,
    doc: &mut IngestDoc,
) -> Option<Result<(), EditErr>> {
    let field = Field::read(alloc, field).ok()??;
    let target = Field::read(alloc, target).ok()??;
    Some(rename(alloc, &field, &target, when, doc))
}

/// Does what an edit says, at a field, with a value or a target.
fn edited(
    alloc: Global,
    edit: Edit,
    field: &str,
    other: &str,
    doc: &mut IngestDoc,
) -> Option<Result<(), EditErr>> {
    match edit {
        Edit::Set(when) => put(alloc, field, other, when, doc),
        Edit::Remove(when) => take(alloc, field, when, doc),
        Edit::Rename(when) => name(alloc, field, other, when, doc),
    }
}

/// A document behind what was made of it: `is`, or the error.
fn edit_shown(
    alloc: Global,
    made: Result<(), EditErr>,
    doc: &IngestDoc,
) -> Result<String, AllocError> {
    match made {
        Ok(()) => shown(alloc, "is", doc),
        Err(EditErr::Failed(error)) => {
            let error = error.to_string(alloc)?;
            shown(alloc, error.as_str(), doc)
        }
        Err(EditErr::NoMemory) => shown(alloc, "memory", doc),
    }
}

/// Whether an edit makes this of the document `i`, `1` with a source.
fn makes(alloc: Global, edit: Edit, texts: (&str, &str), source: &str, wanted: &str) -> bool {
    let Some(mut doc) = document(alloc, source) else {
        return false;
    };
    match edited(alloc, edit, texts.0, texts.1, &mut doc) {
        Some(made) => is_text(edit_shown(alloc, made, &doc), wanted),
        None => false,
    }
}

/// When a value is put, where, the value, the source, and what comes of the document.
const SETS: [(WhenThere, &str, &str, &str, &str); 34] = [
    (WhenThere::Replaced, "a", "1", "{}", r#"is i 1 {"a":1}"#),
    (
        WhenThere::Replaced,
        "a",
        "null",
        r#"{"a":1}"#,
        r#"is i 1 {"a":null}"#,
    ),
    (
        WhenThere::Replaced,
        "a",
        r#"{"c":[1]}"#,
        r#"{"a":1}"#,
        r#"is i 1 {"a":{"c":[1]}}"#,
    ),
    (
        WhenThere::Replaced,
        "a.b",
        "1",
        "{}",
        r#"is i 1 {"a":{"b":1}}"#,
    ),
    (
        WhenThere::Replaced,
        "a.b.c",
        "[]",
        "{}",
        r#"is i 1 {"a":{"b":{"c":[]}}}"#,
    ),
    (
        WhenThere::Replaced,
        "a.b",
        "1",
        r#"{"a":{"c":2}}"#,
        r#"is i 1 {"a":{"b":1,"c":2}}"#,
    ),
    (
        WhenThere::Replaced,
        "a.b",
        "1",
        r#"{"a":{"b":[1]}}"#,
        r#"is i 1 {"a":{"b":1}}"#,
    ),
    (
        WhenThere::Replaced,
        "a.b",
        "1",
        r#"{"a.b":2}"#,
        r#"is i 1 {"a":{"b":1},"a.b":2}"#,
    ),
    (
        WhenThere::Replaced,
        "a.b",
        "1",
        r#"{"a":1}"#,
        r#"{"field":"a.b","kind":"pipe-parent"} i 1 {"a":1}"#,
    ),
    (
        WhenThere::Replaced,
        "a.b",
        "1",
        r#"{"a":null}"#,
        r#"{"field":"a.b","kind":"pipe-parent"} i 1 {"a":null}"#,
    ),
    (
        WhenThere::Replaced,
        "a.b",
        "1",
        r#"{"a":[{"b":2}]}"#,
        r#"{"field":"a.b","kind":"pipe-parent"} i 1 {"a":[{"b":2}]}"#,
    ),
    (
        WhenThere::Replaced,
        "a.0",
        "1",
        r#"{"a":[2]}"#,
        r#"{"field":"a.0","kind":"pipe-parent"} i 1 {"a":[2]}"#,
    ),
    (
        WhenThere::Replaced,
        "a.b",
        "1",
        r#"{"a":"x"}"#,
        r#"{"field":"a.b","kind":"pipe-parent"} i 1 {"a":"x"}"#,
    ),
    (
        WhenThere::Replaced,
        "a.b.c",
        "1",
        r#"{"a":{"b":false}}"#,
        r#"{"field":"a.b.c","kind":"pipe-parent"} i 1 {"a":{"b":false}}"#,
    ),
    (
        WhenThere::Replaced,
        "a",
        "1",
        "[]",
        r#"{"field":"a","kind":"pipe-parent"} i 1 []"#,
    ),
    (WhenThere::Kept, "a", "2", r#"{"a":1}"#, r#"is i 1 {"a":1}"#),
    (
        WhenThere::Kept,
        "a",
        "2",
        r#"{"a":false}"#,
        r#"is i 1 {"a":false}"#,
    ),
    (
        WhenThere::Kept,
        "a",
        "2",
        r#"{"a":""}"#,
        r#"is i 1 {"a":""}"#,
    ),
    (
        WhenThere::Kept,
        "a",
        "2",
        r#"{"a":[]}"#,
        r#"is i 1 {"a":[]}"#,
    ),
    (
        WhenThere::Kept,
        "a",
        "2",
        r#"{"a":{}}"#,
        r#"is i 1 {"a":{}}"#,
    ),
    (
        WhenThere::Kept,
        "a",
        "2",
        r#"{"a":null}"#,
        r#"is i 1 {"a":2}"#,
    ),
    (
        WhenThere::Kept,
        "a",
        "2",
        r#"{"b":1}"#,
        r#"is i 1 {"a":2,"b":1}"#,
    ),
    (
        WhenThere::Kept,
        "a.b",
        "2",
        r#"{"a":{"b":1}}"#,
        r#"is i 1 {"a":{"b":1}}"#,
    ),
    (
        WhenThere::Kept,
        "a.b",
        "2",
        r#"{"a":{}}"#,
        r#"is i 1 {"a":{"b":2}}"#,
    ),
    (
        WhenThere::Kept,
        "a.b",
        "2",
        r#"{"a":1}"#,
        r#"{"field":"a.b","kind":"pipe-parent"} i 1 {"a":1}"#,
    ),
    (WhenThere::Replaced, "_index", r#""j""#, "{}", "is j 1 {}"),
    (WhenThere::Replaced, "_id", r#""""#, "{}", "is i  {}"),
    (
        WhenThere::Replaced,
        "_index",
        "1",
        "{}",
        r#"{"field":"_index","kind":"pipe-type"} i 1 {}"#,
    ),
    (
        WhenThere::Replaced,
        "_id",
        "null",
        "{}",
        r#"{"field":"_id","kind":"pipe-type"} i 1 {}"#,
    ),
    (
        WhenThere::Replaced,
        "_id",
        r#"["2"]"#,
        "{}",
        r#"{"field":"_id","kind":"pipe-type"} i 1 {}"#,
    ),
    (WhenThere::Kept, "_index", r#""j""#, "{}", "is i 1 {}"),
    (WhenThere::Kept, "_index", "1", "{}", "is i 1 {}"),
    (WhenThere::Kept, "_id", "null", "{}", "is i 1 {}"),
    (
        WhenThere::Replaced,
        "_source",
        r#""x""#,
        "{}",
        r#"is i 1 {"_source":"x"}"#,
    ),
];

/// What follows where the field is not there, the field, the source, and what comes of the document.
const REMOVALS: [(WhenMissing, &str, &str, &str); 13] = [
    (
        WhenMissing::Fails,
        "a",
        r#"{"a":1,"b":2}"#,
        r#"is i 1 {"b":2}"#,
    ),
    (WhenMissing::Fails, "a", r#"{"a":null}"#, "is i 1 {}"),
    (WhenMissing::Fails, "a", r#"{"a":{"b":[1]}}"#, "is i 1 {}"),
    (
        WhenMissing::Fails,
        "a.b",
        r#"{"a":{"b":1}}"#,
        r#"is i 1 {"a":{}}"#,
    ),
    (
        WhenMissing::Passes,
        "a.b",
        r#"{"a":{"b":1,"c":2}}"#,
        r#"is i 1 {"a":{"c":2}}"#,
    ),
    (
        WhenMissing::Fails,
        "a.b",
        r#"{"a":{"b":1},"a.b":2}"#,
        r#"is i 1 {"a":{},"a.b":2}"#,
    ),
    (
        WhenMissing::Fails,
        "a",
        r#"{"b":1}"#,
        r#"{"field":"a","kind":"pipe-missing"} i 1 {"b":1}"#,
    ),
    (
        WhenMissing::Fails,
        "a.b",
        r#"{"a":null}"#,
        r#"{"field":"a.b","kind":"pipe-missing"} i 1 {"a":null}"#,
    ),
    (
        WhenMissing::Fails,
        "a.b",
        r#"{"a":[{"b":1}]}"#,
        r#"{"field":"a.b","kind":"pipe-missing"} i 1 {"a":[{"b":1}]}"#,
    ),
    (
        WhenMissing::Fails,
        "a.b",
        r#"{"a.b":1}"#,
        r#"{"field":"a.b","kind":"pipe-missing"} i 1 {"a.b":1}"#,
    ),
    (
        WhenMissing::Fails,
        "a.b.c",
        r#"{"a":{}}"#,
        r#"{"field":"a.b.c","kind":"pipe-missing"} i 1 {"a":{}}"#,
    ),
    (WhenMissing::Passes, "a", r#"{"b":1}"#, r#"is i 1 {"b":1}"#),
    (
        WhenMissing::Passes,
        "a.b",
        r#"{"a":"b"}"#,
        r#"is i 1 {"a":"b"}"#,
    ),
];

/// What follows where the field is not there, the field, the target, the source, and what comes of the document.
const RENAMES: [(WhenMissing, &str, &str, &str, &str); 25] = [
    (
        WhenMissing::Fails,
        "a",
        "b",
        r#"{"a":1}"#,
        r#"is i 1 {"b":1}"#,
    ),
    (
        WhenMissing::Fails,
        "a",
        "b",
        r#"{"a":null}"#,
        r#"is i 1 {"b":null}"#,
    ),
    (
        WhenMissing::Fails,
        "a",
        "b.c",
        r#"{"a":[1]}"#,
        r#"is i 1 {"b":{"c":[1]}}"#,
    ),
    (
        WhenMissing::Passes,
        "a.b",
        "b",
        r#"{"a":{"b":1}}"#,
        r#"is i 1 {"a":{},"b":1}"#,
    ),
    (
        WhenMissing::Fails,
        "a.b",
        "a.c",
        r#"{"a":{"b":1}}"#,
        r#"is i 1 {"a":{"c":1}}"#,
    ),
    (
        WhenMissing::Fails,
        "t",
        "t.b",
        r#"{"t":1}"#,
        r#"is i 1 {"t":{"b":1}}"#,
    ),
    (
        WhenMissing::Fails,
        "o",
        "o.b",
        r#"{"o":{"c":1}}"#,
        r#"is i 1 {"o":{"b":{"c":1}}}"#,
    ),
    (
        WhenMissing::Fails,
        "a.b",
        "a.b.c",
        r#"{"a":{"b":1}}"#,
        r#"is i 1 {"a":{"b":{"c":1}}}"#,
    ),
    (
        WhenMissing::Fails,
        "a",
        "a.b.c",
        r#"{"a":[]}"#,
        r#"is i 1 {"a":{"b":{"c":[]}}}"#,
    ),
    (
        WhenMissing::Fails,
        "a",
        "b",
        r#"{"a":1,"b":2}"#,
        r#"{"field":"b","kind":"pipe-exists"} i 1 {"a":1,"b":2}"#,
    ),
    (
        WhenMissing::Passes,
        "a",
        "b",
        r#"{"a":1,"b":null}"#,
        r#"{"field":"b","kind":"pipe-exists"} i 1 {"a":1,"b":null}"#,
    ),
    (
        WhenMissing::Fails,
        "t",
        "t",
        r#"{"t":1}"#,
        r#"{"field":"t","kind":"pipe-exists"} i 1 {"t":1}"#,
    ),
    (
        WhenMissing::Fails,
        "o",
        "o.b",
        r#"{"o":{"b":1}}"#,
        r#"{"field":"o.b","kind":"pipe-exists"} i 1 {"o":{"b":1}}"#,
    ),
    (
        WhenMissing::Fails,
        "o.b",
        "o",
        r#"{"o":{"b":1}}"#,
        r#"{"field":"o","kind":"pipe-exists"} i 1 {"o":{"b":1}}"#,
    ),
    (
        WhenMissing::Fails,
        "a",
        "b",
        "{}",
        r#"{"field":"a","kind":"pipe-missing"} i 1 {}"#,
    ),
    (
        WhenMissing::Fails,
        "a",
        "b",
        r#"{"b":1}"#,
        r#"{"field":"a","kind":"pipe-missing"} i 1 {"b":1}"#,
    ),
    (
        WhenMissing::Fails,
        "a.b",
        "b.c",
        r#"{"a":[],"b":1}"#,
        r#"{"field":"a.b","kind":"pipe-missing"} i 1 {"a":[],"b":1}"#,
    ),
    (
        WhenMissing::Passes,
        "a",
        "b",
        r#"{"b":1}"#,
        r#"is i 1 {"b":1}"#,
    ),
    (WhenMissing::Passes, "a", "a", "{}", "is i 1 {}"),
    (
        WhenMissing::Fails,
        "a",
        "b.c",
        r#"{"a":1,"b":2}"#,
        r#"{"field":"b.c","kind":"pipe-parent"} i 1 {"a":1,"b":2}"#,
    ),
    (
        WhenMissing::Fails,
        "a",
        "b.c",
        r#"{"a":1,"b":null}"#,
        r#"{"field":"b.c","kind":"pipe-parent"} i 1 {"a":1,"b":null}"#,
    ),
    (
        WhenMissing::Passes,
        "a",
        "b.0",
        r#"{"a":1,"b":[2]}"#,
        r#"{"field":"b.0","kind":"pipe-parent"} i 1 {"a":1,"b":[2]}"#,
    ),
    (
        WhenMissing::Fails,
        "a.b",
        "a.c.d",
        r#"{"a":{"b":1,"c":2}}"#,
        r#"{"field":"a.c.d","kind":"pipe-parent"} i 1 {"a":{"b":1,"c":2}}"#,
    ),
    (
        WhenMissing::Fails,
        "a",
        "b.c.d",
        r#"{"a":1,"b":{}}"#,
        r#"is i 1 {"b":{"c":{"d":1}}}"#,
    ),
    (
        WhenMissing::Fails,
        "a.b.c",
        "a.b.d",
        r#"{"a":{"b":{"c":1}}}"#,
        r#"is i 1 {"a":{"b":{"d":1}}}"#,
    ),
];

#[test]
fn values_are_put(rt: HostRuntime) {
    for row in &SETS {
        assert!(rt;
            makes(rt.alloc(), Edit::Set(row.0), (row.1, row.2), row.3, row.4),
            "{} {} {}",
            row.1,
            row.2,
            row.3
        );
    }
}

#[test]
fn fields_are_removed(rt: HostRuntime) {
    for row in &REMOVALS {
        assert!(rt;
            makes(rt.alloc(), Edit::Remove(row.0), (row.1, ""), row.2, row.3),
            "{} {}",
            row.1,
            row.2
        );
    }
}

#[test]
fn fields_are_renamed(rt: HostRuntime) {
    for row in &RENAMES {
        assert!(rt;
            makes(
                rt.alloc(),
                Edit::Rename(row.0),
                (row.1, row.2),
                row.3,
                row.4
            ),
            "{} {} {}",
            row.1,
            row.2,
            row.3
        );
    }
}

/// Lists in one another, so many.
fn lists(alloc: Global, depth: usize) -> Result<String, AllocError> {
    let before = times(alloc, "[", depth)?;
    let behind = times(alloc, "]", depth)?;
    joined(alloc, &[before.as_str(), behind.as_str()])
}

/// Whether lists, so many in one another, can be put at a field of an empty document, or are too deep there.
fn can_be_put(alloc: Global, field: &str, depth: usize, wanted: bool) -> Result<bool, AllocError> {
    let value = lists(alloc, depth)?;
    let Some(mut doc) = document(alloc, "{}") else {
        return Ok(false);
    };
    match put(alloc, field, value.as_str(), WhenThere::Replaced, &mut doc) {
        Some(Ok(())) => Ok(wanted),
        Some(Err(EditErr::Failed(error))) => {
            let error = error.to_string(alloc)?;
            let told = joined(
                alloc,
                &[r#"{"field":""#, field, r#"","kind":"pipe-depth"}"#],
            )?;
            Ok(!wanted && error.as_str() == told.as_str())
        }
        _ => Ok(false),
    }
}

/// Where lists are put, how many in one another, and whether that can be.
const DEPTHS: [(&str, usize, bool); 6] = [
    ("a", 119, true),
    ("a", 120, false),
    ("a.b", 118, true),
    ("a.b", 119, false),
    ("a.b.c", 117, true),
    ("a.b.c", 118, false),
];

/// The source is at 1, what stands in it at 2, and the deepest list or object at 120.
#[test]
fn lists_stand_120_deep(rt: HostRuntime) -> Result<(), Fail> {
    for row in &DEPTHS {
        let holds = can_be_put(rt.alloc(), row.0, row.1, row.2)?;
        assert!(rt; holds, "{} {}", row.0, row.1);
    }
    Ok(())
}

/// Whether the field `a`, which holds lists in one another, and beside it `b` with a value, makes this where it is renamed.
fn renamed_lists(
    alloc: Global,
    depth: usize,
    beside: &str,
    target: &str,
    wanted: &str,
) -> Result<bool, AllocError> {
    let value = lists(alloc, depth)?;
    let source = joined(
        alloc,
        &[r#"{"a":"#, value.as_str(), r#","b":"#, beside, "}"],
    )?;
    let Some(mut doc) = document(alloc, source.as_str()) else {
        return Ok(false);
    };
    match name(alloc, "a", target, WhenMissing::Fails, &mut doc) {
        Some(Ok(())) => Ok(wanted.is_empty()),
        Some(Err(EditErr::Failed(error))) => Ok(is_text(error.to_string(alloc), wanted)),
        _ => Ok(false),
    }
}

/// How many lists stand in one another, what stands beside them, the target, and the error if there is one.
const DEEP_RENAMES: [(usize, &str, &str, &str); 6] = [
    (119, "1", "c", ""),
    (118, "1", "c.d", ""),
    (118, "{}", "b.d", ""),
    (119, "1", "c.d", r#"{"field":"c.d","kind":"pipe-depth"}"#),
    (119, "1", "b.d", r#"{"field":"b.d","kind":"pipe-parent"}"#),
    (
        119,
        r#"{"d":1}"#,
        "b.d",
        r#"{"field":"b.d","kind":"pipe-exists"}"#,
    ),
];

/// That it would stand too deep is tried last.
#[test]
fn renamed_lists_stand_120_deep(rt: HostRuntime) -> Result<(), Fail> {
    for row in &DEEP_RENAMES {
        let holds = renamed_lists(rt.alloc(), row.0, row.1, row.2, row.3)?;
        assert!(rt; holds, "{} {}", row.0, row.2);
    }
    Ok(())
}
