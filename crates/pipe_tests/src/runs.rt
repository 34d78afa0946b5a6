//! Documents through pipelines.

use super::fixed::{Fixed, Says};
use super::shown::{document, is_text, shown};
use ingest_pipe::{Literal, PipeEnd, Pipeline};
use serde_json::Value;
use std::alloc::{AllocError, Global};
use std::test::Fail;

/// A document behind how its run ends, or the error.
fn end_shown(alloc: Global, end: PipeEnd) -> Result<String, AllocError> {
    match end {
        PipeEnd::Kept(doc) => shown(alloc, "kept", &doc),
        PipeEnd::Dropped(doc) => shown(alloc, "dropped", &doc),
        PipeEnd::Failed(error) => error.to_string(alloc),
        PipeEnd::NoMemory => String::from_str(alloc, "memory"),
    }
}

/// Whether the document `i`, `1` with a source comes to this in a pipeline.
fn comes_to(alloc: Global, pipeline: &str, runner: &mut Fixed, source: &str, wanted: &str) -> bool {
    let Ok(value) = Value::from_str(alloc, pipeline) else {
        return false;
    };
    let Ok(pipeline) = Pipeline::read(alloc, &value) else {
        return false;
    };
    match document(alloc, source) {
        Some(doc) => is_text(end_shown(alloc, pipeline.run(alloc, runner, doc)), wanted),
        None => false,
    }
}

/// A pipeline, what its scripts say, the source of a document, how its run ends, and how many scripts are called.
type Row = (&'static str, [Says; 3], &'static str, &'static str, u64);

/// A pipeline that marks a missing field, and fails where there is a mark.
const MISSES: &str =
    r#"[{"remove":{"field":"x","on_failure":[{"set":{"field":"e","value":true}}]}},{"fail":{"if":"ctx.e","message":"no"}}]"#;

/// A pipeline that puts two values below a field.
const PUTS: &str =
    r#"[{"set":{"field":"a.b","value":1}},{"script":{"source":"ctx.c = ctx.a.b + 1"}},{"rename":{"field":"c","target_field":"a.d"}},{"drop":{"if":"ctx.a.d > 5"}}]"#;

/// A pipeline whose last processor fails of a marked document.
const MARKED: &str =
    r#"[{"drop":{"if":"t"}},{"script":{"source":"s"}},{"fail":{"if":"u","message":"m"}}]"#;

/// Scripts that say no, and change nothing.
const NONE: [Says; 3] = [Says::Lacks, Says::Lacks, Says::Lacks];

const ROWS: [Row; 38] = [
    (
        MISSES,
        [Says::Holds, Says::Lacks, Says::Lacks],
        "{}",
        r#"{"kind":"pipe-fail","message":"no"}"#,
        1,
    ),
    (MISSES, NONE, "{}", r#"kept i 1 {"e":true}"#, 1),
    (MISSES, NONE, r#"{"x":1}"#, "kept i 1 {}", 1),
    (
        MISSES,
        [Says::Fails, Says::Lacks, Says::Lacks],
        "{}",
        r#""fails""#,
        1,
    ),
    (
        PUTS,
        [Says::Marks, Says::Lacks, Says::Lacks],
        r#"{"c":2}"#,
        r#"kept marked 1 {"a":{"b":1,"d":2}}"#,
        2,
    ),
    (
        PUTS,
        [Says::Marks, Says::Holds, Says::Lacks],
        r#"{"c":6}"#,
        r#"dropped marked 1 {"a":{"b":1,"d":6}}"#,
        2,
    ),
    (
        PUTS,
        [Says::Marks, Says::Lacks, Says::Lacks],
        "{}",
        r#"{"field":"c","kind":"pipe-missing"}"#,
        1,
    ),
    (
        PUTS,
        [Says::Marks, Says::Lacks, Says::Lacks],
        r#"{"a":1}"#,
        r#"{"field":"a.b","kind":"pipe-parent"}"#,
        0,
    ),
    (
        MARKED,
        [Says::HoldsOfMarked, Says::Marks, Says::HoldsOfMarked],
        "{}",
        r#"{"kind":"pipe-fail","message":"m"}"#,
        3,
    ),
    (
        MARKED,
        [Says::HoldsOfMarked, Says::Lacks, Says::HoldsOfMarked],
        "{}",
        "kept i 1 {}",
        3,
    ),
    (
        MARKED,
        [Says::Holds, Says::Marks, Says::Holds],
        "{}",
        "dropped i 1 {}",
        1,
    ),
    ("[]", NONE, r#"{"a":[1]}"#, r#"kept i 1 {"a":[1]}"#, 0),
    (
        r#"[{"drop":{}},{"fail":{"message":"m"}}]"#,
        NONE,
        "{}",
        "dropped i 1 {}",
        0,
    ),
    (
        r#"[{"fail":{"message":"m"}},{"drop":{}}]"#,
        NONE,
        "{}",
        r#"{"kind":"pipe-fail","message":"m"}"#,
        0,
    ),
    (
        r#"[{"fail":{"ignore_failure":true,"message":"m"}},{"set":{"field":"a","value":1}}]"#,
        NONE,
        "{}",
        r#"kept i 1 {"a":1}"#,
        0,
    ),
    (
        r#"[{"fail":{"ignore_failure":true,"message":"m","on_failure":[{"drop":{}}]}},{"set":{"field":"a","value":1}}]"#,
        NONE,
        "{}",
        r#"kept i 1 {"a":1}"#,
        0,
    ),
    (
        r#"[{"fail":{"message":"m","on_failure":[{"set":{"field":"b","value":1}}]}},{"set":{"field":"a","value":2}}]"#,
        NONE,
        "{}",
        r#"kept i 1 {"a":2,"b":1}"#,
        0,
    ),
    (
        r#"[{"fail":{"message":"m","on_failure":[{"fail":{"message":"n"}}]}},{"drop":{}}]"#,
        NONE,
        "{}",
        r#"{"kind":"pipe-fail","message":"n"}"#,
        0,
    ),
    (
        r#"[{"fail":{"message":"m","on_failure":[{"set":{"field":"a","value":1}},{"fail":{"message":"n"}}]}},{"drop":{}}]"#,
        NONE,
        "{}",
        r#"{"kind":"pipe-fail","message":"n"}"#,
        0,
    ),
    (
        r#"[{"fail":{"message":"m","on_failure":[{"drop":{}}]}},{"fail":{"message":"n"}}]"#,
        NONE,
        "{}",
        "dropped i 1 {}",
        0,
    ),
    (
        r#"[{"set":{"field":"a","on_failure":[{"drop":{}}],"value":1}}]"#,
        NONE,
        "{}",
        r#"kept i 1 {"a":1}"#,
        0,
    ),
    (
        r#"[{"fail":{"message":"m","on_failure":[{"fail":{"message":"n","on_failure":[{"set":{"field":"a","value":1}}]}},{"set":{"field":"b","value":2}}]}},{"set":{"field":"c","value":3}}]"#,
        NONE,
        "{}",
        r#"kept i 1 {"a":1,"b":2,"c":3}"#,
        0,
    ),
    (
        r#"[{"fail":{"message":"m","on_failure":[{"fail":{"ignore_failure":true,"message":"n"}},{"set":{"field":"b","value":2}}]}}]"#,
        NONE,
        "{}",
        r#"kept i 1 {"b":2}"#,
        0,
    ),
    (
        r#"[{"fail":{"message":"m","on_failure":[{"fail":{"message":"n","on_failure":[{"drop":{}}]}},{"fail":{"message":"o"}}]}},{"fail":{"message":"p"}}]"#,
        NONE,
        "{}",
        "dropped i 1 {}",
        0,
    ),
    (
        r#"[{"drop":{"if":"t"}}]"#,
        [Says::Fails, Says::Lacks, Says::Lacks],
        "{}",
        r#""fails""#,
        1,
    ),
    (
        r#"[{"drop":{"if":"t","ignore_failure":true}}]"#,
        [Says::Fails, Says::Lacks, Says::Lacks],
        "{}",
        "kept i 1 {}",
        1,
    ),
    (
        r#"[{"drop":{"if":"t","on_failure":[{"set":{"field":"a","value":1}}]}}]"#,
        [Says::Fails, Says::Lacks, Says::Lacks],
        "{}",
        r#"kept i 1 {"a":1}"#,
        1,
    ),
    (
        r#"[{"fail":{"if":"t","message":"m","on_failure":[{"drop":{}}]}}]"#,
        NONE,
        "{}",
        "kept i 1 {}",
        1,
    ),
    (
        r#"[{"script":{"source":"s"}}]"#,
        [Says::Marks, Says::Lacks, Says::Lacks],
        r#"{"a":1}"#,
        r#"kept marked 1 {"a":1}"#,
        1,
    ),
    (
        r#"[{"script":{"source":"s"}}]"#,
        [Says::Fails, Says::Lacks, Says::Lacks],
        "{}",
        r#""fails""#,
        1,
    ),
    (
        r#"[{"script":{"if":"t","source":"s"}}]"#,
        [Says::Lacks, Says::Marks, Says::Lacks],
        "{}",
        "kept i 1 {}",
        1,
    ),
    (
        r#"[{"script":{"if":"t","source":"s"}}]"#,
        [Says::Holds, Says::Marks, Says::Lacks],
        "{}",
        "kept marked 1 {}",
        2,
    ),
    (
        r#"[{"script":{"source":"s"}},{"script":{"on_failure":[{"set":{"field":"a","value":1}}],"source":"s"}}]"#,
        [Says::Marks, Says::Fails, Says::Lacks],
        "{}",
        r#"kept marked 1 {"a":1}"#,
        2,
    ),
    (
        r#"[{"script":{"on_failure":[{"script":{"source":"s"}},{"drop":{"if":"t"}}],"source":"s"}}]"#,
        [Says::Marks, Says::HoldsOfMarked, Says::Fails],
        "{}",
        "dropped marked 1 {}",
        3,
    ),
    (
        r#"[{"rename":{"field":"a","on_failure":[{"remove":{"field":"a"}}],"target_field":"b.c"}}]"#,
        NONE,
        r#"{"a":1,"b":2}"#,
        r#"kept i 1 {"b":2}"#,
        0,
    ),
    (
        r#"[{"rename":{"field":"a","ignore_failure":true,"target_field":"b.c"}}]"#,
        NONE,
        r#"{"a":1,"b":2}"#,
        r#"kept i 1 {"a":1,"b":2}"#,
        0,
    ),
    (
        r#"[{"set":{"field":"_id","value":"2"}},{"drop":{}}]"#,
        NONE,
        "{}",
        "dropped i 2 {}",
        0,
    ),
    (
        r#"[{"set":{"field":"_index","value":1}}]"#,
        NONE,
        "{}",
        r#"{"field":"_index","kind":"pipe-type"}"#,
        0,
    ),
];

/// Whether a row's document comes to what it says.
fn row_holds(alloc: Global, row: &Row) -> bool {
    let mut runner = Fixed {
        alloc,
        scripts: &row.1,
        cost: 1,
        spent: 0,
    };
    comes_to(alloc, row.0, &mut runner, row.2, row.3) && runner.spent == row.4
}

#[test]
fn documents_run_through_pipelines(rt: HostRuntime) {
    for (number, row) in ROWS.iter().enumerate() {
        assert!(rt; row_holds(rt.alloc(), row), "row {number}");
    }
}

/// What calls cost is added to what was spent before, and stands still at the end of its type.
#[test]
fn costs_are_added(rt: HostRuntime) {
    let alloc = rt.alloc();
    let mut runner = Fixed {
        alloc,
        scripts: &NONE,
        cost: 9_223_372_036_854_775_808,
        spent: 1,
    };
    assert!(rt;
        comes_to(
            alloc,
            r#"[{"drop":{"if":"t"}}]"#,
            &mut runner,
            "{}",
            "kept i 1 {}"
        )
    );
    assert!(rt; runner.spent == 9_223_372_036_854_775_809);
    assert!(rt;
        comes_to(
            alloc,
            r#"[{"drop":{"if":"t"}}]"#,
            &mut runner,
            "{}",
            "kept i 1 {}"
        )
    );
    assert!(rt; runner.spent == 18_446_744_073_709_551_615);
}

#[test]
fn values_are_held(rt: HostRuntime) -> Result<(), Fail> {
    let alloc = rt.alloc();
    let empty = Literal::empty(alloc);
    let text = empty.get().to_string(alloc)?;
    assert!(rt; text.as_str() == "{}");
    let value = Value::Bool(true);
    let copy = Literal::copy_of(&value)?;
    let text = copy.get().to_string(alloc)?;
    assert!(rt; text.as_str() == "true");
    Ok(())
}
