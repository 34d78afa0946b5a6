//! Starts of runs over lines.
use crate::binding::starts_so;
use json_reading::Scratch;
use write_ctx::WriteKind;

/// A row: the parameters, the line, and the heap with the arguments, or the cause why there is none.
type Row = (&'static str, &'static str, &'static str);

/// Lines of updates.
const UPDATES: [Row; 38] = [
    (
        "{}",
        r#"{"_id":"1","_source":{}}"#,
        "{ }! { } { '_id'='1' '_index'='docs' '_now'=0i '_routing'=null '_source'=#1 '_version'=1i 'op'='index' }_source,op, | #0 #2 ",
    ),
    (
        r#"{"p":[{}]}"#,
        r#"{"_version":9,"_source":{"b":[1,{}],"a":3000000000},"_routing":"r","_now":-7,"_index":"i","_id":""}"#,
        "{ }! [ #0 ]! { 'p'=#1 }! { } [ 1i #3 ] { 'a'=3000000000 'b'=#4 } { '_id'='' '_index'='i' '_now'=-7i '_routing'='r' '_source'=#5 '_version'=9i 'op'='index' }_source,op, | #2 #6 ",
    ),
    (
        "{}",
        r#"{"_id":"1","_routing":null,"_source":{"_id":7,"op":"none"}}"#,
        "{ }! { '_id'=7i 'op'='none' } { '_id'='1' '_index'='docs' '_now'=0i '_routing'=null '_source'=#1 '_version'=1i 'op'='index' }_source,op, | #0 #2 ",
    ),
    (
        "{}",
        r#"{"_id":7,"_id":"1","_source":[],"_source":{"k":1,"k":2}}"#,
        "{ }! { 'k'=2i } { '_id'='1' '_index'='docs' '_now'=0i '_routing'=null '_source'=#1 '_version'=1i 'op'='index' }_source,op, | #0 #2 ",
    ),
    (
        "{}",
        r#"{"_id":"1","_now":9223372036854775807,"_source":{},"_version":-2147483649}"#,
        "{ }! { } { '_id'='1' '_index'='docs' '_now'=9223372036854775807 '_routing'=null '_source'=#1 '_version'=-2147483649 'op'='index' }_source,op, | #0 #2 ",
    ),
    ("{}", r#"{"_source":{}}"#, "field"),
    ("{}", r#"{"_id":"1"}"#, "field"),
    ("{}", r#"{"_id":null,"_source":{}}"#, "field"),
    ("{}", r#"{"_id":1,"_source":{}}"#, "field"),
    ("{}", r#"{"_id":["1"],"_source":{}}"#, "field"),
    ("{}", r#"{"_id":"1","_id":1,"_source":{}}"#, "field"),
    ("{}", r#"{"_id":"1","_source":null}"#, "field"),
    ("{}", r#"{"_id":"1","_source":[]}"#, "field"),
    ("{}", r#"{"_id":"1","_source":"{}"}"#, "field"),
    ("{}", r#"{"_id":"1","_index":null,"_source":{}}"#, "field"),
    ("{}", r#"{"_id":"1","_index":1,"_source":{}}"#, "field"),
    ("{}", r#"{"_id":"1","_routing":1,"_source":{}}"#, "field"),
    ("{}", r#"{"_id":"1","_routing":{},"_source":{}}"#, "field"),
    ("{}", r#"{"_id":"1","_now":null,"_source":{}}"#, "field"),
    ("{}", r#"{"_id":"1","_now":"0","_source":{}}"#, "field"),
    ("{}", r#"{"_id":"1","_now":true,"_source":{}}"#, "field"),
    ("{}", r#"{"_id":"1","_version":null,"_source":{}}"#, "field"),
    ("{}", r#"{"_id":"1","_version":"1","_source":{}}"#, "field"),
    ("{}", r#"{"_id":"1","_version":[1],"_source":{}}"#, "field"),
    ("{}", r#"{"_id":"1","_source":{},"op":"index"}"#, "field"),
    ("{}", r#"{"_id":"1","_source":{},"x":null}"#, "field"),
    ("{}", r#"{"":0,"_id":"1","_source":{}}"#, "field"),
    ("{}", r#"{"_ID":"1","_source":{}}"#, "field"),
    ("{}", r#"[{"_id":"1","_source":{}}]"#, "field"),
    ("{}", "null", "field"),
    ("{}", r#"{"_id":"1","_source":{"n":1.5}}"#, "number"),
    ("{}", r#"{"_id":"1","_source":{"n":[-0]}}"#, "number"),
    (
        "{}",
        r#"{"_id":"1","_now":9223372036854775808,"_source":{}}"#,
        "number",
    ),
    ("{}", r#"{"x":1e2}"#, "number"),
    (r#"{"p":1.5}"#, "[]", "number"),
    (r#"{"p":1.5}"#, "[", "syntax"),
    ("{}", r#"{"_id":"1","_source":{}"#, "syntax"),
    ("{}", "", "syntax"),
];

/// Lines of ingests.
const INGESTS: [Row; 24] = [
    (
        "{}",
        r#"{"_source":{}}"#,
        "{ }! { '_id'='' '_index'='docs' } | #0 #1 ",
    ),
    (
        r#"{"k":1}"#,
        r#"{"_id":"1","_index":"i","_source":{"z":{"_id":2},"a":[1],"Z":null,"_ie":4,"_":5}}"#,
        "{ 'k'=1i }! [ 1i ] { '_id'=2i } { 'Z'=null '_'=5i '_id'='1' '_ie'=4i '_index'='i' 'a'=#1 'z'=#2 } | #0 #3 ",
    ),
    (
        "{}",
        r#"{"_id":"2","_source":{"op":"none"}}"#,
        "{ }! { '_id'='2' '_index'='docs' 'op'='none' } | #0 #1 ",
    ),
    (
        "{}",
        r#"{"_index":1,"_index":"x","_source":{"_id":1},"_source":{"a":2}}"#,
        "{ }! { '_id'='' '_index'='x' 'a'=2i } | #0 #1 ",
    ),
    ("{}", "{}", "field"),
    ("{}", r#"{"_id":"1"}"#, "field"),
    ("{}", r#"{"_source":null}"#, "field"),
    ("{}", r#"{"_source":[{}]}"#, "field"),
    ("{}", r#"{"_source":{"_id":"1"}}"#, "field"),
    ("{}", r#"{"_source":{"_index":null}}"#, "field"),
    ("{}", r#"{"_id":null,"_source":{}}"#, "field"),
    ("{}", r#"{"_id":1,"_source":{}}"#, "field"),
    ("{}", r#"{"_index":null,"_source":{}}"#, "field"),
    ("{}", r#"{"_index":{},"_source":{}}"#, "field"),
    ("{}", r#"{"_now":0,"_source":{}}"#, "field"),
    ("{}", r#"{"_routing":null,"_source":{}}"#, "field"),
    ("{}", r#"{"_version":1,"_source":{}}"#, "field"),
    ("{}", r#"{"_source":{},"a":1}"#, "field"),
    ("{}", r#""_source""#, "field"),
    ("{}", r#"{"_source":{"a":1.0}}"#, "number"),
    ("{}", r#"{"_id":0.5,"_source":{}}"#, "number"),
    (r#"{"p":[{"q":0.5}]}"#, r#"{"_source":{}}"#, "number"),
    ("{}", r#"{"_source":{}}}"#, "syntax"),
    ("{}", "{_source:{}}", "syntax"),
];

#[test]
fn updates_start(rt: HostRuntime) {
    let mut scratch = Scratch::new(rt.alloc());
    for (params, line, wanted) in &UPDATES {
        let as_wanted = starts_so(
            rt.alloc(),
            WriteKind::Update,
            *params,
            line.as_bytes(),
            *wanted,
            &mut scratch,
        );
        assert!(rt; as_wanted, "{line}");
    }
}

#[test]
fn ingests_start(rt: HostRuntime) {
    let mut scratch = Scratch::new(rt.alloc());
    for (params, line, wanted) in &INGESTS {
        let as_wanted = starts_so(
            rt.alloc(),
            WriteKind::Ingest,
            *params,
            line.as_bytes(),
            *wanted,
            &mut scratch,
        );
        assert!(rt; as_wanted, "{line}");
    }
}

#[test]
fn no_text_starts_nothing(rt: HostRuntime) {
    let mut scratch = Scratch::new(rt.alloc());
    let line = b"{\"_id\":\"\xff\",\"_source\":{}}";
    let as_wanted = starts_so(
        rt.alloc(),
        WriteKind::Update,
        "{}",
        line,
        "syntax",
        &mut scratch,
    );
    assert!(rt; as_wanted);
}
