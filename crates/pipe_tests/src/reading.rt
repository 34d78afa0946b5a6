//! Pipelines with their answers: the path of the first place that is wrong.

use ingest_pipe::{PipeErr, Pipeline};
use serde_json::Value;
use std::alloc::Global;

/// The answer where nothing is wrong.
pub const OK: &str = "";

/// Whether a pipeline is answered so.
pub fn answers(alloc: Global, text: &str, wanted: &str) -> bool {
    let Ok(value) = Value::from_str(alloc, text) else {
        return false;
    };
    match Pipeline::read(alloc, &value) {
        Ok(_) => wanted.is_empty(),
        Err(PipeErr::Bad(path)) => path.as_str() == wanted,
        Err(PipeErr::NoMemory) => false,
    }
}

/// Pipelines that are no lists, processors that have no form, and kinds.
const KINDS: [(&str, &str); 34] = [
    ("[]", OK),
    ("{}", "pipeline"),
    ("null", "pipeline"),
    (r#""drop""#, "pipeline"),
    ("1.5", "pipeline"),
    ("[null]", "pipeline.0"),
    ("[1]", "pipeline.0"),
    (r#"["drop"]"#, "pipeline.0"),
    ("[[]]", "pipeline.0"),
    ("[{}]", "pipeline.0"),
    (r#"[{"drop":{},"fail":{"message":"m"}}]"#, "pipeline.0"),
    (r#"[{"a":1,"b":1}]"#, "pipeline.0"),
    (r#"[{"drop":{}},{}]"#, "pipeline.1"),
    (r#"[{},{"sett":{}}]"#, "pipeline.0"),
    (r#"[{"sett":{}}]"#, "pipeline.0.sett"),
    (r#"[{"sett":1}]"#, "pipeline.0.sett"),
    (r#"[{"Drop":{}}]"#, "pipeline.0.Drop"),
    (r#"[{"":{}}]"#, "pipeline.0."),
    (r#"[{"a.b":{}}]"#, "pipeline.0.a.b"),
    (r#"[{"é":{}}]"#, "pipeline.0.é"),
    (r#"[{"on_failure":[]}]"#, "pipeline.0.on_failure"),
    (r#"[{"drop":null}]"#, "pipeline.0.drop"),
    (r#"[{"drop":[]}]"#, "pipeline.0.drop"),
    (r#"[{"script":"ctx.a = 1"}]"#, "pipeline.0.script"),
    (r#"[{"set":true}]"#, "pipeline.0.set"),
    (r#"[{"remove":1}]"#, "pipeline.0.remove"),
    (r#"[{"rename":[{}]}]"#, "pipeline.0.rename"),
    (r#"[{"fail":"m"}]"#, "pipeline.0.fail"),
    (r#"[{"drop":1,"drop":{}}]"#, OK),
    (r#"[{"drop":{},"drop":1}]"#, "pipeline.0.drop"),
    (
        r#"[{"drop":{}},{"drop":{}},{"set":{}}]"#,
        "pipeline.2.set.field",
    ),
    (r#"[{"set":{}},{"drop":1}]"#, "pipeline.0.set.field"),
    (r#"[{"drop":{"if":1}},{}]"#, "pipeline.0.drop.if"),
    (r#"[{"drop":{}},{"drop":{}}]"#, OK),
];

/// Keys that a kind has and has not, and those that it lacks.
const KEYS: [(&str, &str); 52] = [
    (r#"[{"script":{"source":""}}]"#, OK),
    (r#"[{"script":{"params":{},"source":""}}]"#, OK),
    (r#"[{"script":{}}]"#, "pipeline.0.script.source"),
    (r#"[{"script":{"params":{}}}]"#, "pipeline.0.script.source"),
    (
        r#"[{"script":{"message":"","source":""}}]"#,
        "pipeline.0.script.message",
    ),
    (
        r#"[{"script":{"field":"a","source":""}}]"#,
        "pipeline.0.script.field",
    ),
    (
        r#"[{"script":{"ignore_missing":true,"source":""}}]"#,
        "pipeline.0.script.ignore_missing",
    ),
    (r#"[{"set":{"field":"a","value":null}}]"#, OK),
    (
        r#"[{"set":{"field":"a","override":false,"value":null}}]"#,
        OK,
    ),
    (r#"[{"set":{}}]"#, "pipeline.0.set.field"),
    (r#"[{"set":{"value":1}}]"#, "pipeline.0.set.field"),
    (r#"[{"set":{"field":"a"}}]"#, "pipeline.0.set.value"),
    (
        r#"[{"set":{"field":"a","ignore_missing":true,"value":1}}]"#,
        "pipeline.0.set.ignore_missing",
    ),
    (
        r#"[{"set":{"field":"a","target_field":"b","value":1}}]"#,
        "pipeline.0.set.target_field",
    ),
    (
        r#"[{"set":{"field":"a","source":"","value":1}}]"#,
        "pipeline.0.set.source",
    ),
    (
        r#"[{"set":{"field":"a","params":{},"value":1}}]"#,
        "pipeline.0.set.params",
    ),
    (r#"[{"remove":{"field":"a"}}]"#, OK),
    (r#"[{"remove":{"field":"a","ignore_missing":true}}]"#, OK),
    (r#"[{"remove":{}}]"#, "pipeline.0.remove.field"),
    (
        r#"[{"remove":{"ignore_missing":true}}]"#,
        "pipeline.0.remove.field",
    ),
    (
        r#"[{"remove":{"field":"a","value":1}}]"#,
        "pipeline.0.remove.value",
    ),
    (
        r#"[{"remove":{"field":"a","override":true}}]"#,
        "pipeline.0.remove.override",
    ),
    (
        r#"[{"remove":{"field":"a","target_field":"b"}}]"#,
        "pipeline.0.remove.target_field",
    ),
    (r#"[{"rename":{"field":"a","target_field":"b"}}]"#, OK),
    (
        r#"[{"rename":{"field":"a","ignore_missing":false,"target_field":"a"}}]"#,
        OK,
    ),
    (r#"[{"rename":{}}]"#, "pipeline.0.rename.field"),
    (
        r#"[{"rename":{"target_field":"b"}}]"#,
        "pipeline.0.rename.field",
    ),
    (
        r#"[{"rename":{"field":"a"}}]"#,
        "pipeline.0.rename.target_field",
    ),
    (
        r#"[{"rename":{"field":"a","override":true,"target_field":"b"}}]"#,
        "pipeline.0.rename.override",
    ),
    (
        r#"[{"rename":{"field":"a","target_field":"b","value":1}}]"#,
        "pipeline.0.rename.value",
    ),
    (r#"[{"drop":{}}]"#, OK),
    (r#"[{"drop":{"field":"a"}}]"#, "pipeline.0.drop.field"),
    (r#"[{"drop":{"message":"m"}}]"#, "pipeline.0.drop.message"),
    (r#"[{"drop":{"source":""}}]"#, "pipeline.0.drop.source"),
    (r#"[{"fail":{"message":""}}]"#, OK),
    (r#"[{"fail":{}}]"#, "pipeline.0.fail.message"),
    (
        r#"[{"fail":{"field":"a","message":""}}]"#,
        "pipeline.0.fail.field",
    ),
    (
        r#"[{"fail":{"message":"","source":""}}]"#,
        "pipeline.0.fail.source",
    ),
    (r#"[{"drop":{"z":1,"B":2,"a":3}}]"#, "pipeline.0.drop.B"),
    (r#"[{"drop":{"é":1,"z":1}}]"#, "pipeline.0.drop.z"),
    (r#"[{"drop":{"":1,"If":1}}]"#, "pipeline.0.drop."),
    (r#"[{"drop":{"If":1}}]"#, "pipeline.0.drop.If"),
    (r#"[{"drop":{"a.b":1}}]"#, "pipeline.0.drop.a.b"),
    (r#"[{"drop":{"if":1,"z":1}}]"#, "pipeline.0.drop.z"),
    (r#"[{"drop":{"on_failure":1,"z":1}}]"#, "pipeline.0.drop.z"),
    (r#"[{"set":{"z":1}}]"#, "pipeline.0.set.z"),
    (
        r#"[{"drop":{"if":"","ignore_failure":true,"on_failure":[{"drop":{}}]}}]"#,
        OK,
    ),
    (r#"[{"drop":{"if":1,"if":""}}]"#, OK),
    (r#"[{"drop":{"if":"","if":1}}]"#, "pipeline.0.drop.if"),
    (r#"[{"set":{"value":1.5}}]"#, "pipeline.0.set.value"),
    (
        r#"[{"rename":{"target_field":1}}]"#,
        "pipeline.0.rename.target_field",
    ),
    (
        r#"[{"remove":{"ignore_missing":1}}]"#,
        "pipeline.0.remove.ignore_missing",
    ),
];

/// Several keys that are wrong, or lacking: the one that is told.
const ORDERS: [(&str, &str); 24] = [
    (
        r#"[{"rename":{"field":1,"if":1,"ignore_failure":1,"ignore_missing":1,"on_failure":1,"target_field":1}}]"#,
        "pipeline.0.rename.field",
    ),
    (
        r#"[{"rename":{"field":"a","if":1,"ignore_failure":1,"ignore_missing":1,"on_failure":1,"target_field":1}}]"#,
        "pipeline.0.rename.if",
    ),
    (
        r#"[{"rename":{"if":"","ignore_failure":1,"ignore_missing":1,"on_failure":1,"target_field":1}}]"#,
        "pipeline.0.rename.ignore_failure",
    ),
    (
        r#"[{"rename":{"if":"","ignore_failure":true,"ignore_missing":1,"on_failure":1,"target_field":1}}]"#,
        "pipeline.0.rename.ignore_missing",
    ),
    (
        r#"[{"rename":{"ignore_failure":true,"ignore_missing":true,"on_failure":1,"target_field":1}}]"#,
        "pipeline.0.rename.on_failure",
    ),
    (
        r#"[{"rename":{"ignore_failure":true,"on_failure":[1],"target_field":1}}]"#,
        "pipeline.0.rename.on_failure.0",
    ),
    (
        r#"[{"rename":{"on_failure":[{"drop":{}}],"target_field":1}}]"#,
        "pipeline.0.rename.target_field",
    ),
    (
        r#"[{"rename":{"on_failure":[{"drop":{}}],"target_field":"a"}}]"#,
        "pipeline.0.rename.field",
    ),
    (
        r#"[{"script":{"if":null,"params":1,"source":1}}]"#,
        "pipeline.0.script.if",
    ),
    (
        r#"[{"script":{"params":1,"source":1}}]"#,
        "pipeline.0.script.params",
    ),
    (
        r#"[{"script":{"params":{},"source":1}}]"#,
        "pipeline.0.script.source",
    ),
    (
        r#"[{"script":{"on_failure":[],"params":1,"source":1}}]"#,
        "pipeline.0.script.on_failure",
    ),
    (
        r#"[{"set":{"field":1,"override":1,"value":1.5}}]"#,
        "pipeline.0.set.field",
    ),
    (
        r#"[{"set":{"override":1,"value":1.5}}]"#,
        "pipeline.0.set.override",
    ),
    (
        r#"[{"set":{"on_failure":null,"override":1,"value":1.5}}]"#,
        "pipeline.0.set.on_failure",
    ),
    (
        r#"[{"fail":{"message":1,"on_failure":1}}]"#,
        "pipeline.0.fail.message",
    ),
    (
        r#"[{"fail":{"on_failure":[1]}}]"#,
        "pipeline.0.fail.on_failure.0",
    ),
    (
        r#"[{"fail":{"on_failure":[{"fail":{}}]}}]"#,
        "pipeline.0.fail.on_failure.0.fail.message",
    ),
    (
        r#"[{"fail":{"on_failure":[{"fail":{"message":""}}]}}]"#,
        "pipeline.0.fail.message",
    ),
    (
        r#"[{"drop":{"on_failure":[{"drop":{}},{"sett":{}}]}}]"#,
        "pipeline.0.drop.on_failure.1.sett",
    ),
    (
        r#"[{"drop":{"on_failure":[{"drop":{"on_failure":{}}}]}}]"#,
        "pipeline.0.drop.on_failure.0.drop.on_failure",
    ),
    (
        r#"[{"drop":{"on_failure":[]}}]"#,
        "pipeline.0.drop.on_failure",
    ),
    (
        r#"[{"drop":{"on_failure":{}}}]"#,
        "pipeline.0.drop.on_failure",
    ),
    (
        r#"[{"drop":{"on_failure":""}}]"#,
        "pipeline.0.drop.on_failure",
    ),
];

/// What stands at a key.
const FORMS: [(&str, &str); 62] = [
    (r#"[{"drop":{"if":null}}]"#, "pipeline.0.drop.if"),
    (r#"[{"drop":{"if":true}}]"#, "pipeline.0.drop.if"),
    (r#"[{"drop":{"if":[]}}]"#, "pipeline.0.drop.if"),
    (r#"[{"drop":{"if":{}}}]"#, "pipeline.0.drop.if"),
    (
        r#"[{"drop":{"ignore_failure":0}}]"#,
        "pipeline.0.drop.ignore_failure",
    ),
    (
        r#"[{"drop":{"ignore_failure":null}}]"#,
        "pipeline.0.drop.ignore_failure",
    ),
    (
        r#"[{"drop":{"ignore_failure":"true"}}]"#,
        "pipeline.0.drop.ignore_failure",
    ),
    (r#"[{"drop":{"ignore_failure":false}}]"#, OK),
    (
        r#"[{"remove":{"field":"a","ignore_missing":null}}]"#,
        "pipeline.0.remove.ignore_missing",
    ),
    (
        r#"[{"remove":{"field":"a","ignore_missing":""}}]"#,
        "pipeline.0.remove.ignore_missing",
    ),
    (
        r#"[{"set":{"field":"a","override":null,"value":1}}]"#,
        "pipeline.0.set.override",
    ),
    (
        r#"[{"set":{"field":"a","override":[],"value":1}}]"#,
        "pipeline.0.set.override",
    ),
    (r#"[{"fail":{"message":null}}]"#, "pipeline.0.fail.message"),
    (r#"[{"fail":{"message":["m"]}}]"#, "pipeline.0.fail.message"),
    (
        r#"[{"script":{"source":null}}]"#,
        "pipeline.0.script.source",
    ),
    (r#"[{"script":{"source":{}}}]"#, "pipeline.0.script.source"),
    (
        r#"[{"script":{"params":null,"source":""}}]"#,
        "pipeline.0.script.params",
    ),
    (
        r#"[{"script":{"params":[],"source":""}}]"#,
        "pipeline.0.script.params",
    ),
    (
        r#"[{"script":{"params":"{}","source":""}}]"#,
        "pipeline.0.script.params",
    ),
    (
        r#"[{"script":{"params":{"a":1.5},"source":""}}]"#,
        "pipeline.0.script.params",
    ),
    (
        r#"[{"script":{"params":{"a":[{"b":-0}]},"source":""}}]"#,
        "pipeline.0.script.params",
    ),
    (r#"[{"script":{"params":{"a":1.5,"a":1},"source":""}}]"#, OK),
    (
        r#"[{"script":{"params":{"a":[{"b":-1},null,true,"1.5"]},"source":""}}]"#,
        OK,
    ),
    (
        r#"[{"set":{"field":"a","value":1.0}}]"#,
        "pipeline.0.set.value",
    ),
    (
        r#"[{"set":{"field":"a","value":1e3}}]"#,
        "pipeline.0.set.value",
    ),
    (
        r#"[{"set":{"field":"a","value":-0}}]"#,
        "pipeline.0.set.value",
    ),
    (r#"[{"set":{"field":"a","value":0}}]"#, OK),
    (r#"[{"set":{"field":"a","value":9223372036854775807}}]"#, OK),
    (
        r#"[{"set":{"field":"a","value":9223372036854775808}}]"#,
        "pipeline.0.set.value",
    ),
    (
        r#"[{"set":{"field":"a","value":-9223372036854775808}}]"#,
        OK,
    ),
    (
        r#"[{"set":{"field":"a","value":-9223372036854775809}}]"#,
        "pipeline.0.set.value",
    ),
    (
        r#"[{"set":{"field":"a","value":[1,[2.5]]}}]"#,
        "pipeline.0.set.value",
    ),
    (
        r#"[{"set":{"field":"a","value":{"b":{"c":0.1}}}}]"#,
        "pipeline.0.set.value",
    ),
    (r#"[{"set":{"field":"a","value":{"1.5":"1.5"}}}]"#, OK),
    (
        r#"[{"set":{"field":null,"value":1}}]"#,
        "pipeline.0.set.field",
    ),
    (
        r#"[{"set":{"field":["a"],"value":1}}]"#,
        "pipeline.0.set.field",
    ),
    (
        r#"[{"set":{"field":"","value":1}}]"#,
        "pipeline.0.set.field",
    ),
    (
        r#"[{"set":{"field":".","value":1}}]"#,
        "pipeline.0.set.field",
    ),
    (
        r#"[{"set":{"field":"a.","value":1}}]"#,
        "pipeline.0.set.field",
    ),
    (
        r#"[{"set":{"field":".a","value":1}}]"#,
        "pipeline.0.set.field",
    ),
    (
        r#"[{"set":{"field":"a..b","value":1}}]"#,
        "pipeline.0.set.field",
    ),
    (r#"[{"set":{"field":" ","value":1}}]"#, OK),
    (r#"[{"set":{"field":"_index","value":1}}]"#, OK),
    (r#"[{"set":{"field":"_id","value":1}}]"#, OK),
    (r#"[{"set":{"field":"_source","value":1}}]"#, OK),
    (
        r#"[{"set":{"field":"_index.a","value":1}}]"#,
        "pipeline.0.set.field",
    ),
    (
        r#"[{"set":{"field":"_id.a","value":1}}]"#,
        "pipeline.0.set.field",
    ),
    (
        r#"[{"set":{"field":"_id.","value":1}}]"#,
        "pipeline.0.set.field",
    ),
    (r#"[{"set":{"field":"a._id","value":1}}]"#, OK),
    (r#"[{"set":{"field":"_ids.a","value":1}}]"#, OK),
    (r#"[{"set":{"field":"_Id","value":1}}]"#, OK),
    (
        r#"[{"remove":{"field":"_index"}}]"#,
        "pipeline.0.remove.field",
    ),
    (r#"[{"remove":{"field":"_id"}}]"#, "pipeline.0.remove.field"),
    (
        r#"[{"remove":{"field":"_index.a"}}]"#,
        "pipeline.0.remove.field",
    ),
    (r#"[{"remove":{"field":"_indices"}}]"#, OK),
    (
        r#"[{"rename":{"field":"_id","target_field":"b"}}]"#,
        "pipeline.0.rename.field",
    ),
    (
        r#"[{"rename":{"field":"a","target_field":"_id"}}]"#,
        "pipeline.0.rename.target_field",
    ),
    (
        r#"[{"rename":{"field":"a","target_field":"_index"}}]"#,
        "pipeline.0.rename.target_field",
    ),
    (
        r#"[{"rename":{"field":"a","target_field":"_id.a"}}]"#,
        "pipeline.0.rename.target_field",
    ),
    (
        r#"[{"rename":{"field":"a","target_field":"b."}}]"#,
        "pipeline.0.rename.target_field",
    ),
    (
        r#"[{"rename":{"field":"a","target_field":null}}]"#,
        "pipeline.0.rename.target_field",
    ),
    (r#"[{"rename":{"field":"a.b","target_field":"b.a"}}]"#, OK),
];

#[test]
fn kinds_are_answered(rt: HostRuntime) {
    for row in &KINDS {
        assert!(rt; answers(rt.alloc(), row.0, row.1), "{}", row.0);
    }
}

#[test]
fn keys_are_answered(rt: HostRuntime) {
    for row in &KEYS {
        assert!(rt; answers(rt.alloc(), row.0, row.1), "{}", row.0);
    }
}

#[test]
fn keys_are_answered_in_their_order(rt: HostRuntime) {
    for row in &ORDERS {
        assert!(rt; answers(rt.alloc(), row.0, row.1), "{}", row.0);
    }
}

#[test]
fn forms_are_answered(rt: HostRuntime) {
    for row in &FORMS {
        assert!(rt; answers(rt.alloc(), row.0, row.1), "{}", row.0);
    }
}
