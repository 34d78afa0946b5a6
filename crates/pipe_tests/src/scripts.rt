//! The scripts of pipelines, in the order in which they are met.

use super::shown::is_text;
use ingest_pipe::{PipeScript, Pipeline};
use serde_json::Value;
use std::alloc::{AllocError, Global};

/// A script: its path, whether it tests or changes, its parameters and its text.
fn script_shown(alloc: Global, script: &PipeScript) -> Result<String, AllocError> {
    let params = script.params.get().to_string(alloc)?;
    let path = script.path.as_str();
    let word = if script.test { "tests" } else { "changes" };
    let text = script.text.as_str();
    format!(in alloc; "{path} {word} {params} {text};")
}

/// The scripts of a pipeline.
fn scripts_shown(alloc: Global, pipeline: &Pipeline) -> Result<String, AllocError> {
    let mut shown = String::new(alloc);
    for script in pipeline.scripts() {
        let one = script_shown(alloc, script)?;
        shown.push_str(one.as_str())?;
    }
    Ok(shown)
}

/// Whether a pipeline has these scripts.
fn has_scripts(alloc: Global, text: &str, wanted: &str) -> bool {
    let Ok(value) = Value::from_str(alloc, text) else {
        return false;
    };
    match Pipeline::read(alloc, &value) {
        Ok(pipeline) => is_text(scripts_shown(alloc, &pipeline), wanted),
        Err(_) => false,
    }
}

/// Pipelines and their scripts.
const ROWS: [(&str, &str); 12] = [
    ("[]", ""),
    (
        r#"[{"drop":{}},{"fail":{"message":"source"}},{"set":{"field":"if","value":{"source":""}}}]"#,
        "",
    ),
    (
        r#"[{"script":{"source":"s"}}]"#,
        "pipeline.0.script.source changes {} s;",
    ),
    (
        r#"[{"script":{"params":{"b":[1,null],"a":""},"source":"s"}}]"#,
        r#"pipeline.0.script.source changes {"a":"","b":[1,null]} s;"#,
    ),
    (r#"[{"drop":{"if":""}}]"#, "pipeline.0.drop.if tests {} ;"),
    (
        r#"[{"fail":{"if":"t","message":"m"}}]"#,
        "pipeline.0.fail.if tests {} t;",
    ),
    (
        r#"[{"script":{"if":"t","params":{"a":1},"source":"s"}}]"#,
        r#"pipeline.0.script.if tests {} t;pipeline.0.script.source changes {"a":1} s;"#,
    ),
    (
        r#"[{"script":{"source":"s","on_failure":[{"script":{"source":"u"}}],"if":"t"}}]"#,
        "pipeline.0.script.if tests {} t;pipeline.0.script.on_failure.0.script.source changes {} u;pipeline.0.script.source changes {} s;",
    ),
    (
        r#"[{"remove":{"field":"a","on_failure":[{"drop":{"if":"u"}},{"drop":{"if":"v"}}]}},{"rename":{"field":"a","target_field":"b","if":"w"}}]"#,
        "pipeline.0.remove.on_failure.0.drop.if tests {} u;pipeline.0.remove.on_failure.1.drop.if tests {} v;pipeline.1.rename.if tests {} w;",
    ),
    (
        r#"[{"drop":{"on_failure":[{"drop":{"if":"t","on_failure":[{"script":{"source":"s"}}]}},{"drop":{"if":"u"}}]}}]"#,
        "pipeline.0.drop.on_failure.0.drop.if tests {} t;pipeline.0.drop.on_failure.0.drop.on_failure.0.script.source changes {} s;pipeline.0.drop.on_failure.1.drop.if tests {} u;",
    ),
    (
        r#"[{"script":{"source":"s"}},{"script":{"source":"s"}}]"#,
        "pipeline.0.script.source changes {} s;pipeline.1.script.source changes {} s;",
    ),
    (
        r#"[{"drop":{}},{"drop":{}},{"drop":{}},{"drop":{}},{"drop":{}},{"drop":{}},{"drop":{}},{"drop":{}},{"drop":{}},{"drop":{}},{"drop":{"if":"a.b"}}]"#,
        "pipeline.10.drop.if tests {} a.b;",
    ),
];

#[test]
fn scripts_are_met_in_their_order(rt: HostRuntime) {
    for row in &ROWS {
        assert!(rt; has_scripts(rt.alloc(), row.0, row.1), "{}", row.0);
    }
}
