//! What the keys of processors say.

use super::shown::is_text;
use ingest_pipe::{Action, Follows, Guard, Pipeline, Place, Processors, WhenMissing, WhenThere};
use serde_json::Value;
use std::alloc::{AllocError, Global};

/// What follows where a field is not there.
fn missing_shown(when: WhenMissing) -> &'static str {
    match when {
        WhenMissing::Fails => "or fails",
        WhenMissing::Passes => "or passes",
    }
}

/// What becomes of what is there.
fn there_shown(when: WhenThere) -> &'static str {
    match when {
        WhenThere::Replaced => "over all",
        WhenThere::Kept => "over null",
    }
}

/// The text that names a place.
fn place_shown<'p>(place: &'p Place) -> &'p str {
    match place {
        Place::Index => "the index",
        Place::Id => "the id",
        Place::Source(field) => field.text.as_str(),
    }
}

/// What a processor does.
fn action_shown(alloc: Global, action: &Action) -> Result<String, AllocError> {
    match action {
        Action::Script(script) => format!(in alloc; "script {script}"),
        Action::Set(place, value, when) => {
            let value = value.get().to_string(alloc)?;
            let place = place_shown(place);
            let when = there_shown(*when);
            format!(in alloc; "set {place} {value} {when}")
        }
        Action::Remove(field, when) => {
            let field = field.text.as_str();
            let when = missing_shown(*when);
            format!(in alloc; "remove {field} {when}")
        }
        Action::Rename(field, target, when) => {
            let field = field.text.as_str();
            let target = target.text.as_str();
            let when = missing_shown(*when);
            format!(in alloc; "rename {field} {target} {when}")
        }
        Action::Drop => String::from_str(alloc, "drop"),
        Action::Fail(message) => {
            let message = message.as_str();
            format!(in alloc; "fail {message}")
        }
    }
}

/// When a processor acts, and what follows where it fails.
fn guard_shown(alloc: Global, guard: &Guard) -> Result<String, AllocError> {
    let follows = match guard.follows {
        Follows::Fails => "fails",
        Follows::Ignored => "ignored",
        Follows::Recovers => "recovers",
    };
    match guard.test {
        Some(test) => format!(in alloc; "if {test}, {follows}"),
        None => String::from_str(alloc, follows),
    }
}

/// A processor without its list for failures.
fn one_shown(alloc: Global, guard: &Guard, action: &Action) -> Result<String, AllocError> {
    let action = action_shown(alloc, action)?;
    let guard = guard_shown(alloc, guard)?;
    format!(in alloc; "{action}, {guard}")
}

/// Shows processors, each with its list for failures in brackets.
fn show(alloc: Global, processors: &Processors, shown: &mut String) -> Result<(), AllocError> {
    match processors {
        Processors::End => Ok(()),
        Processors::Then(guard, action, on_failure, rest) => {
            let one = one_shown(alloc, guard, action)?;
            shown.push_str(one.as_str())?;
            shown.push_str("(")?;
            show(alloc, on_failure.get(), shown)?;
            shown.push_str(");")?;
            show(alloc, rest.get(), shown)
        }
    }
}

/// The processors of a pipeline.
fn processors_shown(alloc: Global, pipeline: &Pipeline) -> Result<String, AllocError> {
    let mut shown = String::new(alloc);
    show(alloc, &pipeline.processors, &mut shown)?;
    Ok(shown)
}

/// Whether a pipeline has these processors.
fn has_processors(alloc: Global, text: &str, wanted: &str) -> bool {
    let Ok(value) = Value::from_str(alloc, text) else {
        return false;
    };
    match Pipeline::read(alloc, &value) {
        Ok(pipeline) => is_text(processors_shown(alloc, &pipeline), wanted),
        Err(_) => false,
    }
}

/// Pipelines and their processors.
const ROWS: [(&str, &str); 28] = [
    ("[]", ""),
    (r#"[{"drop":{}}]"#, "drop, fails();"),
    (r#"[{"drop":{"if":"t"}}]"#, "drop, if 0, fails();"),
    (r#"[{"drop":{"ignore_failure":true}}]"#, "drop, ignored();"),
    (r#"[{"drop":{"ignore_failure":false}}]"#, "drop, fails();"),
    (
        r#"[{"drop":{"on_failure":[{"fail":{"message":"m"}},{"drop":{}}]}}]"#,
        "drop, recovers(fail m, fails();drop, fails(););",
    ),
    (
        r#"[{"drop":{"ignore_failure":true,"on_failure":[{"drop":{}}]}}]"#,
        "drop, ignored(drop, fails(););",
    ),
    (
        r#"[{"drop":{"ignore_failure":false,"on_failure":[{"drop":{}}]}}]"#,
        "drop, recovers(drop, fails(););",
    ),
    (
        r#"[{"set":{"field":"a.b","value":[1,{"c":null}]}}]"#,
        r#"set a.b [1,{"c":null}] over all, fails();"#,
    ),
    (
        r#"[{"set":{"field":"a","override":true,"value":"v"}}]"#,
        r#"set a "v" over all, fails();"#,
    ),
    (
        r#"[{"set":{"field":"a","override":false,"value":null}}]"#,
        "set a null over null, fails();",
    ),
    (
        r#"[{"set":{"field":"_index","value":"i"}}]"#,
        r#"set the index "i" over all, fails();"#,
    ),
    (
        r#"[{"set":{"field":"_id","override":false,"value":-1}}]"#,
        "set the id -1 over null, fails();",
    ),
    (
        r#"[{"set":{"field":"a","value":9223372036854775807}}]"#,
        "set a 9223372036854775807 over all, fails();",
    ),
    (
        r#"[{"remove":{"field":"a"}}]"#,
        "remove a or fails, fails();",
    ),
    (
        r#"[{"remove":{"field":"a","ignore_missing":true}}]"#,
        "remove a or passes, fails();",
    ),
    (
        r#"[{"remove":{"field":"a","ignore_failure":true,"ignore_missing":false}}]"#,
        "remove a or fails, ignored();",
    ),
    (
        r#"[{"rename":{"field":"a","target_field":"b.c"}}]"#,
        "rename a b.c or fails, fails();",
    ),
    (
        r#"[{"rename":{"field":"b","ignore_missing":true,"target_field":"a"}}]"#,
        "rename b a or passes, fails();",
    ),
    (r#"[{"fail":{"message":""}}]"#, "fail , fails();"),
    (r#"[{"script":{"source":"s"}}]"#, "script 0, fails();"),
    (
        r#"[{"script":{"if":"t","ignore_failure":true,"source":"s"}}]"#,
        "script 1, if 0, ignored();",
    ),
    (
        r#"[{"script":{"source":"s"}},{"script":{"if":"t","source":"s"}},{"script":{"source":"s"}}]"#,
        "script 0, fails();script 2, if 1, fails();script 3, fails();",
    ),
    (
        r#"[{"script":{"if":"t","on_failure":[{"script":{"source":"s"}},{"drop":{"if":"u"}}],"source":"s"}},{"drop":{"if":"v"}}]"#,
        "script 3, if 0, recovers(script 1, fails();drop, if 2, fails(););drop, if 4, fails();",
    ),
    (
        r#"[{"drop":{"on_failure":[{"drop":{"on_failure":[{"drop":{}}]}},{"drop":{}}]}},{"drop":{}}]"#,
        "drop, recovers(drop, recovers(drop, fails(););drop, fails(););drop, fails();",
    ),
    (
        r#"[{"set":{"field":"a","if":"t","on_failure":[{"drop":{}}],"value":1}}]"#,
        "set a 1 over all, if 0, recovers(drop, fails(););",
    ),
    (
        r#"[{"fail":{"message":"m","message":"n"}}]"#,
        "fail n, fails();",
    ),
    (
        r#"[{"drop":{"ignore_failure":true,"ignore_failure":false}}]"#,
        "drop, fails();",
    ),
];

#[test]
fn keys_say_what_processors_do(rt: HostRuntime) {
    for row in &ROWS {
        assert!(rt; has_processors(rt.alloc(), row.0, row.1), "{}", row.0);
    }
}
