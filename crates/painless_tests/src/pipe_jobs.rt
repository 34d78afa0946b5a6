//! Jobs over pipelines as wholes: what is written, the status and the report.

use super::pipe_worlds::piped;
use painless::Status;
use std::test::Fail;

/// A job, an input, what is written, the number of the status, how many listings the report has, and how many instructions.
const ROWS: [(&str, &str, &str, u8, usize, u64); 10] = [
    // Each line has its reply, a blank one has none, and no line sees the one before.
    (
        r#"{"context":"pipe","pipeline":[{"script":{"source":""}},{"script":{"source":""}}]}"#,
        "{\"_id\":\"1\",\"_source\":{}}\n \t\n{\"_id\":\"2\",\"_source\":{}}\n",
        "{\"_id\":\"1\",\"_index\":\"docs\",\"_source\":{}}\n{\"_id\":\"2\",\"_index\":\"docs\",\"_source\":{}}\n",
        0,
        4,
        4,
    ),
    // With an error among the replies the status is 1.
    (
        r#"{"context":"pipe","pipeline":[{"remove":{"field":"a"}}]}"#,
        "{\"_source\":{}}\n{\"_source\":{\"a\":1}}\n",
        "{\"error\":{\"field\":\"a\",\"kind\":\"pipe-missing\"}}\n{\"_id\":\"\",\"_index\":\"docs\",\"_source\":{}}\n",
        1,
        0,
        0,
    ),
    // A kind that there is not is told by its path.
    (
        r#"{"context":"pipe","pipeline":[{"sett":{}},{"fail":{"if":"ctx.e","message":"no"}}]}"#,
        "{\"_source\":{}}\n",
        "{\"refused\":{\"field\":\"pipeline.0.sett\",\"name\":\"PipelineBad\",\"number\":33}}\n",
        2,
        0,
        0,
    ),
    // The pipeline comes before the allowlist, and that before the scripts.
    (
        r#"{"context":"pipe","allow":"absent","pipeline":[{"set":{"field":"a"}}]}"#,
        "",
        "{\"refused\":{\"field\":\"pipeline.0.set.value\",\"name\":\"PipelineBad\",\"number\":33}}\n",
        2,
        0,
        0,
    ),
    (
        r#"{"context":"pipe","allow":"absent","pipeline":[{"script":{"source":"1+"}}]}"#,
        "",
        "",
        9,
        0,
        0,
    ),
    // Of scripts the first that is met is told: a test, then those of the list for failures, then the source.
    (
        r#"{"context":"pipe","pipeline":[{"script":{"source":"1+","if":"true","on_failure":[{"drop":{"if":"12+"}}]}}]}"#,
        "",
        "{\"refused\":{\"name\":\"Syntax\",\"number\":2,\"offset\":3,\"script\":\"pipeline.0.script.on_failure.0.drop.if\"}}\n",
        2,
        0,
        0,
    ),
    (
        r#"{"context":"pipe","pipeline":[{"drop":{}},{"script":{"source":"1+"}}]}"#,
        "",
        "{\"refused\":{\"name\":\"Syntax\",\"number\":2,\"offset\":2,\"script\":\"pipeline.1.script.source\"}}\n",
        2,
        0,
        0,
    ),
    // The command takes no job of another context, and such a job has no params of its own.
    (
        r#"{"context":"ingest","script":"ctx.a = 1"}"#,
        "",
        "{\"refused\":{\"field\":\"context\",\"name\":\"JobField\",\"number\":22}}\n",
        2,
        0,
        0,
    ),
    (
        r#"{"context":"pipe","params":{},"pipeline":[]}"#,
        "",
        "{\"refused\":{\"field\":\"params\",\"name\":\"JobField\",\"number\":22}}\n",
        2,
        0,
        0,
    ),
    (
        r#"{"context":"pipe"}"#,
        "",
        "{\"refused\":{\"field\":\"pipeline\",\"name\":\"JobField\",\"number\":22}}\n",
        2,
        0,
        0,
    ),
];

/// The number of a status, of those that stand here.
fn number_of(status: Status) -> u8 {
    match status {
        Status::Done => 0,
        Status::SomeErrors => 1,
        Status::Refused => 2,
        Status::FileAbsent => 9,
        _ => 255,
    }
}

#[test]
fn jobs_end_as_wanted(rt: HostRuntime) -> Result<(), Fail> {
    let alloc = rt.alloc();
    for (job, input, replies, status, listings, steps) in &ROWS {
        let (written, report) = piped(alloc, job, input)?;
        let as_wanted = number_of(report.status) == *status
            && report.listings.len() == *listings
            && report.steps == *steps;
        assert!(rt; written.as_slice() == replies.as_bytes(), "{job}");
        assert!(rt; as_wanted, "{job}");
    }
    Ok(())
}
