//! Jobs that are checked.

use super::worlds::{checked, failed_at};
use command_parts::Status;
use std::test::Fail;

/// A job, and the line that `check` writes.
const CHECKED: [(&str, &str); 21] = [
    (r#"{"context":"field","script":"1"}"#, r#"{"ok":true}"#),
    (r#"{"context":"eval","script":"1"}"#, r#"{"ok":true}"#),
    (
        r#"{"context":"field","script":"1","steps":true,"listing":true,"members":true,"prelude":true}"#,
        r#"{"ok":true}"#,
    ),
    ("[]", r#"{"refused":{"name":"JobSyntax","number":21}}"#),
    (
        r#"{"script":"1"}"#,
        r#"{"refused":{"field":"context","name":"JobField","number":22}}"#,
    ),
    (
        r#"{"context":"metric","map":"1","combine":"1","reduce":"1"}"#,
        r#"{"refused":{"field":"context","name":"JobField","number":22}}"#,
    ),
    (
        r#"{"context":"field","script":"1","limits":{"depth":0}}"#,
        r#"{"refused":{"field":"depth","name":"LimitRange","number":25}}"#,
    ),
    (
        r#"{"context":"field","script":"1","mapping":{"f":"date"}}"#,
        r#"{"refused":{"field":"f","name":"MappingBad","number":26}}"#,
    ),
    (
        r#"{"context":"field","script":"1 +"}"#,
        r#"{"refused":{"name":"Syntax","number":2,"offset":3}}"#,
    ),
    // A script that changes a document gives nothing, so its last statement is no expression.
    (
        r#"{"context":"update","script":"ctx.op = 'none'","params":{},"steps":true,"listing":true,"members":true,"prelude":true}"#,
        r#"{"ok":true}"#,
    ),
    (
        r#"{"context":"ingest","script":"ctx.remove('a')"}"#,
        r#"{"ok":true}"#,
    ),
    (
        r#"{"context":"update","script":"ctx.op"}"#,
        r#"{"refused":{"name":"NotAStatement","number":11,"offset":0}}"#,
    ),
    (
        r#"{"context":"ingest","script":"ctx = params"}"#,
        r#"{"refused":{"name":"NotAssignable","number":15,"offset":4}}"#,
    ),
    (
        r#"{"context":"update","script":"int doc = 1; return 1"}"#,
        r#"{"refused":{"name":"BadCast","number":9,"offset":20}}"#,
    ),
    (
        r#"{"context":"ingest","script":"ctx.a = 1","mapping":{}}"#,
        r#"{"refused":{"field":"mapping","name":"JobField","number":22}}"#,
    ),
    // The allowlist is told of before the script.
    (
        r#"{"context":"field","script":"1 +","allow":"bad"}"#,
        r#"{"refused":{"line":3,"name":"AllowSyntax","number":23}}"#,
    ),
    (
        r#"{"context":"field","script":"1 +","allow":"unknown"}"#,
        r#"{"refused":{"line":1,"name":"AllowUnknown","number":24}}"#,
    ),
    // The job's own file as its allowlist.
    (
        r#"{"context":"field","script":"1","allow":"job"}"#,
        r#"{"refused":{"line":1,"name":"AllowSyntax","number":23}}"#,
    ),
    // A member that the list lacks.
    (
        r#"{"context":"field","script":"params.size()","allow":"list"}"#,
        r#"{"refused":{"name":"UnknownMember","number":7,"offset":7}}"#,
    ),
    // What a context's variables and result are.
    (
        r#"{"context":"filter","script":"_score > 1"}"#,
        r#"{"refused":{"name":"UnknownVariable","number":4,"offset":0}}"#,
    ),
    (
        r#"{"context":"filter","script":"1"}"#,
        r#"{"refused":{"name":"BadCast","number":9,"offset":0}}"#,
    ),
];

#[test]
fn jobs(rt: HostRuntime) -> Result<(), Fail> {
    let alloc = rt.alloc();
    for (job, line) in &CHECKED {
        let wanted = format!(in alloc; "{line}\n")?;
        let answer = checked(alloc, "job", job.as_bytes())?;
        assert!(rt; answer.0.as_slice() == wanted.as_bytes(), "{job}");
    }
    Ok(())
}

#[test]
fn files(rt: HostRuntime) -> Result<(), Fail> {
    let alloc = rt.alloc();
    for (allow, status) in [
        ("none", Status::FileAbsent),
        ("long", Status::FileLong),
        ("list", Status::Done),
    ] {
        let job = format!(in alloc;
            "{{\"context\":\"field\",\"script\":\"1\",\"allow\":\"{allow}\"}}"
        )?;
        let answer = checked(alloc, "job", job.as_bytes())?;
        assert_eq!(rt; answer.1, status);
    }
    assert_eq!(rt; checked(alloc, "none", b"")?.1, Status::FileAbsent);
    assert_eq!(rt; checked(alloc, "long", b"")?.1, Status::FileLong);
    Ok(())
}

#[test]
fn files_that_fail(rt: HostRuntime) -> Result<(), Fail> {
    let alloc = rt.alloc();
    let job = "{\"context\":\"field\",\"script\":\"1\",\"allow\":\"list\"}";
    for (number, status) in [
        (1, Status::FileFault),
        (2, Status::FileFault),
        (3, Status::Done),
    ] {
        let ended = failed_at(alloc, job.as_bytes(), number)?;
        assert_eq!(rt; ended, status);
    }
    Ok(())
}
