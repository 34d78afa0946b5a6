//! Pipelines, and what lines come to.

use super::pipe_worlds::piped;
use std::alloc::{AllocError, Global};
use std::test::Fail;

/// A pipeline, a line and its reply.
const ROWS: &str = r#"
[{"set":{"field":"a.b","value":1}},{"script":{"source":"ctx.c = ctx.a.b + 1"}},{"rename":{"field":"c","target_field":"a.d"}},{"drop":{"if":"ctx.a.d > 5"}}] => {"_id":"1","_index":"i","_source":{}} => {"_id":"1","_index":"i","_source":{"a":{"b":1,"d":2}}}
[{"set":{"field":"a.b","value":5}},{"script":{"source":"ctx.c = ctx.a.b + 1"}},{"rename":{"field":"c","target_field":"a.d"}},{"drop":{"if":"ctx.a.d > 5"}}] => {"_id":"1","_index":"i","_source":{}} => {"_id":"1","op":"drop"}
[{"remove":{"field":"x","on_failure":[{"set":{"field":"e","value":true}}]}},{"fail":{"if":"ctx.e","message":"no"}}] => {"_id":"1","_source":{}} => {"error":{"kind":"pipe-fail","message":"no"}}
[{"script":{"source":"ctx.n = 1 / ctx.n"}}] => {"_source":{"n":0}} => {"error":{"class":"ArithmeticException","kind":"thrown","message":"/ by zero"}}
[{"script":{"source":"while (true) { ctx.n += 1 }"}}] => {"_source":{"n":0}} => {"error":{"kind":"limit-loop"}}
[{"script":{"source":"ctx._id = 7"}}] => {"_source":{}} => {"error":{"kind":"result-kind"}}
[{"remove":{"field":"a.b"}}] => {"_source":{"a":[]}} => {"error":{"field":"a.b","kind":"pipe-missing"}}
[{"rename":{"field":"x","target_field":"a"}}] => {"_source":{"a":1}} => {"error":{"field":"x","kind":"pipe-missing"}}
[{"rename":{"field":"a","target_field":"b"}}] => {"_source":{"a":1,"b":null}} => {"error":{"field":"b","kind":"pipe-exists"}}
[{"set":{"field":"a.b","value":1}}] => {"_source":{"a":null}} => {"error":{"field":"a.b","kind":"pipe-parent"}}
[{"rename":{"field":"a","target_field":"b.c"}}] => {"_source":{"a":1,"b":[]}} => {"error":{"field":"b.c","kind":"pipe-parent"}}
[{"set":{"field":"_index","value":7}}] => {"_source":{}} => {"error":{"field":"_index","kind":"pipe-type"}}
[{"set":{"field":"a","value":[[[[[[[[[[[[[[[[[[[[[[[[[[[[[[[[[[[[[[[[[[[[[[[[[[[[[[[[[[[[[[[[[[[[[[[[[[[[[[[[[[[[[[[[[[[[[[[[[[[[[[[[[[[[[[[[[[[[[[[[]]]]]]]]]]]]]]]]]]]]]]]]]]]]]]]]]]]]]]]]]]]]]]]]]]]]]]]]]]]]]]]]]]]]]]]]]]]]]]]]]]]]]]]]]]]]]]]]]]]]]]]]]]]]]]]]]]]]]]]]}}] => {"_source":{}} => {"error":{"field":"a","kind":"pipe-depth"}}
[{"set":{"field":"a","value":[[[[[[[[[[[[[[[[[[[[[[[[[[[[[[[[[[[[[[[[[[[[[[[[[[[[[[[[[[[[[[[[[[[[[[[[[[[[[[[[[[[[[[[[[[[[[[[[[[[[[[[[[[[[[[[[[[[[[[[]]]]]]]]]]]]]]]]]]]]]]]]]]]]]]]]]]]]]]]]]]]]]]]]]]]]]]]]]]]]]]]]]]]]]]]]]]]]]]]]]]]]]]]]]]]]]]]]]]]]]]]]]]]]]]]]]]]]]]]}},{"script":{"source":"ctx.remove('a')"}}] => {"_source":{}} => {"_id":"","_index":"docs","_source":{}}
[{"drop":{"if":"1 / ctx.n > 0"}}] => {"_source":{"n":0}} => {"error":{"class":"ArithmeticException","kind":"thrown","message":"/ by zero"}}
[{"drop":{"if":"ctx.n = 1; true"}}] => {"_source":{}} => {"error":{"class":"UnsupportedOperationException","kind":"thrown","message":null}}
[{"drop":{"if":"ctx.l.m.clear(); true"}}] => {"_source":{"l":{"m":{"n":1}}}} => {"error":{"class":"UnsupportedOperationException","kind":"thrown","message":null}}
[{"drop":{"if":"params.size() == 0"}}] => {"_id":"1","_source":{}} => {"_id":"1","op":"drop"}
[{"script":{"source":"ctx.a = 2; ctx._id = '2'; throw new IllegalArgumentException('no')","on_failure":[{"set":{"field":"e","value":1}}]}}] => {"_id":"1","_source":{"a":1}} => {"_id":"1","_index":"docs","_source":{"a":1,"e":1}}
[{"script":{"source":"ctx.a = 2; ctx.a = 1 / 0","ignore_failure":true}},{"set":{"field":"b","value":[1]}}] => {"_source":{"a":1}} => {"_id":"","_index":"docs","_source":{"a":1,"b":[1]}}
[{"fail":{"message":"a","on_failure":[{"set":{"field":"x","value":1}},{"fail":{"message":"b"}}]}}] => {"_source":{}} => {"error":{"kind":"pipe-fail","message":"b"}}
[{"fail":{"message":"a","on_failure":[{"script":{"source":"ctx._id = '9'"}},{"drop":{}}]}},{"fail":{"message":"c"}}] => {"_id":"1","_source":{}} => {"_id":"9","op":"drop"}
[{"script":{"source":"ctx.a = params.k","params":{"k":[1]}}},{"script":{"source":"ctx.b = params.k","params":{"k":"x"}}},{"script":{"source":"ctx.c = params.size()"}}] => {"_source":{}} => {"_id":"","_index":"docs","_source":{"a":[1],"b":"x","c":0}}
[] => {"_id":"1","_index":"i","_source":{"b":[1,null],"a":{"c":"d"}}} => {"_id":"1","_index":"i","_source":{"a":{"c":"d"},"b":[1,null]}}
[] => {"_source":{"a":1.5}} => {"error":{"kind":"line-number"}}
[] => {"_source":{"_id":1}} => {"error":{"kind":"line-field"}}
[] => {"_now":1,"_source":{}} => {"error":{"kind":"line-field"}}
[] => {"_id":"1"} => {"error":{"kind":"line-field"}}
[] => { => {"error":{"kind":"line-syntax"}}
"#;

/// Whether a pipeline replies so to a line.
fn replies_so(alloc: Global, pipeline: &str, line: &str, reply: &str) -> Result<bool, AllocError> {
    let mut job = String::from_str(
        alloc,
        "{\"context\":\"pipe\",\"limits\":{\"loop\":100},\"pipeline\":",
    )?;
    job.push_str(pipeline)?;
    job.push_str("}")?;
    let (written, _report) = piped(alloc, job.as_str(), line)?;
    Ok(written.as_slice().strip_suffix(b"\n".as_slice()) == Some(reply.as_bytes()))
}

#[test]
fn lines_come_to_their_replies(rt: HostRuntime) -> Result<(), Fail> {
    let alloc = rt.alloc();
    for row in ROWS.lines() {
        if let Some((pipeline, behind)) = row.split_once(" => ")
            && let Some((line, reply)) = behind.split_once(" => ")
        {
            let as_wanted = replies_so(alloc, pipeline, line, reply)?;
            assert!(rt; as_wanted, "{row}");
        }
    }
    Ok(())
}
