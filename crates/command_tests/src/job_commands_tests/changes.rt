//! Jobs whose scripts change documents: what a script does to a line, and the reply.

use super::worlds::{WHOLE, ran};
use std::alloc::{AllocError, Global};
use std::test::Fail;

/// The line of the updates.
const UPDATE: &str = r#"{"_id":"1","_source":{"a":1,"l":[1,2]}}"#;

/// Scripts of updates, each with its reply.
const UPDATES: &str = r#"
ctx.op = 'index' => {"_id":"1","_source":{"a":1,"l":[1,2]},"op":"index"}
ctx.op = 'none' => {"_id":"1","op":"none"}
ctx.op = 'noop' => {"_id":"1","op":"none"}
ctx.op = 'delete' => {"_id":"1","op":"delete"}
ctx['op'] = 'delete' => {"_id":"1","op":"delete"}
ctx.put('op', 'delete') => {"_id":"1","op":"delete"}
ctx.replace('op', 'none') => {"_id":"1","op":"none"}
ctx.putIfAbsent('op', 'none') => {"_id":"1","_source":{"a":1,"l":[1,2]},"op":"index"}
ctx.putAll(['op': 'none']) => {"_id":"1","op":"none"}
ctx.putAll(['op': 'index', '_source': ['b': 2]]) => {"_id":"1","_source":{"b":2},"op":"index"}
ctx.putAll(['op': 'none', '_id': '2']) => {"error":{"class":"UnsupportedOperationException","kind":"thrown","message":null}}
ctx.putAll(params) => {"error":{"class":"UnsupportedOperationException","kind":"thrown","message":null}}
ctx.putAll([:]) => {"_id":"1","_source":{"a":1,"l":[1,2]},"op":"index"}
for (e in ctx.entrySet()) { if (e.getKey() == 'op') { e.setValue('none') } } => {"_id":"1","op":"none"}
for (e in ctx.entrySet()) { e.setValue(e.getValue()) } => {"error":{"class":"UnsupportedOperationException","kind":"thrown","message":null}}
Map m = ctx; m.op = 'delete' => {"_id":"1","op":"delete"}
def c = ctx; c.op = 'delete' => {"_id":"1","op":"delete"}
ctx.op = 'de' + 'lete' => {"_id":"1","op":"delete"}
ctx.op = 'Index' => {"error":{"kind":"bad-op"}}
ctx.op = '' => {"error":{"kind":"bad-op"}}
ctx.op = null => {"error":{"kind":"bad-op"}}
ctx.op = 7 => {"error":{"kind":"bad-op"}}
ctx.op = 7L => {"error":{"kind":"bad-op"}}
ctx.op = true => {"error":{"kind":"bad-op"}}
ctx.op = 'i'.charAt(0) => {"error":{"kind":"bad-op"}}
ctx.op = ['index'] => {"error":{"kind":"bad-op"}}
ctx.op = ctx => {"error":{"kind":"bad-op"}}
ctx.op = new StringBuilder('index') => {"error":{"kind":"bad-op"}}
ctx.op = 'none'; ctx.op = 'index' => {"_id":"1","_source":{"a":1,"l":[1,2]},"op":"index"}
ctx.clear() => {"error":{"class":"UnsupportedOperationException","kind":"thrown","message":null}}
ctx.remove('op') => {"error":{"class":"UnsupportedOperationException","kind":"thrown","message":null}}
ctx.remove('nothing') => {"error":{"class":"UnsupportedOperationException","kind":"thrown","message":null}}
ctx.remove('op', 'index') => {"error":{"class":"UnsupportedOperationException","kind":"thrown","message":null}}
ctx.entrySet().clear() => {"error":{"class":"UnsupportedOperationException","kind":"thrown","message":null}}
ctx.keySet().remove('op') => {"error":{"class":"UnsupportedOperationException","kind":"thrown","message":null}}
ctx.keySet().removeAll(['x']) => {"error":{"class":"UnsupportedOperationException","kind":"thrown","message":null}}
ctx.keySet().retainAll(['op']) => {"error":{"class":"UnsupportedOperationException","kind":"thrown","message":null}}
ctx.values().remove('index') => {"error":{"class":"UnsupportedOperationException","kind":"thrown","message":null}}
Iterator i = ctx.keySet().iterator(); i.next(); i.remove() => {"error":{"class":"UnsupportedOperationException","kind":"thrown","message":null}}
Iterator i = ctx.entrySet().iterator(); i.next(); i.remove() => {"error":{"class":"UnsupportedOperationException","kind":"thrown","message":null}}
ctx._id = '1' => {"error":{"class":"UnsupportedOperationException","kind":"thrown","message":null}}
ctx.put('_id', '2') => {"error":{"class":"UnsupportedOperationException","kind":"thrown","message":null}}
ctx.putIfAbsent('_id', '2') => {"error":{"class":"UnsupportedOperationException","kind":"thrown","message":null}}
ctx.replace('_id', '2') => {"error":{"class":"UnsupportedOperationException","kind":"thrown","message":null}}
ctx._version += 1 => {"error":{"class":"UnsupportedOperationException","kind":"thrown","message":null}}
ctx._now = 1 => {"error":{"class":"UnsupportedOperationException","kind":"thrown","message":null}}
ctx._index = 'x' => {"error":{"class":"UnsupportedOperationException","kind":"thrown","message":null}}
ctx._routing = 'x' => {"error":{"class":"UnsupportedOperationException","kind":"thrown","message":null}}
ctx.x = 1 => {"error":{"class":"UnsupportedOperationException","kind":"thrown","message":null}}
ctx[7] = 1 => {"error":{"class":"UnsupportedOperationException","kind":"thrown","message":null}}
ctx[null] = 1 => {"error":{"class":"UnsupportedOperationException","kind":"thrown","message":null}}
try { ctx.x = 1 } catch (UnsupportedOperationException e) { ctx.op = 'none' } => {"_id":"1","op":"none"}
params.d = 1 => {"error":{"class":"UnsupportedOperationException","kind":"thrown","message":null}}
params.p.clear() => {"error":{"class":"UnsupportedOperationException","kind":"thrown","message":null}}
 => {"_id":"1","_source":{"a":1,"l":[1,2]},"op":"index"}
return; => {"_id":"1","_source":{"a":1,"l":[1,2]},"op":"index"}
ctx._source.a += params.d => {"_id":"1","_source":{"a":6,"l":[1,2]},"op":"index"}
ctx._source.l.add(9); ctx._source.n = null => {"_id":"1","_source":{"a":1,"l":[1,2,9],"n":null},"op":"index"}
ctx._source = ['b': 2] => {"_id":"1","_source":{"b":2},"op":"index"}
ctx._source = [1] => {"error":{"kind":"result-kind"}}
ctx._source = null => {"error":{"kind":"result-kind"}}
ctx._source = 'x' => {"error":{"kind":"result-kind"}}
ctx._source = 7 => {"error":{"kind":"result-kind"}}
ctx._source = ctx.keySet() => {"error":{"kind":"result-kind"}}
ctx._source = params => {"_id":"1","_source":{"d":5,"p":{}},"op":"index"}
ctx._source = ctx => {"error":{"kind":"result-depth"}}
ctx._source = null; ctx.op = 'none' => {"_id":"1","op":"none"}
ctx._source = null; ctx.op = 'bad' => {"error":{"kind":"bad-op"}}
ctx._source.me = ctx._source => {"error":{"kind":"result-depth"}}
ctx._source.me = ctx._source; ctx.op = 'delete' => {"_id":"1","op":"delete"}
ctx._source.l.add(ctx._source.l) => {"error":{"kind":"result-depth"}}
ctx._source.clear() => {"_id":"1","_source":{},"op":"index"}
ctx._source.remove('a'); ctx._source.keySet().clear() => {"_id":"1","_source":{},"op":"index"}
ctx._source[7] = 1 => {"error":{"kind":"result-key"}}
ctx._source.e = new IllegalArgumentException('x') => {"error":{"kind":"result-kind"}}
ctx._source.b = new StringBuilder('x') => {"error":{"kind":"result-kind"}}
ctx._source.i = ctx.keySet().iterator() => {"error":{"kind":"result-kind"}}
def s = ctx._source; ctx._source = ['b': s]; s.c = 3 => {"_id":"1","_source":{"b":{"a":1,"c":3,"l":[1,2]}},"op":"index"}
def s = ctx._source; s.x = s.l; s.l = s.l.size() => {"_id":"1","_source":{"a":1,"l":2,"x":[1,2]},"op":"index"}
ctx._source.z = 1; ctx._source.b = 'é'; ctx._source.Z = 'c'.charAt(0) => {"_id":"1","_source":{"Z":"c","a":1,"b":"é","l":[1,2],"z":1},"op":"index"}
ctx._source.b = ctx._id + ctx._index + ctx._now + ctx._routing + ctx._version + ctx.op => {"_id":"1","_source":{"a":1,"b":"1docs0null1index","l":[1,2]},"op":"index"}
ctx._source.k = ctx.keySet() => {"_id":"1","_source":{"a":1,"k":["_id","_index","_now","_routing","_source","_version","op"],"l":[1,2]},"op":"index"}
ctx._source.t = ctx._version instanceof Integer && ctx._now instanceof Integer => {"_id":"1","_source":{"a":1,"l":[1,2],"t":true},"op":"index"}
ctx.op = 'none'; ctx._source.a = 1 / 0 => {"error":{"class":"ArithmeticException","kind":"thrown","message":"/ by zero"}}
ctx._source.a = 2; throw new IllegalArgumentException('no') => {"error":{"class":"IllegalArgumentException","kind":"thrown","message":"no"}}
try { ctx._source.a = 2; ctx._source.b = 1 / 0 } catch (Exception e) { ctx._source.e = e.getMessage() } => {"_id":"1","_source":{"a":2,"e":"/ by zero","l":[1,2]},"op":"index"}
while (true) { ctx._source.a += 1 } => {"error":{"kind":"limit-loop"}}
void f(Map m) { m.a += 1; f(m) } f(ctx._source) => {"error":{"kind":"limit-depth"}}
while (true) { ctx._source.l.add(ctx._source.l.size()) } => {"error":{"kind":"limit-ticks"}}
for (int i = 0; i < 20; i++) { ctx._source.l.addAll(ctx._source.l) } => {"error":{"kind":"limit-room"}}
"#;

/// The line of the ingests.
const INGEST: &str = r#"{"_id":"1","_index":"i","_source":{"a":5,"l":[1]}}"#;

/// Scripts of ingests, each with its reply.
const INGESTS: &str = r#"
 => {"_id":"1","_index":"i","_source":{"a":5,"l":[1]}}
ctx.b = ctx.remove('a'); ctx._index = 'x' => {"_id":"1","_index":"x","_source":{"b":5,"l":[1]}}
ctx._id = '' => {"_id":"","_index":"i","_source":{"a":5,"l":[1]}}
ctx._id = ctx._index + '-' + ctx.a => {"_id":"i-5","_index":"i","_source":{"a":5,"l":[1]}}
ctx.remove('_id'); ctx._id = '2' => {"_id":"2","_index":"i","_source":{"a":5,"l":[1]}}
ctx.remove('_id') => {"error":{"kind":"result-kind"}}
ctx.remove('_index') => {"error":{"kind":"result-kind"}}
ctx.clear() => {"error":{"kind":"result-kind"}}
ctx.entrySet().clear(); ctx._id = '1' => {"error":{"kind":"result-kind"}}
ctx.entrySet().clear(); ctx._id = '1'; ctx._index = 'i' => {"_id":"1","_index":"i","_source":{}}
ctx._id = 7 => {"error":{"kind":"result-kind"}}
ctx._id = null => {"error":{"kind":"result-kind"}}
ctx._id = 'c'.charAt(0) => {"error":{"kind":"result-kind"}}
ctx._index = ['i'] => {"error":{"kind":"result-kind"}}
ctx._index = null; ctx.me = ctx => {"error":{"kind":"result-kind"}}
ctx.op = 'none' => {"_id":"1","_index":"i","_source":{"a":5,"l":[1],"op":"none"}}
ctx._source = ['x': 1] => {"_id":"1","_index":"i","_source":{"_source":{"x":1},"a":5,"l":[1]}}
ctx._version = 3 => {"_id":"1","_index":"i","_source":{"_version":3,"a":5,"l":[1]}}
ctx.k = new ArrayList(ctx.keySet()) => {"_id":"1","_index":"i","_source":{"a":5,"k":["_id","_index","a","l"],"l":[1]}}
ctx.me = ctx => {"error":{"kind":"result-depth"}}
ctx.me = ctx; ctx.remove('me') => {"_id":"1","_index":"i","_source":{"a":5,"l":[1]}}
ctx[7] = 1 => {"error":{"kind":"result-key"}}
ctx[7] = 1; ctx._id = 7 => {"error":{"kind":"result-kind"}}
ctx.e = new IllegalArgumentException('x') => {"error":{"kind":"result-kind"}}
ctx.putAll(['b': 1, '_id': '3']) => {"_id":"3","_index":"i","_source":{"a":5,"b":1,"l":[1]}}
for (e in ctx.entrySet()) { if (e.getValue() instanceof Integer) { e.setValue('five') } } => {"_id":"1","_index":"i","_source":{"a":"five","l":[1]}}
Iterator i = ctx.keySet().iterator(); while (i.hasNext()) { def k = i.next(); if (k == 'a' || k == 'l') { i.remove() } } => {"_id":"1","_index":"i","_source":{}}
ctx.a = 1; throw new IllegalArgumentException('no') => {"error":{"class":"IllegalArgumentException","kind":"thrown","message":"no"}}
ctx.a = 1; while (true) { ctx.a += 1 } => {"error":{"kind":"limit-loop"}}
params.k = 1 => {"error":{"class":"UnsupportedOperationException","kind":"thrown","message":null}}
ctx.n = params => {"_id":"1","_index":"i","_source":{"a":5,"l":[1],"n":{"d":5,"p":{}}}}
"#;

/// A job of a context with a script.
fn job_of(alloc: Global, context: &str, script: &str) -> Result<String, AllocError> {
    let mut job = String::from_str(alloc, "{\"context\":\"")?;
    job.push_str(context)?;
    job.push_str(
        "\",\"params\":{\"d\":5,\"p\":{}},\"limits\":{\"loop\":50,\"ticks\":200,\"room\":1000,\"depth\":5},\"script\":\"",
    )?;
    job.push_str(script)?;
    job.push_str("\"}")?;
    Ok(job)
}

/// Whether a script of a context replies so to a line.
fn replies_so(
    alloc: Global,
    context: &str,
    line: &str,
    script: &str,
    reply: &str,
) -> Result<bool, AllocError> {
    let job = job_of(alloc, context, script)?;
    let (written, _status) = ran(alloc, job.as_bytes(), line.as_bytes(), &WHOLE)?;
    Ok(written.as_slice().strip_suffix(b"\n".as_slice()) == Some(reply.as_bytes()))
}

#[test]
fn updates(rt: HostRuntime) -> Result<(), Fail> {
    let alloc = rt.alloc();
    for row in UPDATES.lines() {
        if let Some((script, reply)) = row.split_once(" => ") {
            let as_wanted = replies_so(alloc, "update", UPDATE, script, reply)?;
            assert!(rt; as_wanted, "{row}");
        }
    }
    Ok(())
}

#[test]
fn ingests(rt: HostRuntime) -> Result<(), Fail> {
    let alloc = rt.alloc();
    for row in INGESTS.lines() {
        if let Some((script, reply)) = row.split_once(" => ") {
            let as_wanted = replies_so(alloc, "ingest", INGEST, script, reply)?;
            assert!(rt; as_wanted, "{row}");
        }
    }
    Ok(())
}

/// A job, lines, and their replies.
const LINES: [(&str, &str, &str); 8] = [
    // An update with each end, and a line without its id.
    (
        r#"{"context":"update","script":"ctx.op = ctx._source.o; ctx._source.l.add(9)"}"#,
        "{\"_id\":\"1\",\"_source\":{\"l\":[1],\"o\":\"index\"}}\n{\"_id\":\"2\",\"_source\":{\"l\":[1],\"o\":\"none\"}}\n{\"_id\":\"3\",\"_source\":{\"l\":[1],\"o\":\"delete\"}}\n{\"_id\":\"4\",\"_source\":{\"l\":[1],\"o\":\"noop\"}}\n{\"_id\":\"5\",\"_source\":{\"l\":[1],\"o\":\"bad\"}}\n{\"_source\":{}}\n",
        "{\"_id\":\"1\",\"_source\":{\"l\":[1,9],\"o\":\"index\"},\"op\":\"index\"}\n{\"_id\":\"2\",\"op\":\"none\"}\n{\"_id\":\"3\",\"op\":\"delete\"}\n{\"_id\":\"4\",\"op\":\"none\"}\n{\"error\":{\"kind\":\"bad-op\"}}\n{\"error\":{\"kind\":\"line-field\"}}\n",
    ),
    (
        r#"{"context":"ingest","script":"ctx.b = ctx.remove('a'); ctx._index = 'x'"}"#,
        "{\"_id\":\"1\",\"_index\":\"i\",\"_source\":{\"a\":5}}",
        "{\"_id\":\"1\",\"_index\":\"x\",\"_source\":{\"b\":5}}\n",
    ),
    // What an ingest's line leaves out, and in which order its keys stand.
    (
        r#"{"context":"ingest","script":"ctx.k = new ArrayList(ctx.keySet())"}"#,
        "{\"_source\":{\"z\":1,\"_a\":2,\"A\":3,\"_j\":4}}\n",
        "{\"_id\":\"\",\"_index\":\"docs\",\"_source\":{\"A\":3,\"_a\":2,\"_j\":4,\"k\":[\"A\",\"_a\",\"_id\",\"_index\",\"_j\",\"z\"],\"z\":1}}\n",
    ),
    // No line sees the one before.
    (
        r#"{"context":"update","script":"ctx._source.seen = ctx._source.containsKey('seen'); if (ctx._id == '1') { ctx.op = 'none' }"}"#,
        "{\"_id\":\"1\",\"_source\":{}}\n{\"_id\":\"2\",\"_source\":{}}\n",
        "{\"_id\":\"1\",\"op\":\"none\"}\n{\"_id\":\"2\",\"_source\":{\"seen\":false},\"op\":\"index\"}\n",
    ),
    // Lines that are wrong, and one that is blank.
    (
        r#"{"context":"update","script":"ctx._source.n = 1"}"#,
        "{\n \n[]\n{\"_id\":\"1\",\"_source\":{\"n\":0.5}}\n{\"_id\":\"1\",\"_source\":{},\"x\":1}\n{\"_id\":\"1\",\"_source\":{}}\n",
        "{\"error\":{\"kind\":\"line-syntax\"}}\n{\"error\":{\"kind\":\"line-field\"}}\n{\"error\":{\"kind\":\"line-number\"}}\n{\"error\":{\"kind\":\"line-field\"}}\n{\"_id\":\"1\",\"_source\":{\"n\":1},\"op\":\"index\"}\n",
    ),
    (
        r#"{"context":"ingest","script":"ctx.n = 1"}"#,
        "{\"_source\":{\"_id\":\"1\"}}\n{\"_id\":\"1\"}\n{\"_source\":{}}\n",
        "{\"error\":{\"kind\":\"line-field\"}}\n{\"error\":{\"kind\":\"line-field\"}}\n{\"_id\":\"\",\"_index\":\"docs\",\"_source\":{\"n\":1}}\n",
    ),
    // What is shown beside replies stands there in byte order.
    (
        r#"{"context":"update","members":true,"steps":true,"script":"ctx._source.size()"}"#,
        "{\"_id\":\"1\",\"_source\":{}}\n{\"_source\":{}}\n",
        "{\"listing\":\"painless 1\\nfun 0 loop V RR -\\nload 1\\ntext \\\"_source\\\"\\ninvoke java.util.Map.get/1\\ndefcall size 0\\npop\\nret\\nend\\n\"}\n{\"listing\":\"painless 1\\nfun 0 free V - -\\nret\\nend\\n\",\"script\":\"prelude\"}\n{\"_id\":\"1\",\"_source\":{},\"members\":[\"java.util.Map.get/1\",\"java.util.Map.size/0\"],\"op\":\"index\",\"steps\":6}\n{\"error\":{\"kind\":\"line-field\"}}\n",
    ),
    (
        r#"{"context":"ingest","members":true,"script":"ctx.remove('_id')"}"#,
        "{\"_source\":{}}\n",
        "{\"error\":{\"kind\":\"result-kind\"},\"members\":[\"java.util.Map.remove/1\"]}\n",
    ),
];

#[test]
fn lines_of_changes(rt: HostRuntime) -> Result<(), Fail> {
    let alloc = rt.alloc();
    for (job, lines, replies) in &LINES {
        let (written, _status) = ran(alloc, job.as_bytes(), lines.as_bytes(), &WHOLE)?;
        assert!(rt; written.as_slice() == replies.as_bytes(), "{job}");
    }
    Ok(())
}
