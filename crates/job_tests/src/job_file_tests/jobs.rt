//! What a job has: its defaults, each key that is given, and jobs of other contexts, one of which is not built yet.

use super::files::{Answer, OK, answers, is_error};
use job_file::{FieldKind, Job, JobCommand, JobContext, MapErr, Mapping};
use serde_json::Value;
use std::alloc::Global;
use std::test::Fail;

fn has_default_limits(job: &Job) -> bool {
    let limits = &job.limits;
    limits.loops == 1_000_000
        && limits.depth == 256
        && limits.ticks == 10_000_000
        && limits.room == 16_000_000
        && limits.input == 1_073_741_824
}

fn has_default_turns(job: &Job) -> bool {
    job.shards == 1 && job.order.is_empty() && job.slice == 1_000_000
}

fn has_no_flag(job: &Job) -> bool {
    !(job.listing || job.steps || job.members || job.prelude)
}

fn is_empty_object(value: &Value) -> bool {
    match value.as_object() {
        Some(members) => members.is_empty(),
        None => false,
    }
}

/// Whether a job has this one script.
fn has_script(job: &Job, text: &str) -> bool {
    match job.scripts.as_slice() {
        [script] => script.0.as_str() == "script" && script.1.as_str() == text,
        _ => false,
    }
}

#[test]
fn what_a_file_leaves_out(rt: HostRuntime) -> Result<(), Fail> {
    let job = Job::read(
        rt.alloc(),
        b"{\"context\":\"score\",\"script\":\"1 \\u00e9\"}",
        JobCommand::Run,
    )?;
    assert!(rt; job.context == JobContext::Score);
    assert!(rt; has_script(&job, "1 é"));
    assert!(rt;
        is_empty_object(&job.params) && job.mapping.fields.is_empty() && job.allow.is_none()
    );
    assert!(rt; has_default_limits(&job));
    assert!(rt; has_default_turns(&job));
    assert!(rt; has_no_flag(&job));
    Ok(())
}

/// A file with every key of the context.
const WHOLE: &[u8] =
    b"{\"prelude\":true,\"members\":true,\"steps\":true,\"listing\":true,\"limits\":{\"input\":5,\"room\":4,\"ticks\":3,\"depth\":2,\"loop\":1},\"allow\":\"a.txt\",\"mapping\":{\"t\":\"boolean\",\"n\":\"long\",\"k\":\"keyword\"},\"params\":{\"a\":[7]},\"script\":\"2\",\"context\":\"field\"}";

fn is_field(job: &Job, place: usize, name: &str, kind: FieldKind) -> bool {
    match job.mapping.fields.get(place) {
        Some(found) => found.0.as_str() == name && found.1 == kind,
        None => false,
    }
}

fn has_given_limits(job: &Job) -> bool {
    let limits = &job.limits;
    limits.loops == 1
        && limits.depth == 2
        && limits.ticks == 3
        && limits.room == 4
        && limits.input == 5
}

fn is_allow(job: &Job, name: &str) -> bool {
    match &job.allow {
        Some(allow) => allow.as_str() == name,
        None => false,
    }
}

#[test]
fn what_a_file_gives(rt: HostRuntime) -> Result<(), Fail> {
    let job = Job::read(rt.alloc(), WHOLE, JobCommand::List)?;
    assert!(rt; job.context == JobContext::Field && has_script(&job, "2"));
    assert!(rt; job.params.pointer("/a/0").and_then(Value::as_i64) == Some(7));
    assert!(rt; job.mapping.fields.len() == 3);
    assert!(rt; is_field(&job, 0, "k", FieldKind::Keyword));
    assert!(rt; is_field(&job, 1, "n", FieldKind::Long));
    assert!(rt; is_field(&job, 2, "t", FieldKind::Boolean));
    assert!(rt; is_allow(&job, "a.txt"));
    assert!(rt; has_given_limits(&job));
    assert!(rt; has_default_turns(&job));
    assert!(rt; job.listing && job.steps && job.members && job.prelude);
    Ok(())
}

/// The examples of docs/JOBS.md.
const EXAMPLES: [(&[u8], JobCommand); 4] = [
    (
        b"{\"context\":\"eval\",\"script\":\"1 + 2 * 3\"}",
        JobCommand::Check,
    ),
    (
        b"{\"context\":\"filter\",\"mapping\":{\"n\":\"long\"},\"script\":\"doc['n'].value > params.least\",\"params\":{\"least\":3}}",
        JobCommand::Run,
    ),
    (
        b"{\"context\":\"score\",\"mapping\":{\"n\":\"long\"},\"script\":\"_score * doc['n'].value\",\"limits\":{\"ticks\":1000},\"steps\":true}",
        JobCommand::Run,
    ),
    (
        b"{\"context\":\"field\",\"mapping\":{\"tag\":\"keyword\"},\"script\":\"doc['tag'].value.length()\",\"allow\":\"allow.txt\",\"listing\":true}",
        JobCommand::Run,
    ),
];

#[test]
fn examples_of_the_document(rt: HostRuntime) {
    let mut at = 0u32;
    for (file, command) in &EXAMPLES {
        let read = answers(rt.alloc(), *file, *command, OK);
        assert!(rt; read, "{at}");
        at = at.wrapping_add(1);
    }
}

/// Whether the object of a text is answered so as a job of a context.
fn object_answers(alloc: Global, context: JobContext, text: &str, wanted: Answer) -> bool {
    let Ok(object) = Value::from_str(alloc, text) else {
        return false;
    };
    match Job::of_object(alloc, context, &object) {
        Ok(_) => wanted == "ok",
        Err(error) => is_error(&error, wanted),
    }
}

/// Objects as jobs of other contexts; that of `metric` is not built yet.
const OBJECTS: [(JobContext, &str, Answer); 30] = [
    (
        JobContext::Update,
        "{\"context\":\"update\",\"script\":\"1\",\"steps\":true,\"params\":{}}",
        OK,
    ),
    (
        JobContext::Update,
        "{\"context\":\"update\",\"script\":\"1\",\"mapping\":{}}",
        "field mapping",
    ),
    (
        JobContext::Update,
        "{\"context\":\"update\",\"script\":\"1\",\"shards\":1}",
        "field shards",
    ),
    (
        JobContext::Ingest,
        "{\"context\":\"ingest\",\"script\":\"1\",\"members\":true}",
        OK,
    ),
    (
        JobContext::Ingest,
        "{\"context\":\"ingest\"}",
        "field script",
    ),
    (
        JobContext::Metric,
        "{\"context\":\"metric\",\"map\":\"m\",\"combine\":\"c\",\"reduce\":\"r\"}",
        OK,
    ),
    (
        JobContext::Metric,
        "{\"context\":\"metric\",\"map\":\"m\",\"combine\":\"c\",\"reduce\":\"r\",\"script\":\"1\"}",
        "field script",
    ),
    (
        JobContext::Metric,
        "{\"context\":\"metric\",\"map\":\"m\",\"combine\":\"c\",\"reduce\":\"r\",\"steps\":true}",
        "field steps",
    ),
    (
        JobContext::Metric,
        "{\"context\":\"metric\",\"map\":\"m\",\"combine\":\"c\",\"reduce\":\"r\",\"members\":true}",
        "field members",
    ),
    (
        JobContext::Metric,
        "{\"context\":\"metric\",\"map\":\"m\",\"combine\":\"c\",\"reduce\":\"r\",\"init\":1}",
        "field init",
    ),
    (
        JobContext::Metric,
        "{\"context\":\"metric\",\"combine\":\"c\"}",
        "field map",
    ),
    (
        JobContext::Metric,
        "{\"context\":\"metric\",\"map\":\"m\",\"reduce\":\"r\"}",
        "field combine",
    ),
    (
        JobContext::Metric,
        "{\"context\":\"metric\",\"map\":\"m\",\"combine\":\"c\"}",
        "field reduce",
    ),
    (
        JobContext::Metric,
        "{\"map\":\"m\",\"combine\":\"c\",\"reduce\":\"r\"}",
        "field context",
    ),
    (
        JobContext::Metric,
        "{\"context\":\"metric\",\"map\":\"m\",\"combine\":\"c\",\"reduce\":\"r\",\"shards\":\"1\"}",
        "field shards",
    ),
    (
        JobContext::Metric,
        "{\"context\":\"metric\",\"map\":\"m\",\"combine\":\"c\",\"reduce\":\"r\",\"order\":[1.0]}",
        "field order",
    ),
    (
        JobContext::Metric,
        "{\"context\":\"metric\",\"map\":\"m\",\"combine\":\"c\",\"reduce\":\"r\",\"order\":{}}",
        "field order",
    ),
    (
        JobContext::Metric,
        "{\"context\":\"metric\",\"map\":\"m\",\"combine\":\"c\",\"reduce\":\"r\",\"slice\":1.0}",
        "field slice",
    ),
    (
        JobContext::Metric,
        "{\"context\":\"metric\",\"map\":\"m\",\"combine\":\"c\",\"reduce\":\"r\",\"slice\":null,\"order\":1}",
        "field order",
    ),
    (
        JobContext::Metric,
        "{\"context\":\"metric\",\"map\":\"m\",\"combine\":\"c\",\"reduce\":\"r\",\"shards\":0}",
        "range shards",
    ),
    (
        JobContext::Metric,
        "{\"context\":\"metric\",\"map\":\"m\",\"combine\":\"c\",\"reduce\":\"r\",\"shards\":65,\"order\":[64]}",
        "range shards",
    ),
    (
        JobContext::Metric,
        "{\"context\":\"metric\",\"map\":\"m\",\"combine\":\"c\",\"reduce\":\"r\",\"shards\":64,\"order\":[64]}",
        "range order",
    ),
    (
        JobContext::Metric,
        "{\"context\":\"metric\",\"map\":\"m\",\"combine\":\"c\",\"reduce\":\"r\",\"shards\":64,\"order\":[0,63]}",
        OK,
    ),
    (
        JobContext::Metric,
        "{\"context\":\"metric\",\"map\":\"m\",\"combine\":\"c\",\"reduce\":\"r\",\"order\":[0,1]}",
        "range order",
    ),
    (
        JobContext::Metric,
        "{\"context\":\"metric\",\"map\":\"m\",\"combine\":\"c\",\"reduce\":\"r\",\"order\":[-1],\"slice\":0}",
        "range order",
    ),
    (
        JobContext::Metric,
        "{\"context\":\"metric\",\"map\":\"m\",\"combine\":\"c\",\"reduce\":\"r\",\"slice\":0}",
        "range slice",
    ),
    (
        JobContext::Metric,
        "{\"context\":\"metric\",\"map\":\"m\",\"combine\":\"c\",\"reduce\":\"r\",\"slice\":1000000001}",
        "range slice",
    ),
    (
        JobContext::Metric,
        "{\"context\":\"metric\",\"map\":\"m\",\"combine\":\"c\",\"reduce\":\"r\",\"shards\":0,\"limits\":{\"input\":0}}",
        "range input",
    ),
    (
        JobContext::Metric,
        "{\"context\":\"metric\",\"map\":\"m\",\"combine\":\"c\",\"reduce\":\"r\",\"slice\":0,\"mapping\":{\"\":0}}",
        "range slice",
    ),
    (
        JobContext::Metric,
        "{\"context\":\"metric\",\"map\":\"m\",\"combine\":\"c\",\"reduce\":\"r\",\"mapping\":{\"f\":0}}",
        "mapping f",
    ),
];

#[test]
fn other_contexts(rt: HostRuntime) {
    for (context, text, wanted) in &OBJECTS {
        let as_wanted = object_answers(rt.alloc(), *context, *text, *wanted);
        assert!(rt; as_wanted, "{text}");
    }
}

const METRIC: &str =
    "{\"context\":\"metric\",\"reduce\":\"r\",\"combine\":\"c\",\"map\":\"m\",\"shards\":3,\"order\":[2,0,2],\"slice\":7}";

const SCRIPTS: [(&str, &str); 4] = [
    ("init", ""),
    ("map", "m"),
    ("combine", "c"),
    ("reduce", "r"),
];

#[test]
fn a_metric_job(rt: HostRuntime) -> Result<(), Fail> {
    let object = Value::from_str(rt.alloc(), METRIC)?;
    let job = Job::of_object(rt.alloc(), JobContext::Metric, &object)?;
    assert!(rt; job.scripts.len() == 4);
    for (script, wanted) in job.scripts.iter().zip(SCRIPTS) {
        let as_wanted = script.0.as_str() == wanted.0 && script.1.as_str() == wanted.1;
        assert!(rt; as_wanted, "{}", wanted.0);
    }
    assert!(rt; job.shards == 3 && job.slice == 7);
    assert!(rt; job.order.as_slice() == [2, 0, 2].as_slice());
    Ok(())
}

/// `order` with so many entries.
fn entries(alloc: Global, count: u32) -> Result<String, Fail> {
    let mut text = String::from_str(
        alloc,
        "{\"context\":\"metric\",\"map\":\"m\",\"combine\":\"c\",\"reduce\":\"r\",\"order\":[0",
    )?;
    for _ in 1..count {
        text.push_str(",0")?;
    }
    text.push_str("]}")?;
    Ok(text)
}

const COUNTS: [(u32, Answer); 2] = [(100_000, OK), (100_001, "range order")];

#[test]
fn how_many_entries(rt: HostRuntime) -> Result<(), Fail> {
    for (count, wanted) in &COUNTS {
        let text = entries(rt.alloc(), *count)?;
        let as_wanted = object_answers(rt.alloc(), JobContext::Metric, text.as_str(), *wanted);
        assert!(rt; as_wanted, "{count}");
    }
    Ok(())
}

/// Whether reading the mapping of a text answers so: `ok`, or the bad field.
fn mapping_answers(alloc: Global, text: &str, wanted: &str) -> bool {
    let Ok(value) = Value::from_str(alloc, text) else {
        return false;
    };
    match Mapping::read(alloc, &value) {
        Ok(_) => wanted == "ok",
        Err(MapErr::Bad(name)) => name.as_str() == wanted,
        Err(MapErr::NoMemory) => false,
    }
}

const MAPPINGS: [(&str, &str); 2] = [
    ("{\"b\":\"long\",\"a\":\"keyword\"}", "ok"),
    ("{\"b\":\"long\",\"a\":\"text\"}", "a"),
];

#[test]
fn mappings_alone(rt: HostRuntime) {
    for (text, wanted) in &MAPPINGS {
        let as_wanted = mapping_answers(rt.alloc(), *text, *wanted);
        assert!(rt; as_wanted, "{text}");
    }
}
