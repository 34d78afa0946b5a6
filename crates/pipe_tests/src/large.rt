//! Pipelines and fields at the ends of what is taken.

use super::reading::{OK, answers};
use std::alloc::{AllocError, Global};
use std::test::Fail;

/// A processor without keys.
const PLAIN: &str = r#"{"drop":{}}"#;

/// A text so many times.
pub fn times(alloc: Global, text: &str, count: usize) -> Result<String, AllocError> {
    let mut all = String::new(alloc);
    for _number in 0..count {
        all.push_str(text)?;
    }
    Ok(all)
}

/// Some texts as one.
pub fn joined(alloc: Global, texts: &[&str]) -> Result<String, AllocError> {
    let mut all = String::new(alloc);
    for text in texts {
        all.push_str(*text)?;
    }
    Ok(all)
}

/// A pipeline with lists for failures so many levels deep, and what stands in the deepest.
fn nested(alloc: Global, levels: usize, deepest: &str) -> Result<String, AllocError> {
    let before = times(alloc, r#"{"drop":{"on_failure":["#, levels)?;
    let behind = times(alloc, "]}}", levels)?;
    joined(
        alloc,
        &["[", before.as_str(), deepest, behind.as_str(), "]"],
    )
}

/// The path of what stands in the list for failures of so many levels, with another end.
fn path_in(alloc: Global, levels: usize, end: &str) -> Result<String, AllocError> {
    let between = times(alloc, ".drop.on_failure.0", levels)?;
    joined(alloc, &["pipeline.0", between.as_str(), end])
}

/// Whether a pipeline with lists for failures so many levels deep is answered by the path of what stands in the deepest,
/// with another end.
fn nested_answers(
    alloc: Global,
    levels: usize,
    deepest: &str,
    end: &str,
) -> Result<bool, AllocError> {
    let text = nested(alloc, levels, deepest)?;
    let path = path_in(alloc, levels, end)?;
    Ok(answers(alloc, text.as_str(), path.as_str()))
}

/// What stands in the deepest list for failures, and how its path ends.
const DEEPEST: [(&str, &str); 8] = [
    ("1", ""),
    ("{}", ""),
    (r#"{"sett":{}}"#, ".sett"),
    (r#"{"drop":{"if":1,"on_failure":[]}}"#, ".drop.if"),
    (r#"{"drop":{"on_failure":[],"z":1}}"#, ".drop.z"),
    (r#"{"drop":{"on_failure":[]}}"#, ".drop.on_failure"),
    (r#"{"drop":{"on_failure":null}}"#, ".drop.on_failure"),
    (r#"{"drop":{"on_failure":[1]}}"#, ".drop.on_failure"),
];

/// A list for failures 17 deep is wrong, whatever it is.
#[test]
fn lists_for_failures_stand_16_deep(rt: HostRuntime) -> Result<(), Fail> {
    let alloc = rt.alloc();
    let text = nested(alloc, 16, PLAIN)?;
    assert!(rt; answers(alloc, text.as_str(), OK));
    for row in &DEEPEST {
        let holds = nested_answers(alloc, 16, row.0, row.1)?;
        assert!(rt; holds, "{}", row.0);
    }
    let holds = nested_answers(
        alloc,
        16,
        r#"{"set":{"on_failure":[{"drop":{}}]}}"#,
        ".set.on_failure",
    )?;
    assert!(rt; holds);
    let holds = nested_answers(
        alloc,
        15,
        r#"{"set":{"on_failure":[{"drop":{}}]}}"#,
        ".set.field",
    )?;
    assert!(rt; holds);
    let holds = nested_answers(
        alloc,
        15,
        r#"{"drop":{"on_failure":[1]}}"#,
        ".drop.on_failure.0",
    )?;
    assert!(rt; holds);
    Ok(())
}

/// A pipeline of so many processors, and another one.
fn many(alloc: Global, count: usize, last: &str) -> Result<String, AllocError> {
    let plain = times(alloc, r#"{"drop":{}},"#, count)?;
    joined(alloc, &["[", plain.as_str(), last, "]"])
}

/// A pipeline of one processor with a list for failures of so many and one more, and what stands behind.
fn held(alloc: Global, count: usize, behind: &str) -> Result<String, AllocError> {
    let plain = times(alloc, r#"{"drop":{}},"#, count)?;
    joined(
        alloc,
        &[
            r#"[{"drop":{"on_failure":["#,
            plain.as_str(),
            PLAIN,
            "]}}",
            behind,
            "]",
        ],
    )
}

/// How many processors, the last one, and the answer.
const COUNTS: [(usize, &str, &str); 10] = [
    (255, PLAIN, OK),
    (255, "{}", "pipeline.255"),
    (255, r#"{"sett":{}}"#, "pipeline.255.sett"),
    (256, PLAIN, "pipeline.256"),
    (256, "1", "pipeline.256"),
    (256, r#"{"sett":{}}"#, "pipeline.256"),
    (300, r#"{"sett":{}}"#, "pipeline.256"),
    (254, r#"{"drop":{"on_failure":[{"drop":{}}]}}"#, OK),
    (
        255,
        r#"{"drop":{"on_failure":[{"drop":{}}]}}"#,
        "pipeline.255.drop.on_failure.0",
    ),
    (
        255,
        r#"{"drop":{"on_failure":[{"drop":{}}],"z":1}}"#,
        "pipeline.255.drop.z",
    ),
];

/// How many processors in a list for failures, what stands behind, and the answer.
const INSIDE: [(usize, &str, &str); 5] = [
    (254, "", OK),
    (254, r#",{"drop":{}}"#, "pipeline.1"),
    (254, ",1", "pipeline.1"),
    (253, r#",{"drop":{}}"#, OK),
    (255, r#",{"sett":{}}"#, "pipeline.0.drop.on_failure.255"),
];

/// The processor behind 256 is wrong, whatever it is; those of lists for failures count where they stand.
#[test]
fn at_most_256_processors(rt: HostRuntime) -> Result<(), Fail> {
    let alloc = rt.alloc();
    for row in &COUNTS {
        let text = many(alloc, row.0, row.1)?;
        assert!(rt; answers(alloc, text.as_str(), row.2), "{} {}", row.0, row.1);
    }
    Ok(())
}

#[test]
fn processors_inside_count(rt: HostRuntime) -> Result<(), Fail> {
    let alloc = rt.alloc();
    for row in &INSIDE {
        let text = held(alloc, row.0, row.1)?;
        assert!(rt; answers(alloc, text.as_str(), row.2), "{} {}", row.0, row.1);
    }
    Ok(())
}

/// Whether a pipeline that removes a field of so many names is answered so.
fn names_answer(alloc: Global, count: usize, wanted: &str) -> Result<bool, AllocError> {
    let names = times(alloc, "a.", count)?;
    let text = joined(
        alloc,
        &[r#"[{"remove":{"field":""#, names.as_str(), r#"a"}}]"#],
    )?;
    Ok(answers(alloc, text.as_str(), wanted))
}

#[test]
fn at_most_100_names(rt: HostRuntime) -> Result<(), Fail> {
    let alloc = rt.alloc();
    let holds = names_answer(alloc, 99, OK)?;
    assert!(rt; holds);
    let holds = names_answer(alloc, 100, "pipeline.0.remove.field")?;
    assert!(rt; holds);
    Ok(())
}
