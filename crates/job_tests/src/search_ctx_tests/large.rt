//! Mappings with many fields, and documents with many levels.
use super::binding::bound;
use job_file::{MapErr, Mapping};
use json_reading::Scratch;
use search_ctx::{BindErr, SearchKind};
use serde_json::Value as Json;
use std::alloc::Global;

/// An object with so many members, each with this value.
fn wide(alloc: Global, count: u32, value: &str) -> Option<String> {
    let mut text = String::from_str(alloc, "{").ok()?;
    for at in 0..count {
        let comma = if at == 0 { "" } else { "," };
        let member = format!(in alloc; "{comma}\"f{at}\":{value}").ok()?;
        text.push_str(member.as_str()).ok()?;
    }
    text.push_str("}").ok()?;
    Some(text)
}

/// Whether a mapping of so many fields is read; one that is not is refused at the empty name.
fn is_read(alloc: Global, count: u32) -> Option<bool> {
    let text = wide(alloc, count, "\"long\"")?;
    let json = Json::from_str(alloc, text.as_str()).ok()?;
    match Mapping::read(alloc, &json) {
        Ok(mapping) => Some(mapping.fields.len() == 1_000),
        Err(MapErr::Bad(name)) => if name.is_empty() { Some(false) } else { None },
        Err(MapErr::NoMemory) => None,
    }
}

/// How many objects a document of so many members is bound to, under a mapping of 1,000 fields.
fn objects_of(alloc: Global, count: u32) -> Option<usize> {
    let mapping = wide(alloc, 1_000, "\"long\"")?;
    let line = wide(alloc, count, "[2,1]")?;
    let start = bound(
        alloc,
        SearchKind::Filter,
        (mapping.as_str(), "{}"),
        line.as_str().as_bytes(),
        &mut Scratch::new(alloc),
    )
    .ok()?;
    Some(start.heap.len())
}

#[test]
fn many_fields(rt: HostRuntime) {
    let most = is_read(rt.alloc(), 1_000);
    let more = is_read(rt.alloc(), 1_001);
    let objects = objects_of(rt.alloc(), 1_100);
    assert!(rt; most == Some(true));
    assert!(rt; more == Some(false));
    assert!(rt; objects == Some(1_002));
}

/// A value at the field `f` in so many brackets.
fn nested(alloc: Global, levels: u32, open: &str, close: &str) -> Option<String> {
    let mut text = String::from_str(alloc, "{\"f\":").ok()?;
    for _ in 0..levels {
        text.push_str(open).ok()?;
    }
    text.push_str("1").ok()?;
    for _ in 0..levels {
        text.push_str(close).ok()?;
    }
    text.push_str("}").ok()?;
    Some(text)
}

/// Whether a document with a value in so many brackets is not bound for this cause, or bound where there is none.
fn is_refused_so(
    alloc: Global,
    levels: u32,
    brackets: (&str, &str),
    wanted: Option<BindErr>,
) -> bool {
    let Some(line) = nested(alloc, levels, brackets.0, brackets.1) else {
        return false;
    };
    let texts = ("{\"f\":\"long\",\"x\":\"long\"}", "{}");
    let mut scratch = Scratch::new(alloc);
    let line = line.as_str().as_bytes();
    bound(alloc, SearchKind::Filter, texts, line, &mut scratch).err() == wanted
}

#[test]
fn the_deepest_documents(rt: HostRuntime) {
    let lists = is_refused_so(rt.alloc(), 126, ("[", "]"), None);
    let more_lists = is_refused_so(rt.alloc(), 127, ("[", "]"), Some(BindErr::Syntax));
    let objects = is_refused_so(rt.alloc(), 126, ("{\"a\":", "}"), Some(BindErr::Field));
    let more_objects = is_refused_so(rt.alloc(), 127, ("{\"a\":", "}"), Some(BindErr::Syntax));
    assert!(rt; lists);
    assert!(rt; more_lists);
    assert!(rt; objects);
    assert!(rt; more_objects);
}
