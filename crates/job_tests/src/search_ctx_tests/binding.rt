//! Lines that are bound, as texts.
use super::shown::{has_lists, is_start};
use job_file::Mapping;
use json_reading::Scratch;
use search_ctx::{BindErr, Bound, Fields, Params, SearchKind, Seed, bind_line};
use serde_json::Value as Json;
use std::alloc::Global;

/// The room of a start.
pub const ROOM: u64 = 3;

/// The fields of the mapping that a JSON text denotes.
pub fn fields_of(alloc: Global, mapping: &str) -> Option<Fields> {
    let json = Json::from_str(alloc, mapping).ok()?;
    let mapping = Mapping::read(alloc, &json).ok()?;
    Fields::new(alloc, &mapping).ok()
}

/// Parameters of a text, if it is one of JSON.
pub fn params_of(alloc: Global, text: &str) -> Option<Params> {
    let json = Json::from_str(alloc, text).ok()?;
    Params::new(alloc, json, Seed::of(b"job")).ok()
}

/// A line that is bound with such parameters, which is `NoMemory` where a text is none of the mapping's or of JSON.
pub fn bound(
    alloc: Global,
    kind: SearchKind,
    texts: (&str, &str),
    line: &[u8],
    scratch: &mut Scratch,
) -> Result<Bound, BindErr> {
    let Some(fields) = fields_of(alloc, texts.0) else {
        return Err(BindErr::NoMemory);
    };
    match params_of(alloc, texts.1) {
        Some(params) => bind_line(
            alloc,
            kind,
            &fields,
            &params,
            line,
            ROOM,
            Seed::of(b"job"),
            scratch,
        ),
        None => Err(BindErr::NoMemory),
    }
}

/// The name of a cause.
fn cause(error: BindErr) -> &'static str {
    match error {
        BindErr::Syntax => "syntax",
        BindErr::Number => "number",
        BindErr::Field => "field",
        BindErr::NoMemory => "memory",
    }
}

/// Whether the doc values of a line are those.
pub fn has_values(alloc: Global, mapping: &str, line: &str, wanted: &str) -> bool {
    let texts = (mapping, "{}");
    let mut scratch = Scratch::new(alloc);
    match bound(
        alloc,
        SearchKind::Filter,
        texts,
        line.as_bytes(),
        &mut scratch,
    ) {
        Ok(bound) => has_lists(alloc, &bound.heap, wanted),
        Err(error) => cause(error) == wanted,
    }
}

/// Whether a line is bound to that start.
pub fn starts_so(
    alloc: Global,
    kind: SearchKind,
    texts: (&str, &str),
    line: &str,
    wanted: &str,
    scratch: &mut Scratch,
) -> bool {
    match bound(alloc, kind, texts, line.as_bytes(), scratch) {
        Ok(bound) => is_start(alloc, &bound, wanted),
        Err(error) => cause(error) == wanted,
    }
}
