//! Lines that are bound, as texts.
use crate::shown::start_shown;
use json_reading::Scratch;
use serde_json::Value as Json;
use std::alloc::{AllocError, Global};
use write_ctx::{BindErr, Bound, Params, Seed, WriteKind, bind_line};

/// The room of a start.
const ROOM: u64 = 1_000;

/// The parameters of a text, if it is JSON.
fn params_of(alloc: Global, text: &str) -> Option<Params> {
    let json = Json::from_str(alloc, text).ok()?;
    Params::new(alloc, json, Seed::of(b"job")).ok()
}

/// A line that is bound with such parameters, which is `NoMemory` where their text is no JSON.
pub fn bound(
    alloc: Global,
    kind: WriteKind,
    params: &str,
    line: &[u8],
    scratch: &mut Scratch,
) -> Result<Bound, BindErr> {
    match params_of(alloc, params) {
        Some(params) => bind_line(alloc, kind, &params, line, ROOM, Seed::of(b"job"), scratch),
        None => Err(BindErr::NoMemory),
    }
}

/// The name of a cause.
fn cause(error: BindErr) -> &'static str {
    match error {
        BindErr::Syntax => "syntax",
        BindErr::Number => "number",
        BindErr::Field => "field",
        BindErr::NoMemory => "memory",
    }
}

/// Whether a shown text is the one that is wanted.
pub fn is_text(shown: Result<String, AllocError>, wanted: &str) -> bool {
    match shown {
        Ok(text) => text.as_str() == wanted,
        Err(_) => false,
    }
}

/// Whether a line is bound to that start, with all its room.
pub fn starts_so(
    alloc: Global,
    kind: WriteKind,
    params: &str,
    line: &[u8],
    wanted: &str,
    scratch: &mut Scratch,
) -> bool {
    match bound(alloc, kind, params, line, scratch) {
        Ok(start) => start.heap.room_left() == ROOM && is_text(start_shown(alloc, &start), wanted),
        Err(error) => cause(error) == wanted,
    }
}
