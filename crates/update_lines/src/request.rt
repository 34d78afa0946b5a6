//! What a line of `updates` asks for.

ghost use Rattle.std.specs.Prelude.{◌≡◌, codes, option_map, Err, IfOk, string_bytes};
ghost use Rattle.std.specs.Str.{IsUtf8};
ghost use Rattle.serde_json.specs.Find.{get};
ghost use Rattle.serde_json.specs.Read.{read};
ghost use Rattle.serde_json.specs.View.{members_view, view};
ghost use Rattle.json_bridge.specs.Starts.{syntax};
ghost use Rattle.update_lines.specs.Requests.{Asks, are_keys, asked_by, asked_in, asked_of, id_in, is_id, is_key, is_line, is_params, is_retries, request_in, request_view, retries_in, retries_of};

use job_file::has_whole_numbers;
use json_bridge::BindErr;
use json_reading::{Scratch, read_json};
use serde_json::{Map, Value};
use std::alloc::{AllocError, Global};

/// The most retries that a client may have.
const MOST_RETRIES: u64 = 100;

/// What a line asks for.
pub struct Request {
    /// The id of the document.
    pub id: String,
    /// An object; none where the line has no params.
    pub params: Option<Value>,
    /// How often the client begins again where another has changed the document meanwhile: at most 100.
    pub retries: u32,
}

impl Drop for Request {
    fn drop(self) {
        let Request {
            id: _id,
            params: _params,
            retries: _,
        } = self;
    }
}

impl Request {
    /// The id, the params, and how often the client begins again.
    pub fn into_parts(self) -> (String, Option<Value>, u32)
        ensures id { result.0 ≡ self.id }
        ensures params { result.1 ≡ self.params }
        ensures retries { result.2 ≡ self.retries }
    {
        let Request {
            id,
            params,
            retries,
        } = self;
        (id, params, retries)
    }
}

fn is_key(name: &str) -> bool
    ensures { result ≡ is_key name.now }
{
    name == "id" || name == "params" || name == "retry_on_conflict"
}

fn are_keys(members: &Map<String, Value>) -> bool
    ensures { result ≡ are_keys (members_view members.now.entries) }
{
    for (name, _value) in members.iter() {
        if !is_key(name.as_str()) {
            return false;
        }
    }
    true
}

/// How many retries a value says.
fn retries_in(value: &Value) -> Option<u32>
    ensures { result ≡ retries_in (view value.now) }
{
    match value.as_u64() {
        Some(count) => {
            if count <= MOST_RETRIES {
                Some(count as u32)
            } else {
                None
            }
        }
        None => None,
    }
}

fn is_id(value: Option<&Value>) -> bool
    ensures { result ≡ is_id (option_map (λ value. view value.now) value.entry) }
{
    match value {
        Some(value) => value.is_string(),
        None => false,
    }
}

fn is_params(value: Option<&Value>) -> bool
    ensures { result ≡ is_params (option_map (λ value. view value.now) value.entry) }
{
    match value {
        Some(value) => value.is_object(),
        None => true,
    }
}

fn is_retries(value: Option<&Value>) -> bool
    ensures { result ≡ is_retries (option_map (λ value. view value.now) value.entry) }
{
    match value {
        Some(value) => retries_in(value).is_some(),
        None => true,
    }
}

/// Whether a line is an object with no other keys than these, each with a value of its type.
fn is_line(line: &Value) -> bool
    ensures { result ≡ is_line (view line.now) }
{
    match line.as_object() {
        Some(members) => {
            are_keys(members)
                && is_id(line.get("id"))
                && is_params(line.get("params"))
                && is_retries(line.get("retry_on_conflict"))
        }
        None => false,
    }
}

/// The id of a line.
fn id_in(alloc: Global, line: &Value) -> Result<String, AllocError>
    ensures { IfOk result (λ id. string_bytes id ≡ id_in (view line.now)) }
{
    match line.get("id").and_then(Value::as_str) {
        Some(id) => String::from_str(alloc, id),
        None => Ok(String::new(alloc)),
    }
}

/// How many retries a line asks for.
fn retries_of(line: &Value) -> u32
    ensures { result ≡ retries_of (view line.now) }
{
    line.get("retry_on_conflict")
        .and_then(retries_in)
        .unwrap_or(0)
}

/// The params of a line, which is let go.
fn params_of(line: Value) -> Option<Value>
    ensures { option_map view result ≡ get (codes "params") (view line) }
{
    match line {
        Value::Object(mut members) => members.remove("params"),
        _ => None,
    }
}

/// What a line asks for that keeps the rules.
fn request_in(alloc: Global, line: Value) -> Result<Request, AllocError>
    ensures { IfOk result (λ request. request_view request ≡ request_in (view line)) }
{
    let id = id_in(alloc, &line)?;
    let retries = retries_of(&line);
    Ok(Request {
        id,
        params: params_of(line),
        retries,
    })
}

/// What a line that was read asks for.
fn asked_by(alloc: Global, line: Value) -> Result<Request, BindErr>
    ensures { Asks result (asked_by (view line)) }
{
    if !has_whole_numbers(&line) {
        return Err(BindErr::Number);
    }
    if !is_line(&line) {
        return Err(BindErr::Field);
    }
    match request_in(alloc, line) {
        Ok(request) => Ok(request),
        Err(_) => Err(BindErr::NoMemory),
    }
}

/// What a line asks for, by whether it is UTF-8.
fn requested(alloc: Global, line: &[u8], scratch: &mut Scratch) -> Result<Request, BindErr>
    ensures text { IsUtf8 line.now → Asks result (asked_in (read line.now)) }
    ensures bytes { ¬ IsUtf8 line.now → Asks result (Err syntax) }
{
    let json = read_json(alloc, line, scratch)?;
    asked_by(alloc, json)
}

/// What a line of input asks for. Of the causes why it asks for nothing the first is answered: `Syntax` where `serde_json` does not read
/// the line, `Number` where some number is no whole one of 64 bits with a sign, `Field` where it is no object, or has another key than
/// `id`, `params` and `retry_on_conflict`, or lacks the id, or has a value of another type, or more than 100 retries. The scratch is kept
/// from line to line, and what lies in it changes nothing.
pub fn read_request(alloc: Global, line: &[u8], scratch: &mut Scratch) -> Result<Request, BindErr>
    ensures { Asks result (asked_of line.now) }
{
    requested(alloc, line, scratch)
}
