//! From tokens to values.

ghost use Rattle.std.specs.Prelude.{◌≡◌, ◌<◌, length, Some, None, Err, IfOk, IfErr, OnOk, IsUtf8};
ghost use Rattle.json.specs.Json.{value, items, members};
ghost use Rattle.serde_json.specs.Data.{no_members};
ghost use Rattle.serde_json.specs.Read.{of_json, of_items, of_members, converted, read as read_of};
ghost use Rattle.serde_json.specs.View.{view, items_view, members_view};
ghost use Rattle.json_reading.specs.declared.error.ReadErr.TheVariants as e;

use crate::error::ReadErr;
use crate::numbers::number_in;
use crate::scratch::Scratch;
use json::{Reader, Token};
use serde_json::{Map, Value};
use std::alloc::Global;

/// How many arrays and objects may stand around a value.
const MAX_DEPTH: usize = 127;

/// The next value, with arrays and objects nested in it no deeper than this.
#[cycle(read)]
fn next_value(alloc: Global, reader: &mut Reader<'_>, depth: usize) -> Result<Value, ReadErr>
    ensures value { IfOk result (λ found. converted of_json (value depth reader.old) ≡ Some (view found, reader.new)) }
    ensures shorter { OnOk result (length reader.new < length reader.old) }
    ensures error { result ≡ Err e.Syntax → converted of_json (value depth reader.old) ≡ None }
{
    let token = reader.next().ok_or(ReadErr::Syntax)?;
    match token {
        Token::String(text) => Ok(Value::String(String::from_str(alloc, text)?)),
        Token::Number(text) => match number_in(text) {
            Some(number) => Ok(Value::Number(number)),
            None => Err(ReadErr::Syntax),
        },
        Token::Bool(flag) => Ok(Value::Bool(flag)),
        Token::Null => Ok(Value::Null),
        Token::EndObject | Token::EndArray | Token::Key(_) | Token::Bad => Err(ReadErr::Syntax),
        Token::BeginArray => {
            if depth == 0 {
                return Err(ReadErr::Syntax);
            }
            Ok(Value::Array(items_to_end(alloc, reader, depth - 1)?))
        }
        Token::BeginObject => {
            if depth == 0 {
                return Err(ReadErr::Syntax);
            }
            Ok(Value::Object(members_to_end(alloc, reader, depth - 1)?))
        }
    }
}

/// The items of an array up to its end.
#[cycle(read)]
fn items_to_end(alloc: Global, reader: &mut Reader<'_>, depth: usize) -> Result<Vec<Value>, ReadErr>
    ensures value { IfOk result
        (λ found. converted of_items (items (value depth) (length reader.old) reader.old) ≡ Some (items_view found.items, reader.new)) }
    ensures shorter { OnOk result (length reader.new < length reader.old) }
    ensures error { result ≡ Err e.Syntax → converted of_items (items (value depth) (length reader.old) reader.old) ≡ None }
{
    let mut found = Vec::new(alloc);
    'items: while !reader.take_end_array() {
        let item = next_value(alloc, reader, depth)?;
        found.push(item)?;
    }
    Ok(found)
}

/// The members of an object up to its end. The last value of a name stays.
#[cycle(read)]
fn members_to_end(
    alloc: Global,
    reader: &mut Reader<'_>,
    depth: usize,
) -> Result<Map<String, Value>, ReadErr>
    ensures value { IfOk result
        (λ found. converted (λ ms. of_members ms no_members) (members (value depth) (length reader.old) reader.old) ≡ Some (members_view found.entries, reader.new)) }
    ensures shorter { OnOk result (length reader.new < length reader.old) }
    ensures error { result ≡ Err e.Syntax → converted (λ ms. of_members ms no_members) (members (value depth) (length reader.old) reader.old) ≡ None }
{
    let mut found = Map::new(alloc);
    'members: while let Some(name) = reader.next_key()? {
        let key = String::from_str(alloc, name)?;
        let member = next_value(alloc, reader, depth)?;
        drop(found.insert(key, member)?);
    }
    Ok(found)
}

/// The value of a text.
fn read_text(alloc: Global, text: &str, scratch: &mut Scratch) -> Result<Value, ReadErr>
    ensures value { IfOk result (λ found. read_of text.now ≡ Some (view found)) }
    ensures error { result ≡ Err e.Syntax → read_of text.now ≡ None }
{
    let mut reader = Reader::new(text, &mut scratch.memory)?;
    let found = next_value(alloc, &mut reader, MAX_DEPTH)?;
    match reader.next() {
        None => Ok(found),
        Some(_) => Err(ReadErr::Syntax),
    }
}

/// The value of a text, as `serde_json` reads it: `Syntax` where the bytes are no UTF-8 or no JSON, where more than 127 arrays and
/// objects stand in one another, or where a number is too large for a float. The scratch is for this and any other reading.
pub fn read_json(alloc: Global, bytes: &[u8], scratch: &mut Scratch) -> Result<Value, ReadErr>
    ensures text { IfOk result (λ found. IsUtf8 bytes.now) }
    ensures value { IfOk result (λ found. read_of bytes.now ≡ Some (view found)) }
    ensures error { result ≡ Err e.Syntax → IsUtf8 bytes.now → read_of bytes.now ≡ None }
{
    match simdutf8::compat::from_utf8(bytes) {
        Ok(text) => read_text(alloc, text, scratch),
        Err(_) => Err(ReadErr::Syntax),
    }
}
