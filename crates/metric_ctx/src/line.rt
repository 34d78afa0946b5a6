//! The shard of a line of input.

ghost use Rattle.std.specs.Prelude.{◌≡◌, ◌<◌, Err, option_map};
ghost use Rattle.std.specs.Str.{IsUtf8};
ghost use Rattle.serde_json.specs.Data.{object};
ghost use Rattle.serde_json.specs.Find.{as_object};
ghost use Rattle.serde_json.specs.Read.{read};
ghost use Rattle.serde_json.specs.View.{view};
ghost use Rattle.json_bridge.specs.Starts.{syntax};
ghost use Rattle.pipe_fields.specs.Ways.{without_member};
ghost use Rattle.metric_ctx.specs.Lines.{IsSplit, shard_in, shard_key, shard_of, split_data, split_line};

use job_file::has_whole_numbers;
use json_bridge::BindErr;
use json_reading::{Scratch, read_json};
use serde_json::Value as Json;
use std::alloc::Global;

/// The key of the shard in a line.
const SHARD_KEY: &str = "_shard";

/// The shard that a value says: a number from 0 that is below so many.
fn shard_in(json: &Json, shards: u32) -> Option<u32>
    ensures { result ≡ shard_in shards (view json.now) }
{
    match json.as_i64() {
        Some(number) => if 0 <= number && number < shards as i64 {
            Some(number as u32)
        } else {
            None
        },
        None => None,
    }
}

/// The shard of a line: 0 where it says none.
fn shard_of(json: Option<&Json>, shards: u32) -> Option<u32>
    requires { 0 < shards }
    ensures { result ≡ shard_of shards (option_map (λ json. view json.now) json.entry) }
{
    match json {
        Some(json) => shard_in(json, shards),
        None => Some(0),
    }
}

/// An object without the key of the shard.
fn document_of(json: Json) -> Option<Json>
    ensures { option_map view result ≡ option_map (λ ms. object (without_member shard_key ms)) (as_object (view json)) }
{
    match json {
        Json::Object(mut members) => {
            drop(members.remove(SHARD_KEY));
            Some(Json::Object(members))
        }
        _ => None,
    }
}

/// Splits what was read of a line, as `split` does; so `Syntax` is never answered.
fn split_document(json: Json, shards: u32) -> Result<(u32, Json), BindErr>
    requires { 0 < shards }
    ensures { IsSplit result (split_data shards (view json)) }
{
    if !has_whole_numbers(&json) {
        return Err(BindErr::Number);
    }
    if json.as_object().is_none() {
        return Err(BindErr::Field);
    }
    let Some(shard) = shard_of(json.get(SHARD_KEY), shards) else {
        return Err(BindErr::Field);
    };
    match document_of(json) {
        Some(document) => Ok((shard, document)),
        None => Err(BindErr::Field),
    }
}

/// The shard of a line, and its document, which is the line without the key of the shard. A line that says no shard is of shard 0.
///
/// Of the causes why not the first is answered: `Syntax` where `serde_json` does not read the line, `Number` where some number of it is
/// no whole one of 64 bits with a sign, `Field` where it is no object or its shard is no number from 0 that is below `shards`. The scratch
/// is kept from line to line, and what lies in it changes nothing.
pub fn split(
    alloc: Global,
    line: &[u8],
    shards: u32,
    scratch: &mut Scratch,
) -> Result<(u32, Json), BindErr>
    requires { 0 < shards }
    ensures text { IsUtf8 line.now → IsSplit result (split_line shards (read line.now)) }
    ensures bytes { ¬ IsUtf8 line.now → IsSplit result (Err syntax) }
{
    let json = read_json(alloc, line, scratch)?;
    split_document(json, shards)
}
