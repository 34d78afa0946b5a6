//! Whether a line keeps the rules of its context.

ghost use Rattle.std.specs.Prelude.{◌≡◌, option_map};
ghost use Rattle.std.specs.List.{list_all};
ghost use Rattle.serde_json.specs.Find.{get};
ghost use Rattle.serde_json.specs.View.{view, members_view};
ghost use Rattle.write_ctx.specs.Keys.{are_fields, are_keys, has, is_line, is_of_type, is_right, is_right_value, name_of, row_of};

use crate::keys::{LineKey, LineType, WriteKind, is_key, keys_of};
use serde_json::{Map, Value as Json};

/// What stands at a key.
pub(crate) fn value_of<'v>(line: &'v Json, key: LineKey) -> Option<&'v Json>
    ensures { option_map (λ value. view value.now) result ≡ get (name_of key) (view line.now) }
{
    line.get(key.name())
}

fn has(value: &Json, name: &str) -> bool
    ensures { result ≡ has name.now (view value.now) }
{
    value.get(name).is_some()
}

/// Whether a value is an object with the keys of neither an id nor an index.
fn are_fields(value: &Json) -> bool
    ensures { result ≡ are_fields (view value.now) }
{
    value.is_object() && !has(value, "_id") && !has(value, "_index")
}

/// Whether a value has a type.
fn is_of_type(value_type: LineType, value: &Json) -> bool
    ensures { result ≡ is_of_type value_type (view value.now) }
{
    match value_type {
        LineType::Text => value.is_string(),
        LineType::TextOrNull => value.is_string() || value.is_null(),
        LineType::Number => value.is_number(),
        LineType::Object => value.is_object(),
        LineType::Fields => are_fields(value),
    }
}

/// Whether what stands at a key is right for its row.
fn is_right_value(kind: WriteKind, key: LineKey, value: Option<&Json>) -> bool
    ensures { result ≡ is_right_value (row_of kind key) (option_map (λ value. view value.now) value.entry) }
{
    match value {
        Some(value) => is_of_type(key.value_type(kind), value),
        None => key.is_optional(kind),
    }
}

/// Whether a key has a value of its type, or need not be there.
fn is_right(kind: WriteKind, line: &Json, key: LineKey) -> bool
    ensures { result ≡ is_right kind (view line.now) key }
{
    is_right_value(kind, key, value_of(line, key))
}

/// Whether each of some keys is right.
fn are_right(kind: WriteKind, line: &Json, keys: &[LineKey]) -> bool
    ensures { result ≡ list_all (is_right kind (view line.now)) keys.now }
{
    keys.iter().all(|key| is_right(kind, line, *key))
}

/// Whether the name of each member is a key.
fn are_keys(kind: WriteKind, members: &Map<String, Json>) -> bool
    ensures { result ≡ are_keys kind (members_view members.now.entries) }
{
    for (name, _value) in members.iter() {
        if !is_key(kind, name.as_str()) {
            return false;
        }
    }
    true
}

/// Whether a line is an object that has no other key than those of its kind, each with a value of its type.
pub fn is_line(kind: WriteKind, line: &Json) -> bool
    ensures { result ≡ is_line kind (view line.now) }
{
    match line.as_object() {
        Some(members) => are_keys(kind, members) && are_right(kind, line, keys_of(kind)),
        None => false,
    }
}
