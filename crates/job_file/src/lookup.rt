//! The keys of a job file looked up in it, and the first one that is wrong.

ghost use Rattle.std.specs.Prelude.{◌≡◌, map, option_map, not};
ghost use Rattle.serde_json.specs.Find.{get};
ghost use Rattle.serde_json.specs.View.{view, members_view};
ghost use Rattle.job_file.specs.Jobs.{field, first, is_key, is_right, is_right_value, key_fault, text_at, truth_at, unknown_key};
ghost use Rattle.job_file.specs.Keys.{keys, row_of};
ghost use Rattle.job_file.specs.Mappings.{least, names_where};

use crate::context::JobContext;
use crate::keys::{KEYS, Key, Presence, is_key};
use crate::values::is_of_type;
use serde_json::{Map, Value};

/// The value at a key.
pub fn value_of<'v>(file: &'v Value, key: Key) -> Option<&'v Value>
    ensures { option_map (λ value. view value.now) result ≡ get (row_of key).name (view file.now) }
{
    file.get(key.name())
}

/// The text at a key, or the empty one.
pub fn text_at<'v>(file: &'v Value, key: Key) -> &'v str
    ensures { result.now ≡ text_at key (view file.now) }
{
    match value_of(file, key).and_then(Value::as_str) {
        Some(text) => text,
        None => "",
    }
}

/// The truth value at a key, or `false`.
pub fn truth_at(file: &Value, key: Key) -> bool
    ensures { result ≡ truth_at key (view file.now) }
{
    value_of(file, key)
        .and_then(Value::as_bool)
        .unwrap_or(false)
}

/// The least of some members' names that is no key of a context.
fn least_unknown<'a>(context: JobContext, members: &'a Map<String, Value>) -> Option<&'a str>
    ensures { option_map (λ name. name.now) result ≡ least (names_where (λ name d. not (is_key context name)) (members_view members.now.entries)) }
{
    for (name, _value) in members.iter() {
        if !is_key(context, name.as_str()) {
            return Some(name.as_str());
        }
    }
    None
}

/// The least unknown key of a job file. A key of another context is unknown.
pub fn unknown_key<'v>(context: JobContext, file: &'v Value) -> Option<&'v str>
    ensures { option_map (λ name. name.now) result ≡ unknown_key context (view file.now) }
{
    match file.as_object() {
        Some(members) => least_unknown(context, members),
        None => None,
    }
}

/// Whether what is at a key of this context is right for its row.
fn is_right_value(key: Key, value: Option<&Value>) -> bool
    ensures { result ≡ is_right_value (row_of key) (option_map (λ value. view value.now) value.entry) }
{
    let row = key.row();
    match value {
        Some(value) => is_of_type(row.value_type, value),
        None => matches!(row.presence, Presence::Optional),
    }
}

/// Whether a key of a context has a value of its type, or need not be there.
fn is_right(context: JobContext, file: &Value, key: Key) -> bool
    ensures { result ≡ is_right context (view file.now) key }
{
    !key.belongs(context) || is_right_value(key, value_of(file, key))
}

/// The first of some keys that is missing or has a value of another type.
fn first_wrong(context: JobContext, file: &Value, keys: &[Key]) -> Option<Key>
    ensures { option_map (λ key. field (row_of key).name) result ≡ first (map (key_fault context (view file.now)) keys.now) }
{
    for key in keys {
        if !is_right(context, file, *key) {
            return Some(*key);
        }
    }
    None
}

/// The first key of the table that is missing or has a value of another type.
pub fn wrong_key(context: JobContext, file: &Value) -> Option<Key>
    ensures { option_map (λ key. field (row_of key).name) result ≡ first (map (key_fault context (view file.now)) keys) }
{
    first_wrong(context, file, &KEYS)
}
