//! Which values have the type of a key.

ghost use Rattle.std.specs.Prelude.{◌≡◌, false, true};
ghost use Rattle.serde_json.specs.View.{view, items_view, members_view};
ghost use Rattle.job_file.specs.Values.{are_limits, are_whole, are_documents, boost_modes, has_whole_numbers, is_document, is_mode, is_of_type, is_whole, items_have_whole_numbers, members_have_whole_numbers, score_modes};

use crate::keys::ValueType;
use crate::limits::names_limit;
use serde_json::{Map, Value};

/// Whether each number in a value is a whole one of 64 bits with a sign. It goes two calls deeper for each list or object that
/// stands in another.
#[cycle(numbers)]
pub fn has_whole_numbers(value: &Value) -> bool
    ensures { result ≡ has_whole_numbers (view value.now) }
{
    match value {
        Value::Number(number) => number.is_i64(),
        Value::Array(items) => items_have_whole_numbers(items),
        Value::Object(members) => members_have_whole_numbers(members),
        _ => true,
    }
}

/// The same of each item.
#[cycle(numbers)]
fn items_have_whole_numbers(items: &Vec<Value>) -> bool
    ensures { result ≡ items_have_whole_numbers (items_view items.now.items) }
{
    for item in items {
        if !has_whole_numbers(item) {
            return false;
        }
    }
    true
}

/// Whether each number in the value of some member is a whole one of 64 bits with a sign.
#[cycle(numbers)]
pub fn members_have_whole_numbers(members: &Map<String, Value>) -> bool
    ensures { result ≡ members_have_whole_numbers (members_view members.now.entries) }
{
    for (_name, member) in members.iter() {
        if !has_whole_numbers(member) {
            return false;
        }
    }
    true
}

/// Whether a value is a whole number of 64 bits with a sign.
fn is_whole(value: &Value) -> bool
    ensures { result ≡ is_whole (view value.now) }
{
    value.is_i64()
}

/// Whether each item is such a number.
fn are_whole(items: &Vec<Value>) -> bool
    ensures { result ≡ are_whole (items_view items.now.items) }
{
    for item in items {
        if !is_whole(item) {
            return false;
        }
    }
    true
}

/// Whether each member is a limit and has such a number.
fn are_limits(members: &Map<String, Value>) -> bool
    ensures { result ≡ are_limits (members_view members.now.entries) }
{
    for (name, member) in members.iter() {
        if !(names_limit(name.as_str()) && is_whole(member)) {
            return false;
        }
    }
    true
}

/// Whether a value is an object in which each number is a whole one of 64 bits with a sign.
fn is_document(value: &Value) -> bool
    ensures { result ≡ is_document (view value.now) }
{
    match value.as_object() {
        Some(members) => members_have_whole_numbers(members),
        None => false,
    }
}

/// Whether the value of each member is such an object.
fn are_documents(members: &Map<String, Value>) -> bool
    ensures { result ≡ are_documents (members_view members.now.entries) }
{
    for (_name, member) in members.iter() {
        if !is_document(member) {
            return false;
        }
    }
    true
}

/// Whether a value names one of the ways to combine the values of functions.
fn is_score_mode(value: &Value) -> bool
    ensures { result ≡ is_mode score_modes (view value.now) }
{
    match value.as_str() {
        Some(name) => matches!(name, "multiply" | "sum" | "first" | "max" | "min"),
        None => false,
    }
}

/// Whether a value names one of the ways to combine a score and the value of functions.
fn is_boost_mode(value: &Value) -> bool
    ensures { result ≡ is_mode boost_modes (view value.now) }
{
    match value.as_str() {
        Some(name) => matches!(name, "multiply" | "replace" | "sum" | "max" | "min"),
        None => false,
    }
}

/// Whether a value has a type.
pub fn is_of_type(value_type: ValueType, value: &Value) -> bool
    ensures { result ≡ is_of_type value_type (view value.now) }
{
    match value_type {
        ValueType::Text => value.is_string(),
        ValueType::Object => value.is_object(),
        ValueType::Parameters => match value.as_object() {
            Some(members) => members_have_whole_numbers(members),
            None => false,
        },
        ValueType::Limits => match value.as_object() {
            Some(members) => are_limits(members),
            None => false,
        },
        ValueType::Number => is_whole(value),
        ValueType::Numbers => match value.as_array() {
            Some(items) => are_whole(items),
            None => false,
        },
        ValueType::Truth => value.is_boolean(),
        ValueType::Documents => match value.as_object() {
            Some(members) => are_documents(members),
            None => false,
        },
        ValueType::Values => value.is_array(),
        ValueType::ScoreMode => is_score_mode(value),
        ValueType::BoostMode => is_boost_mode(value),
    }
}
