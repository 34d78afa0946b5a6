//! Functions read from JSON, each with the first thing that is wrong with it.

ghost use Rattle.std.specs.Prelude.{◌≡◌, ◌+◌, ◌++◌, ◌≤◌, ◌≤ℤ◌, pos, [], ◌∷◌, Err, OnOk, IfOk, IfErr, length, not, option_map, option_and_then, string_bytes};
ghost use Rattle.std.specs.Option.{ForSome};
ghost use Rattle.serde_json.specs.Find.{as_str};
ghost use Rattle.serde_json.specs.View.{view, items_view, members_view};
ghost use Rattle.function_score.specs.Answers.{IsRead, fault_view, function_view, functions_view};
ghost use Rattle.function_score.specs.Functions.{absent_or, fault_of, first, function_of, functions_from, is_key, is_text, is_weight, known_faults, list_path, path_of, unknown_key, weight_of};

use crate::error::FunErr;
use crate::function::{GREATEST_WEIGHT, ScoreFun};
use itoa::Buffer;
use serde_json::{Map, Value};
use std::alloc::{AllocError, Global};

/// The most functions of a list.
const FUNCTION_COUNT: usize = 64;

/// What is wrong with a function: the function as a whole, or a key of it.
#[derive(Clone, Copy)]
pub enum Wrong<'v> {
    Whole,
    Key(&'v str),
}

/// Whether a name is a key of a function.
fn is_key(name: &str) -> bool
    ensures { result ≡ is_key name.now }
{
    matches!(name, "filter" | "script" | "weight")
}

/// The least of some members' names by bytes that is no key of a function.
fn unknown_key<'v>(members: &'v Map<String, Value>) -> Option<&'v str>
    ensures { option_map (λ name. name.now) result ≡ unknown_key (members_view members.now.entries) }
{
    for (name, _value) in members.iter() {
        if !is_key(name.as_str()) {
            return Some(name.as_str());
        }
    }
    None
}

/// The weight that a value denotes: a whole number from 0 to 10^9.
fn weight_of(value: &Value) -> Option<i64>
    ensures weight { result ≡ option_map pos (weight_of (view value.now)) }
    ensures least { ForSome result (λ weight. pos 0 ≤ℤ weight) }
    ensures most { ForSome result (λ weight. weight ≤ℤ pos 1000000000) }
{
    match value.as_i64() {
        Some(weight) => if 0 <= weight && weight <= GREATEST_WEIGHT {
            Some(weight)
        } else {
            None
        },
        None => None,
    }
}

/// Whether a key has a value that is no text.
fn is_no_text(value: Option<&Value>) -> bool
    ensures { result ≡ not (absent_or is_text (option_map (λ value. view value.now) value.entry)) }
{
    match value {
        Some(value) => !value.is_string(),
        None => false,
    }
}

/// Whether a key has a value that is no weight.
fn is_no_weight(value: Option<&Value>) -> bool
    ensures { result ≡ not (absent_or is_weight (option_map (λ value. view value.now) value.entry)) }
{
    match value {
        Some(value) => weight_of(value).is_none(),
        None => false,
    }
}

/// The first of the known keys with a wrong value, or the function where it has neither script nor weight.
fn known_fault(function: &Value) -> Option<Wrong<'static>>
    ensures { option_map fault_view result ≡ first (known_faults (view function.now)) }
{
    if is_no_text(function.get("filter")) {
        return Some(Wrong::Key("filter"));
    }
    if is_no_text(function.get("script")) {
        return Some(Wrong::Key("script"));
    }
    if is_no_weight(function.get("weight")) {
        return Some(Wrong::Key("weight"));
    }
    if function.get("script").is_none() && function.get("weight").is_none() {
        return Some(Wrong::Whole);
    }
    None
}

/// The first thing that is wrong with a function.
fn fault_of<'v>(function: &'v Value) -> Option<Wrong<'v>>
    ensures { option_map fault_view result ≡ fault_of (view function.now) }
{
    let Some(members) = function.as_object() else {
        return Some(Wrong::Whole);
    };
    match unknown_key(members) {
        Some(name) => Some(Wrong::Key(name)),
        None => known_fault(function),
    }
}

/// The path of what is wrong with the function of a number.
fn path_of(alloc: Global, number: usize, wrong: Wrong) -> Result<String, AllocError>
    ensures { IfOk result (λ path. string_bytes path ≡ path_of number (fault_view wrong.entry)) }
{
    let mut path = String::from_str(alloc, "functions.")?;
    let mut buffer = Buffer::new();
    path.push_str(buffer.format(number))?;
    if let Wrong::Key(key) = wrong {
        path.push('.')?;
        path.push_str(key)?;
    }
    Ok(path)
}

/// An error for what is wrong with the function of a number.
fn bad(alloc: Global, number: usize, wrong: Wrong) -> FunErr
    ensures { IsRead (Err result) (Err (path_of number (fault_view wrong.entry))) }
{
    match path_of(alloc, number, wrong) {
        Ok(path) => FunErr::Bad(path),
        Err(_) => FunErr::NoMemory,
    }
}

/// An error for what is no list.
pub fn no_list(alloc: Global) -> FunErr
    ensures { IsRead (Err result) (Err list_path) }
{
    match String::from_str(alloc, "functions") {
        Ok(path) => FunErr::Bad(path),
        Err(_) => FunErr::NoMemory,
    }
}

/// The text at a key.
fn text_at(alloc: Global, value: Option<&Value>) -> Result<Option<String>, AllocError>
    ensures { IfOk result (λ text. option_map string_bytes text ≡ option_and_then as_str (option_map (λ value. view value.now) value.entry)) }
{
    match value.and_then(Value::as_str) {
        Some(text) => Ok(Some(String::from_str(alloc, text)?)),
        None => Ok(None),
    }
}

/// The function that an object denotes.
fn function_of(alloc: Global, function: &Value) -> Result<ScoreFun, AllocError>
    ensures { IfOk result (λ made. function_view made ≡ function_of (view function.now)) }
{
    let filter = text_at(alloc, function.get("filter"))?;
    let script = text_at(alloc, function.get("script"))?;
    let weight = match function.get("weight") {
        Some(value) => weight_of(value),
        None => None,
    };
    Ok(ScoreFun {
        filter,
        script,
        weight,
    })
}

/// A function behind others.
fn add_function(
    alloc: Global,
    functions: &mut Vec<ScoreFun>,
    function: &Value,
) -> Result<(), AllocError>
    ensures ok { OnOk result (functions_view functions.new.items ≡ functions_view functions.old.items ++ function_of (view function.now) ∷ []) }
    ensures more { OnOk result (length functions.new.items ≡ length functions.old.items + 1) }
{
    functions.push(function_of(alloc, function)?)?;
    Ok(())
}

/// The functions of a list, or an error for the first one that is wrong.
pub fn functions_of(alloc: Global, items: &Vec<Value>) -> Result<Vec<ScoreFun>, FunErr>
    ensures ok { IfOk result (λ functions. functions_from 0 (items_view items.now.items) ≡ Ok (functions_view functions.items)) }
    ensures few { IfOk result (λ functions. length functions.items ≤ 64) }
    ensures err { IfErr result (λ error. IsRead (Err error) (functions_from 0 (items_view items.now.items))) }
{
    let mut functions = Vec::new(alloc);
    for (number, item) in items.iter().enumerate() {
        if number >= FUNCTION_COUNT {
            return Err(bad(alloc, number, Wrong::Whole));
        }
        if let Some(wrong) = fault_of(item) {
            return Err(bad(alloc, number, wrong));
        }
        add_function(alloc, &mut functions, item)?;
    }
    Ok(functions)
}
