//! The values of a field: what each kind of field takes, and their order.

ghost use Rattle.std.specs.Prelude.{◌≡◌, [], Some, None, IfOk, IfErr, OnOk, OnErr, map, string_bytes};
ghost use Rattle.std.specs.Ordering.{int_cmp, bool_cmp};
ghost use Rattle.serde_json.specs.Data.{number};
ghost use Rattle.serde_json.specs.View.{view, number_view};
ghost use Rattle.object_values.specs.declared.value.Value.TheVariants as v;
ghost use Rattle.search_ctx.specs.declared.error.DocErr.TheVariants as doc_err;
ghost use Rattle.search_ctx.specs.DocValues.{keyword_of, long_of, no_values, ordered, truth_of, truth_of_text, truth_text, with_value};
ghost use Rattle.search_ctx.specs.Order.{in_order};
ghost use Rattle.search_ctx.specs.Placing.{script_values};

use crate::error::DocErr;
use crate::words::Words;
use itoa::Buffer;
use job_file::FieldKind;
use object_values::{Elements, Value};
use pl_units::{UText, parse_long};
use serde_json::{Number, Value as Json};
use std::alloc::{AllocError, Global};

/// The values of one field of a document.
pub enum FieldValues {
    /// Whole numbers of 64 bits with a sign.
    Longs(Elements<i64>),
    /// Texts.
    Keywords(Words),
    /// Truth values.
    Booleans(Elements<bool>),
}

impl Drop for FieldValues {
    fn drop(self) {
        match self {
            FieldValues::Longs(_longs) => {}
            FieldValues::Keywords(_words) => {}
            FieldValues::Booleans(_flags) => {}
        }
    }
}

/// The long of a JSON value: a whole number of 64 bits with a sign, or a text that writes one.
fn long_of(alloc: Global, json: &Json) -> Result<i64, DocErr>
    ensures value { IfOk result (λ long. long_of (view json.now) ≡ Some long) }
    ensures error { IfErr result (λ e. (e ≡ doc_err.Field) → (long_of (view json.now) ≡ None)) }
{
    match json {
        Json::Number(number) => number.as_i64().ok_or(DocErr::Field),
        Json::String(text) => {
            let text = UText::from_utf8(alloc, text.as_str())?;
            parse_long(&text).ok_or(DocErr::Field)
        }
        _ => Err(DocErr::Field),
    }
}

/// The keyword of a JSON value: a text, or the text of a whole number or of a truth value.
fn keyword_of(alloc: Global, json: &Json) -> Result<String, DocErr>
    ensures value { IfOk result (λ word. keyword_of (view json.now) ≡ Some (string_bytes word)) }
    ensures error { IfErr result (λ e. (e ≡ doc_err.Field) → (keyword_of (view json.now) ≡ None)) }
{
    match json {
        Json::Bool(flag) => Ok(String::from_str(alloc, truth_text(*flag))?),
        Json::Number(number) => number_text(alloc, number),
        Json::String(text) => Ok(text.clone()?),
        _ => Err(DocErr::Field),
    }
}

/// The text of a truth value.
fn truth_text(flag: bool) -> &'static str
    ensures { result.now ≡ truth_text flag }
{
    if flag { "true" } else { "false" }
}

/// The decimal text of a whole number.
fn number_text(alloc: Global, whole: &Number) -> Result<String, DocErr>
    ensures value { IfOk result (λ word. keyword_of (number (number_view whole.now)) ≡ Some (string_bytes word)) }
    ensures error { IfErr result (λ e. (e ≡ doc_err.Field) → (keyword_of (number (number_view whole.now)) ≡ None)) }
{
    match whole.as_i64() {
        Some(value) => {
            let mut buffer = Buffer::new();
            Ok(String::from_str(alloc, buffer.format(value))?)
        }
        None => Err(DocErr::Field),
    }
}

/// The truth value of a JSON value: one of its own, or its text. The empty text is false.
fn truth_of(json: &Json) -> Result<bool, DocErr>
    ensures value { IfOk result (λ flag. truth_of (view json.now) ≡ Some flag) }
    ensures error { IfErr result (λ e. (e ≡ doc_err.Field) × (truth_of (view json.now) ≡ None)) }
{
    match json {
        Json::Bool(flag) => Ok(*flag),
        Json::String(text) => truth_of_text(text.as_str()),
        _ => Err(DocErr::Field),
    }
}

/// The truth value of a text.
fn truth_of_text(text: &str) -> Result<bool, DocErr>
    ensures value { IfOk result (λ flag. truth_of_text text.now ≡ Some flag) }
    ensures error { IfErr result (λ e. (e ≡ doc_err.Field) × (truth_of_text text.now ≡ None)) }
{
    match text {
        "true" => Ok(true),
        "false" => Ok(false),
        "" => Ok(false),
        _ => Err(DocErr::Field),
    }
}

/// Sorts numbers.
fn sort_longs(longs: &mut Vec<i64>)
    ensures { longs.new.items ≡ in_order int_cmp longs.old.items }
{
    longs.sort_unstable();
}

/// Sorts truth values: false comes first.
fn sort_flags(flags: &mut Vec<bool>)
    ensures { flags.new.items ≡ in_order bool_cmp flags.old.items }
{
    flags.sort_unstable();
}

/// Puts numbers in rising order.
fn order_longs(alloc: Global, longs: &mut Elements<i64>)
    ensures { longs.new ≡ in_order int_cmp longs.old }
{
    let mut items = std::mem::replace(longs, Elements::new(alloc)).into_vec();
    sort_longs(&mut items);
    *longs = Elements::from_vec(items);
}

/// Puts truth values in rising order.
fn order_flags(alloc: Global, flags: &mut Elements<bool>)
    ensures { flags.new ≡ in_order bool_cmp flags.old }
{
    let mut items = std::mem::replace(flags, Elements::new(alloc)).into_vec();
    sort_flags(&mut items);
    *flags = Elements::from_vec(items);
}

/// Numbers as values of a script.
fn long_values(alloc: Global, longs: &[i64]) -> Result<Elements<Value>, AllocError>
    ensures { IfOk result (λ values. values ≡ map v.Long longs.now) }
{
    let mut values = Elements::from_vec(Vec::with_capacity(alloc, longs.len())?);
    for long in longs {
        values.push(Value::Long(*long))?;
    }
    Ok(values)
}

/// Truth values as values of a script.
fn flag_values(alloc: Global, flags: &[bool]) -> Result<Elements<Value>, AllocError>
    ensures { IfOk result (λ values. values ≡ map v.Bool flags.now) }
{
    let mut values = Elements::from_vec(Vec::with_capacity(alloc, flags.len())?);
    for flag in flags {
        values.push(Value::Bool(*flag))?;
    }
    Ok(values)
}

impl FieldValues {
    /// No values of a kind. It takes no memory.
    pub(crate) fn new(alloc: Global, kind: FieldKind) -> FieldValues
        ensures { result ≡ no_values kind }
    {
        match kind {
            FieldKind::Long => FieldValues::Longs(Elements::new(alloc)),
            FieldKind::Keyword => FieldValues::Keywords(Words::new(alloc)),
            FieldKind::Boolean => FieldValues::Booleans(Elements::new(alloc)),
        }
    }

    /// Takes a JSON value as a further one. `Field` where a field of this kind does not take it.
    pub(crate) fn take(&mut self, alloc: Global, json: &Json) -> Result<(), DocErr>
        ensures ok { OnOk result (with_value self.old (view json.now) ≡ Some self.new) }
        ensures error { IfErr result (λ e. (e ≡ doc_err.Field) → (with_value self.old (view json.now) ≡ None)) }
    {
        match self {
            FieldValues::Longs(longs) => longs.push(long_of(alloc, json)?)?,
            FieldValues::Keywords(words) => words.push(keyword_of(alloc, json)?)?,
            FieldValues::Booleans(flags) => flags.push(truth_of(json)?)?,
        }
        Ok(())
    }

    /// Puts the values in order: numbers and truth values rising, texts in the order of their bytes and each once. It takes
    /// no memory.
    pub(crate) fn order(&mut self, alloc: Global)
        ensures { self.new ≡ ordered self.old }
    {
        match self {
            FieldValues::Longs(longs) => order_longs(alloc, longs),
            FieldValues::Keywords(words) => words.order(),
            FieldValues::Booleans(flags) => order_flags(alloc, flags),
        }
    }

    /// The values as values of a script.
    pub(crate) fn to_values(&self, alloc: Global) -> Result<Elements<Value>, AllocError>
        ensures { IfOk result (λ values. values ≡ script_values self.now) }
    {
        match self {
            FieldValues::Longs(longs) => long_values(alloc, longs.as_slice()),
            FieldValues::Keywords(words) => words.to_values(alloc),
            FieldValues::Booleans(flags) => flag_values(alloc, flags.as_slice()),
        }
    }
}
