//! What the keys of a processor say, once each has its form.

ghost use Rattle.std.specs.Prelude.{◌≡◌, IfOk, option_map};
ghost use Rattle.serde_json.specs.View.{view};
ghost use Rattle.ingest_pipe.specs.Keys.{key_name};
ghost use Rattle.ingest_pipe.specs.Paths.{IsGiven, below};
ghost use Rattle.ingest_pipe.specs.Settings.{action_of, at_key, change_of, field_at, flag_at, follows_of, needed, parameters, place_at, test_of, text_at, when_missing, when_there};

use crate::error::PipeErr;
use crate::forms::{field_in, place_in};
use crate::keys::{Key, Kind, ON_FAILURE};
use crate::literal::Literal;
use crate::paths::{bad_below, below};
use crate::processors::{Action, Follows};
use crate::scripts::PipeScript;
use pipe_fields::{Field, Place, WhenMissing, WhenThere};
use plain_data::Text;
use serde_json::Value;
use std::alloc::{AllocError, Global};

/// The text at a key.
fn text_at(alloc: Global, processor: &Value, key: Key) -> Result<Option<Text>, AllocError>
    ensures { IfOk result (λ text. text ≡ text_at key (view processor.now)) }
{
    match processor.get(key.name()).and_then(Value::as_str) {
        Some(text) => Ok(Some(Text::new(alloc, text)?)),
        None => Ok(None),
    }
}

/// The field at a key.
fn field_at(alloc: Global, processor: &Value, key: Key) -> Result<Option<Field>, AllocError>
    ensures { IfOk result (λ field. field ≡ field_at key (view processor.now)) }
{
    match processor.get(key.name()) {
        Some(value) => field_in(alloc, value),
        None => Ok(None),
    }
}

/// The place at a key.
fn place_at(alloc: Global, processor: &Value, key: Key) -> Result<Option<Place>, AllocError>
    ensures { IfOk result (λ place. place ≡ place_at key (view processor.now)) }
{
    match processor.get(key.name()) {
        Some(value) => place_in(alloc, value),
        None => Ok(None),
    }
}

/// A copy of the value at a key.
fn value_at(processor: &Value, key: Key) -> Result<Option<Literal>, AllocError>
    ensures { IfOk result (λ value. value ≡ at_key key (view processor.now)) }
{
    match processor.get(key.name()) {
        Some(value) => Ok(Some(Literal::copy_of(value)?)),
        None => Ok(None),
    }
}

/// The flag at a key, or what stands for it where it is absent.
fn flag_at(processor: &Value, key: Key, default: bool) -> bool
    ensures { result ≡ flag_at key default (view processor.now) }
{
    processor
        .get(key.name())
        .and_then(Value::as_bool)
        .unwrap_or(default)
}

/// What becomes of what stands at the place of a `set`.
fn when_there(processor: &Value) -> WhenThere
    ensures { result ≡ when_there (view processor.now) }
{
    if flag_at(processor, Key::Override, true) {
        WhenThere::Replaced
    } else {
        WhenThere::Kept
    }
}

/// What follows where a field is not there.
fn when_missing(processor: &Value) -> WhenMissing
    ensures { result ≡ when_missing (view processor.now) }
{
    if flag_at(processor, Key::IgnoreMissing, false) {
        WhenMissing::Passes
    } else {
        WhenMissing::Fails
    }
}

/// What follows where a processor fails.
pub(crate) fn follows_of(processor: &Value) -> Follows
    ensures { result ≡ follows_of (view processor.now) }
{
    if flag_at(processor, Key::IgnoreFailure, false) {
        return Follows::Ignored;
    }
    match processor.get(ON_FAILURE) {
        Some(_) => Follows::Recovers,
        None => Follows::Fails,
    }
}

/// What a key that has to be there gives.
fn needed<X>(alloc: Global, path: &str, key: Key, value: Option<X>) -> Result<X, PipeErr>
    ensures { IsGiven (needed path.now key value) result }
{
    match value {
        Some(value) => Ok(value),
        None => Err(bad_below(alloc, path, key.name())),
    }
}

/// A `set`.
fn set_of(alloc: Global, path: &str, processor: &Value) -> Result<Action, PipeErr>
    ensures { IsGiven (action_of path.now Kind.Set 0 (view processor.now)) result }
{
    let place = needed(
        alloc,
        path,
        Key::Field,
        place_at(alloc, processor, Key::Field)?,
    )?;
    let value = needed(alloc, path, Key::Value, value_at(processor, Key::Value)?)?;
    Ok(Action::Set(place, value, when_there(processor)))
}

/// A `rename`.
fn rename_of(alloc: Global, path: &str, processor: &Value) -> Result<Action, PipeErr>
    ensures { IsGiven (action_of path.now Kind.Rename 0 (view processor.now)) result }
{
    let field = needed(
        alloc,
        path,
        Key::Field,
        field_at(alloc, processor, Key::Field)?,
    )?;
    let target_field = field_at(alloc, processor, Key::TargetField)?;
    let target = needed(alloc, path, Key::TargetField, target_field)?;
    Ok(Action::Rename(field, target, when_missing(processor)))
}

/// What a processor does. If it has a script, that stands at this place among the scripts.
pub(crate) fn action_of(
    alloc: Global,
    path: &str,
    kind: Kind,
    script: usize,
    processor: &Value,
) -> Result<Action, PipeErr>
    ensures { IsGiven (action_of path.now kind script (view processor.now)) result }
{
    match kind {
        Kind::Script => {
            let text = text_at(alloc, processor, Key::Source)?;
            let _text = needed(alloc, path, Key::Source, text)?;
            Ok(Action::Script(script))
        }
        Kind::Set => set_of(alloc, path, processor),
        Kind::Remove => {
            let field = field_at(alloc, processor, Key::Field)?;
            let field = needed(alloc, path, Key::Field, field)?;
            Ok(Action::Remove(field, when_missing(processor)))
        }
        Kind::Rename => rename_of(alloc, path, processor),
        Kind::Drop => Ok(Action::Drop),
        Kind::Fail => {
            let text = text_at(alloc, processor, Key::Message)?;
            let message = needed(alloc, path, Key::Message, text)?;
            Ok(Action::Fail(message))
        }
    }
}

/// The script that tests a document.
pub(crate) fn test_of(
    alloc: Global,
    path: &str,
    processor: &Value,
) -> Result<Option<PipeScript>, AllocError>
    ensures { IfOk result (λ script. script ≡ test_of path.now (view processor.now)) }
{
    let Some(text) = text_at(alloc, processor, Key::If)? else {
        return Ok(None);
    };
    let path = path_of(alloc, path, Key::If)?;
    Ok(Some(PipeScript {
        path,
        text,
        test: true,
        params: Literal::empty(alloc),
    }))
}

/// The path of a key.
fn path_of(alloc: Global, path: &str, key: Key) -> Result<Text, AllocError>
    ensures { IfOk result (λ made. made ≡ below path.now (key_name key)) }
{
    let made = below(alloc, path, key.name())?;
    Text::new(alloc, made.as_str())
}

/// The parameters of a script.
fn parameters(alloc: Global, processor: &Value) -> Result<Literal, AllocError>
    ensures { IfOk result (λ params. params ≡ parameters (view processor.now)) }
{
    match value_at(processor, Key::Params)? {
        Some(params) => Ok(params),
        None => Ok(Literal::empty(alloc)),
    }
}

/// The script that changes a document, of a processor of that kind.
pub(crate) fn change_of(
    alloc: Global,
    path: &str,
    kind: Kind,
    processor: &Value,
) -> Result<Option<PipeScript>, AllocError>
    ensures { IfOk result (λ script. script ≡ change_of path.now kind (view processor.now)) }
{
    let Kind::Script = kind else {
        return Ok(None);
    };
    let Some(text) = text_at(alloc, processor, Key::Source)? else {
        return Ok(None);
    };
    let path = path_of(alloc, path, Key::Source)?;
    let params = parameters(alloc, processor)?;
    Ok(Some(PipeScript {
        path,
        text,
        test: false,
        params,
    }))
}
