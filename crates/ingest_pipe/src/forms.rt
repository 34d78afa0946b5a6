//! Which values have the form of a key.

ghost use Rattle.std.specs.Prelude.{◌≡◌, IfOk, option_map, option_and_then, is_some};
ghost use Rattle.pipe_fields.specs.Fields.{field_of, place_of};
ghost use Rattle.serde_json.specs.Find.{as_str};
ghost use Rattle.serde_json.specs.View.{view};
ghost use Rattle.ingest_pipe.specs.Forms.{first_wrong, is_field, is_parameters, is_right, is_right_at};

use crate::keys::{Key, Kind};
use job_file::{has_whole_numbers, members_have_whole_numbers};
use pipe_fields::{Field, Place};
use serde_json::Value;
use std::alloc::{AllocError, Global};

/// Whether a value is an object with whole numbers alone.
fn is_parameters(value: &Value) -> bool
    ensures { result ≡ is_parameters (view value.now) }
{
    match value.as_object() {
        Some(members) => members_have_whole_numbers(members),
        None => false,
    }
}

/// The field that a value names.
pub(crate) fn field_in(alloc: Global, value: &Value) -> Result<Option<Field>, AllocError>
    ensures { IfOk result (λ field. field ≡ option_and_then field_of (as_str (view value.now))) }
{
    match value.as_str() {
        Some(text) => Field::read(alloc, text),
        None => Ok(None),
    }
}

/// The place that a value names.
pub(crate) fn place_in(alloc: Global, value: &Value) -> Result<Option<Place>, AllocError>
    ensures { IfOk result (λ place. place ≡ option_and_then place_of (as_str (view value.now))) }
{
    match value.as_str() {
        Some(text) => Place::read(alloc, text),
        None => Ok(None),
    }
}

/// Whether a value names what a kind of processor takes at its field.
fn is_field(alloc: Global, kind: Kind, value: &Value) -> Result<bool, AllocError>
    ensures { IfOk result (λ right. right ≡ is_field kind (view value.now)) }
{
    match kind {
        Kind::Set => {
            let place = place_in(alloc, value)?;
            Ok(place.is_some())
        }
        Kind::Script | Kind::Remove | Kind::Rename | Kind::Drop | Kind::Fail => {
            let field = field_in(alloc, value)?;
            Ok(field.is_some())
        }
    }
}

/// Whether a value has the form of a key.
fn is_right(alloc: Global, kind: Kind, key: Key, value: &Value) -> Result<bool, AllocError>
    ensures { IfOk result (λ right. right ≡ is_right kind key (view value.now)) }
{
    match key {
        Key::Field => is_field(alloc, kind, value),
        Key::TargetField => {
            let field = field_in(alloc, value)?;
            Ok(field.is_some())
        }
        Key::If | Key::Message | Key::Source => Ok(value.is_string()),
        Key::IgnoreFailure | Key::IgnoreMissing | Key::Override => Ok(value.is_boolean()),
        Key::Params => Ok(is_parameters(value)),
        Key::Value => Ok(has_whole_numbers(value)),
    }
}

/// Whether what is at a key, if there is something, has the form of the key.
fn is_right_at(
    alloc: Global,
    kind: Kind,
    key: Key,
    value: Option<&Value>,
) -> Result<bool, AllocError>
    ensures { IfOk result (λ right. right ≡ is_right_at kind key (option_map (λ value. view value.now) value.entry)) }
{
    match value {
        Some(value) => is_right(alloc, kind, key, value),
        None => Ok(true),
    }
}

/// The first of some keys at which there is something that has not its form.
pub(crate) fn first_wrong(
    alloc: Global,
    kind: Kind,
    keys: &[Key],
    processor: &Value,
) -> Result<Option<Key>, AllocError>
    ensures { IfOk result (λ key. key ≡ first_wrong kind keys.now (view processor.now)) }
{
    for key in keys {
        if !is_right_at(alloc, kind, *key, processor.get(key.name()))? {
            return Ok(Some(*key));
        }
    }
    Ok(None)
}
