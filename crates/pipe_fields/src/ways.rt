//! Ways of names through a JSON value.

ghost use Rattle.std.specs.Prelude.{◌≡◌, IsSome, OnOk, false, option_map};
ghost use Rattle.serde_json.specs.View.{view};
ghost use Rattle.pipe_fields.specs.Ways.{find, is_blocked, put_at, without};

use plain_data::Text;
use serde_json::{Map, Value};
use std::alloc::{AllocError, Global};

/// What stands at the end of a way. It goes a call deeper for each name.
pub(crate) fn find<'v>(names: &[Text], value: &'v Value) -> Option<&'v Value>
    ensures { option_map (λ found. view found.now) result ≡ find names.now (view value.now) }
{
    let (name, rest) = names.split_first()?;
    let inner = value.get(name.as_str())?;
    if rest.is_empty() {
        Some(inner)
    } else {
        find(rest, inner)
    }
}

/// Whether the way to a place meets a value that is no object.
pub(crate) fn is_blocked(names: &[Text], value: &Value) -> bool
    ensures { result ≡ is_blocked names.now (view value.now) }
{
    let Some((name, rest)) = names.split_first() else {
        return false;
    };
    if !value.is_object() {
        return true;
    }
    match value.get(name.as_str()) {
        Some(inner) => is_blocked(rest, inner),
        None => false,
    }
}

/// Whether the way to a target meets a value that is no object, once what stands at a field is taken out.
pub(crate) fn is_blocked_past(field: &[Text], target: &[Text], value: &Value) -> bool
    requires { IsSome (find field.now (view value.now)) }
    ensures { result ≡ is_blocked target.now (without field.now (view value.now)) }
{
    let Some((next, rest)) = target.split_first() else {
        return false;
    };
    let Some((name, more)) = field.split_first() else {
        return false;
    };
    let Some(inner) = value.get(next.as_str()) else {
        return false;
    };
    if next.as_str() != name.as_str() {
        return is_blocked(rest, inner);
    }
    if more.is_empty() {
        false
    } else {
        is_blocked_past(more, rest, inner)
    }
}

/// Takes out what stands at the end of a way.
pub(crate) fn take_out(names: &[Text], from: &mut Value) -> Option<Value>
    requires { IsSome (find names.now (view from.old)) }
    ensures taken { option_map view result ≡ find names.now (view from.old) }
    ensures left { view from.new ≡ without names.now (view from.old) }
{
    let Some((name, rest)) = names.split_first() else {
        return None;
    };
    let Some(members) = from.as_object_mut() else {
        return None;
    };
    if rest.is_empty() {
        return members.remove(name.as_str());
    }
    match members.get_mut(name.as_str()) {
        Some(inner) => take_out(rest, inner),
        None => None,
    }
}

/// Puts a value at the end of a way, and makes the objects on the way that are not there.
pub(crate) fn put_in(
    alloc: Global,
    names: &[Text],
    value: Value,
    into: &mut Value,
) -> Result<(), AllocError>
    requires { is_blocked names.now (view into.old) ≡ false }
    ensures { OnOk result (view into.new ≡ put_at names.now (view value) (view into.old)) }
{
    let Some((name, rest)) = names.split_first() else {
        *into = value;
        return Ok(());
    };
    let Some(members) = into.as_object_mut() else {
        return Ok(());
    };
    if let Some(inner) = members.get_mut(name.as_str()) {
        return put_in(alloc, rest, value, inner);
    }
    let mut made = Value::Object(Map::new(alloc));
    put_in(alloc, rest, value, &mut made)?;
    serde_json::put(members, alloc, name.as_str(), made)
}
