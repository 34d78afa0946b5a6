//! Lines as commands.

ghost use Rattle.std.specs.Prelude.{◌≡◌, Some, option_and_then, option_map};
ghost use Rattle.serde_json.specs.View.{view};
ghost use Rattle.serde_json.specs.Find.{as_bool};
ghost use Rattle.serve_lines.specs.Commands.{asked_by, asked_in, counts_if, params_or, put_in, run_in, run_of};
ghost use Rattle.serve_lines.specs.Seen.{command_seen};

use crate::command::ServeCommand;
use crate::keys::{Form, has_form, kind_at, text_at};
use serde_json::Value;

/// A script that is to be stored.
fn put_in(value: &Value) -> Option<ServeCommand<'_>>
    ensures { option_map command_seen result ≡ put_in (view value.now) }
{
    if !has_form(Form::Put, value) {
        return None;
    }
    let kind = kind_at(value)?;
    let id = text_at("id", value)?;
    let source = text_at("source", value)?;
    Some(ServeCommand::Put { id, kind, source })
}

/// A run with params.
fn run_with<'v>(id: &'v str, line: &'v Value, params: &'v Value) -> Option<ServeCommand<'v>>
    ensures { option_map command_seen result ≡ run_of (Some id.now) (Some (view line.now)) (params_or (Some (view params.now))) }
{
    if params.is_object() {
        Some(ServeCommand::Run {
            id,
            line,
            params: Some(params),
        })
    } else {
        None
    }
}

/// A script that is to be run.
fn run_in(value: &Value) -> Option<ServeCommand<'_>>
    ensures { option_map command_seen result ≡ run_in (view value.now) }
{
    if !has_form(Form::Run, value) {
        return None;
    }
    let id = text_at("id", value)?;
    let line = value.get("line")?;
    match value.get("params") {
        Some(params) => run_with(id, line, params),
        None => Some(ServeCommand::Run {
            id,
            line,
            params: None,
        }),
    }
}

/// The counts.
fn counts_in(value: &Value) -> Option<ServeCommand<'_>>
    ensures { option_map command_seen result ≡ counts_if (as_bool (view value.now)) }
{
    match value.as_bool() {
        Some(true) => Some(ServeCommand::Stats),
        Some(false) => None,
        None => None,
    }
}

/// The command of a name.
fn command_by<'v>(name: &str, value: &'v Value) -> Option<ServeCommand<'v>>
    ensures { option_map command_seen result ≡ asked_by name.now (view value.now) }
{
    match name {
        "put" => put_in(value),
        "get" => match value.as_str() {
            Some(id) => Some(ServeCommand::Get(id)),
            None => None,
        },
        "delete" => match value.as_str() {
            Some(id) => Some(ServeCommand::Delete(id)),
            None => None,
        },
        "run" => run_in(value),
        "stats" => counts_in(value),
        _ => None,
    }
}

/// The name and the value of the only member of an object.
fn only_member(value: &Value) -> Option<(&str, &Value)>
    ensures { option_and_then (λ m. asked_by m.0.now (view m.1.now)) result ≡ asked_in (view value.now) }
{
    let members = value.as_object()?;
    let mut entries = members.iter();
    let (name, value) = entries.next()?;
    match entries.next() {
        Some(_) => None,
        None => Some((name.as_str(), value)),
    }
}

/// The command that a value is. `None` where it is none: where it is no object with one key, which is the name of a command, or where
/// what stands there is of another form.
pub fn command_in(value: &Value) -> Option<ServeCommand<'_>>
    ensures { option_map command_seen result ≡ asked_in (view value.now) }
{
    let (name, value) = only_member(value)?;
    command_by(name, value)
}
