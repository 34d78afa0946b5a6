//! The keys of commands that are objects.

ghost use Rattle.std.specs.Prelude.{◌≡◌, option_map};
ghost use Rattle.serde_json.specs.View.{members_view, view};
ghost use Rattle.serve_lines.specs.Commands.{are_keys, has_form, is_key, kind_at, kind_named, text_at};

use script_store::ServeKind;
use serde_json::{Map, Value};

/// A command that is an object.
#[derive(Clone, Copy)]
pub enum Form {
    /// A script is stored.
    Put,
    /// A script is run.
    Run,
}

/// Whether a name is a key of such a command.
fn is_key(form: Form, name: &str) -> bool
    ensures { result ≡ is_key form name.now }
{
    match form {
        Form::Put => name == "context" || name == "id" || name == "source",
        Form::Run => name == "id" || name == "line" || name == "params",
    }
}

/// Whether the name of each member is a key.
fn are_keys(form: Form, members: &Map<String, Value>) -> bool
    ensures { result ≡ are_keys form (members_view members.now.entries) }
{
    for (name, _value) in members.iter() {
        if !is_key(form, name.as_str()) {
            return false;
        }
    }
    true
}

/// Whether a value is an object that has no other key.
pub(crate) fn has_form(form: Form, value: &Value) -> bool
    ensures { result ≡ has_form form (view value.now) }
{
    match value.as_object() {
        Some(members) => are_keys(form, members),
        None => false,
    }
}

/// The text at a key.
pub(crate) fn text_at<'v>(name: &str, value: &'v Value) -> Option<&'v str>
    ensures { option_map (λ text. text.now) result ≡ text_at name.now (view value.now) }
{
    value.get(name).and_then(Value::as_str)
}

/// The context of a name.
fn kind_named(name: &str) -> Option<ServeKind>
    ensures { result ≡ kind_named name.now }
{
    match name {
        "filter" => Some(ServeKind::Filter),
        "score" => Some(ServeKind::Score),
        "field" => Some(ServeKind::Field),
        "update" => Some(ServeKind::Update),
        "ingest" => Some(ServeKind::Ingest),
        _ => None,
    }
}

/// The context of a script.
pub(crate) fn kind_at(value: &Value) -> Option<ServeKind>
    ensures { result ≡ kind_at (view value.now) }
{
    match text_at("context", value) {
        Some(name) => kind_named(name),
        None => None,
    }
}
