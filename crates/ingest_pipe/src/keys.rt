//! The kinds of processors, and their keys.

ghost use Rattle.std.specs.Prelude.{◌≡◌, option_map};
ghost use Rattle.job_file.specs.Contexts.{named};
ghost use Rattle.serde_json.specs.View.{members_view};
ghost use Rattle.ingest_pipe.specs.Keys.{is_common, is_key, is_own, key_name, kind_names, unknown_key};

use serde_json::{Map, Value};

/// The key of a list for failures.
pub(crate) const ON_FAILURE: &str = "on_failure";

/// A kind of processor.
#[derive(Clone, Copy)]
pub(crate) enum Kind {
    Script,
    Set,
    Remove,
    Rename,
    Drop,
    Fail,
}

/// A key of a processor beside its list for failures, in the order of the names by bytes.
#[derive(Clone, Copy)]
pub(crate) enum Key {
    Field,
    If,
    IgnoreFailure,
    IgnoreMissing,
    Message,
    Override,
    Params,
    Source,
    TargetField,
    Value,
}

/// The keys before that of the list for failures.
pub(crate) const KEYS_BEFORE: [Key; 5] = [
    Key::Field,
    Key::If,
    Key::IgnoreFailure,
    Key::IgnoreMissing,
    Key::Message,
];

/// The keys behind it.
pub(crate) const KEYS_BEHIND: [Key; 5] = [
    Key::Override,
    Key::Params,
    Key::Source,
    Key::TargetField,
    Key::Value,
];

impl Kind {
    /// The kind of a name. `None` where there is none.
    pub(crate) fn named(name: &str) -> Option<Kind>
        ensures { result ≡ named name.now kind_names }
    {
        match name {
            "script" => Some(Kind::Script),
            "set" => Some(Kind::Set),
            "remove" => Some(Kind::Remove),
            "rename" => Some(Kind::Rename),
            "drop" => Some(Kind::Drop),
            "fail" => Some(Kind::Fail),
            _ => None,
        }
    }
}

impl Key {
    /// Its name.
    pub(crate) fn name(self) -> &'static str
        ensures { result.now ≡ key_name self }
    {
        match self {
            Key::Field => "field",
            Key::If => "if",
            Key::IgnoreFailure => "ignore_failure",
            Key::IgnoreMissing => "ignore_missing",
            Key::Message => "message",
            Key::Override => "override",
            Key::Params => "params",
            Key::Source => "source",
            Key::TargetField => "target_field",
            Key::Value => "value",
        }
    }
}

/// Whether a name is that of a key of every kind.
fn is_common(name: &str) -> bool
    ensures { result ≡ is_common name.now }
{
    matches!(name, "if" | "ignore_failure" | "on_failure")
}

/// Whether a name is that of a key of a kind's own.
fn is_own(kind: Kind, name: &str) -> bool
    ensures { result ≡ is_own kind name.now }
{
    match kind {
        Kind::Script => matches!(name, "params" | "source"),
        Kind::Set => matches!(name, "field" | "override" | "value"),
        Kind::Remove => matches!(name, "field" | "ignore_missing"),
        Kind::Rename => matches!(name, "field" | "ignore_missing" | "target_field"),
        Kind::Drop => false,
        Kind::Fail => name == "message",
    }
}

/// Whether a name is that of a key of a kind.
fn is_key(kind: Kind, name: &str) -> bool
    ensures { result ≡ is_key kind name.now }
{
    is_common(name) || is_own(kind, name)
}

/// The first name of some members that is no key of a kind.
pub(crate) fn unknown_key<'v>(kind: Kind, members: &'v Map<String, Value>) -> Option<&'v str>
    ensures { option_map (λ name. name.now) result ≡ unknown_key kind (members_view members.now.entries) }
{
    for (name, _value) in members.iter() {
        if !is_key(kind, name.as_str()) {
            return Some(name.as_str());
        }
    }
    None
}
