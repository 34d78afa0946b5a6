//! The keys of a line: one row a key.

ghost use Rattle.std.specs.Prelude.{◌≡◌, not, IfOk};
ghost use Rattle.serde_json.specs.Data.{string};
ghost use Rattle.serde_json.specs.View.{view};
ghost use Rattle.job_file.specs.Jobs.{is_required};
ghost use Rattle.job_file.specs.Keys.{default_data};
ghost use Rattle.write_ctx.specs.Keys.{id_default, is_key, keys_of, name_of, row_of, source_type};

use serde_json::Value as Json;
use std::alloc::{AllocError, Global};

/// What becomes of a document that a script sees as `ctx`.
#[derive(Clone, Copy, Debug, PartialEq, Eq)]
pub enum WriteKind {
    /// It is there, and is changed or deleted: with `params` and `ctx`.
    Update,
    /// It is to be indexed: with `params` and `ctx`.
    Ingest,
    /// It is asked something before it is indexed: with `params` and `ctx`, of which nothing may be changed.
    Test,
}

/// A key of a line.
#[derive(Clone, Copy)]
pub enum LineKey {
    Id,
    Index,
    Now,
    Routing,
    Source,
    Version,
}

/// What the value of a key has to be.
#[derive(Clone, Copy)]
pub enum LineType {
    Text,
    TextOrNull,
    Number,
    Object,
    /// An object without the keys of its id and its index.
    Fields,
}

/// The keys of an update, in byte order.
pub(crate) const UPDATE_KEYS: [LineKey; 6] = [
    LineKey::Id,
    LineKey::Index,
    LineKey::Now,
    LineKey::Routing,
    LineKey::Source,
    LineKey::Version,
];

/// The keys of an ingest and of a test, in byte order.
const INGEST_KEYS: [LineKey; 3] = [LineKey::Id, LineKey::Index, LineKey::Source];

/// The keys of a kind, in byte order.
pub(crate) fn keys_of(kind: WriteKind) -> &'static [LineKey]
    ensures { result.now ≡ keys_of kind }
{
    match kind {
        WriteKind::Update => &UPDATE_KEYS,
        WriteKind::Ingest => &INGEST_KEYS,
        WriteKind::Test => &INGEST_KEYS,
    }
}

/// What the source of a kind has to be.
fn source_type(kind: WriteKind) -> LineType
    ensures { result ≡ source_type kind }
{
    match kind {
        WriteKind::Update => LineType::Object,
        WriteKind::Ingest => LineType::Fields,
        WriteKind::Test => LineType::Fields,
    }
}

/// Whether a line of a kind need not have its id.
fn id_is_optional(kind: WriteKind) -> bool
    ensures { result ≡ not (is_required (id_default kind)) }
{
    match kind {
        WriteKind::Update => false,
        WriteKind::Ingest => true,
        WriteKind::Test => true,
    }
}

impl LineKey {
    /// The name of the key.
    pub fn name(self) -> &'static str
        ensures { result.now ≡ name_of self }
    {
        match self {
            LineKey::Id => "_id",
            LineKey::Index => "_index",
            LineKey::Now => "_now",
            LineKey::Routing => "_routing",
            LineKey::Source => "_source",
            LineKey::Version => "_version",
        }
    }

    /// What its value has to be.
    pub(crate) fn value_type(self, kind: WriteKind) -> LineType
        ensures { result ≡ (row_of kind self).type_ }
    {
        match self {
            LineKey::Id => LineType::Text,
            LineKey::Index => LineType::Text,
            LineKey::Now => LineType::Number,
            LineKey::Routing => LineType::TextOrNull,
            LineKey::Source => source_type(kind),
            LineKey::Version => LineType::Number,
        }
    }

    /// Whether a line need not have it.
    pub(crate) fn is_optional(self, kind: WriteKind) -> bool
        ensures { result ≡ not (is_required (row_of kind self).default) }
    {
        match self {
            LineKey::Id => id_is_optional(kind),
            LineKey::Index => true,
            LineKey::Now => true,
            LineKey::Routing => true,
            LineKey::Source => false,
            LineKey::Version => true,
        }
    }

    /// What stands for it in a line that lacks it; null where it is required.
    pub(crate) fn default_json(self, alloc: Global, kind: WriteKind) -> Result<Json, AllocError>
        ensures { IfOk result (λ json. view json ≡ default_data (row_of kind self).default) }
    {
        match self {
            LineKey::Id => default_id(alloc, kind),
            LineKey::Index => text_json(alloc, "docs"),
            LineKey::Now => Ok(Json::from(0_u64)),
            LineKey::Routing => Ok(Json::Null),
            LineKey::Source => Ok(Json::Null),
            LineKey::Version => Ok(Json::from(1_u64)),
        }
    }
}

/// The JSON of a text.
fn text_json(alloc: Global, text: &str) -> Result<Json, AllocError>
    ensures { IfOk result (λ json. view json ≡ string text.now) }
{
    Ok(Json::String(String::from_str(alloc, text)?))
}

/// What stands for the id; null where it is required.
fn default_id(alloc: Global, kind: WriteKind) -> Result<Json, AllocError>
    ensures { IfOk result (λ json. view json ≡ default_data (id_default kind)) }
{
    match kind {
        WriteKind::Update => Ok(Json::Null),
        WriteKind::Ingest => text_json(alloc, ""),
        WriteKind::Test => text_json(alloc, ""),
    }
}

/// Whether a name is a key of a kind.
pub(crate) fn is_key(kind: WriteKind, name: &str) -> bool
    ensures { result ≡ is_key kind name.now }
{
    keys_of(kind).iter().any(|key| name == key.name())
}
