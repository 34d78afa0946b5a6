//! Mappings: which fields of a document a script sees, and of which kind each is.

ghost use Rattle.std.specs.Prelude.{◌≡◌, [], None, option_map, IfOk, IfErr};
ghost use Rattle.serde_json.specs.View.{view, members_view};
ghost use Rattle.job_file.specs.Answers.{IsBadField, fields_view};
ghost use Rattle.job_file.specs.Contexts.{named};
ghost use Rattle.job_file.specs.Mappings.{bad_field, fields_of, is_bad, kind_names, kind_of, least, members_of, names_where};

use serde_json::{Map, Value};
use std::alloc::{AllocError, Global};

/// The most fields that a mapping has.
pub const FIELD_COUNT: usize = 1_000;

/// The kind of a field.
#[derive(Clone, Copy, PartialEq, Eq)]
pub enum FieldKind {
    /// Whole numbers of 64 bits with a sign.
    Long,
    /// Texts.
    Keyword,
    /// Truth values.
    Boolean,
}

/// The fields that a script sees of a document, in the order of their names by bytes.
pub struct Mapping {
    pub fields: Vec<(String, FieldKind)>,
}

impl Drop for Mapping {
    fn drop(self) {
        let Mapping { fields: _fields } = self;
    }
}

/// Why a value gives no mapping.
#[derive(Debug, Drop, thiserror::Error)]
pub enum MapErr {
    /// The least field by bytes whose name is empty or whose kind is none of the three; the empty name also where
    /// there are more than 1,000 fields.
    #[error("the field {0} of the mapping is bad")]
    Bad(String),
    /// Memory ran out.
    #[error("out of memory")]
    NoMemory,
}

impl From<AllocError> for MapErr {
    ghost use Rattle.job_file.specs.declared.mapping.MapErr.TheVariants.{NoMemory};

    ghost from_gives = { λ _ e. e ≡ NoMemory };

    fn from(_error: AllocError) -> MapErr {
        MapErr::NoMemory
    }
}

impl FieldKind {
    /// The kind of a name.
    pub fn named(name: &str) -> Option<FieldKind>
        ensures { result ≡ named name.now kind_names }
    {
        match name {
            "long" => Some(FieldKind::Long),
            "keyword" => Some(FieldKind::Keyword),
            "boolean" => Some(FieldKind::Boolean),
            _ => None,
        }
    }
}

/// The kind that a value names.
fn kind_of(value: &Value) -> Option<FieldKind>
    ensures { result ≡ kind_of (view value.now) }
{
    match value.as_str() {
        Some(name) => FieldKind::named(name),
        None => None,
    }
}

/// Whether a field is bad.
fn is_bad(name: &str, value: &Value) -> bool
    ensures { result ≡ is_bad name.now (view value.now) }
{
    name.is_empty() || kind_of(value).is_none()
}

/// The least bad field.
fn least_bad<'a>(members: &'a Map<String, Value>) -> Option<&'a str>
    ensures { option_map (λ name. name.now) result ≡ least (names_where is_bad (members_view members.now.entries)) }
{
    for (name, value) in members.iter() {
        if is_bad(name.as_str(), value) {
            return Some(name.as_str());
        }
    }
    None
}

/// The fields of an object.
fn fields_of(
    alloc: Global,
    members: &Map<String, Value>,
) -> Result<Vec<(String, FieldKind)>, AllocError>
    ensures { IfOk result (λ fields. fields_view fields.items ≡ fields_of (members_view members.now.entries)) }
{
    let mut fields = Vec::new(alloc);
    for (name, value) in members.iter() {
        if let Some(kind) = kind_of(value) {
            fields.push((name.clone()?, kind))?;
        }
    }
    Ok(fields)
}

/// The mapping of an object.
fn read_members(alloc: Global, members: &Map<String, Value>) -> Result<Mapping, MapErr>
    ensures good { IfOk result (λ _. bad_field (members_view members.now.entries) ≡ None) }
    ensures fields { IfOk result (λ mapping. fields_view mapping.fields.items ≡ fields_of (members_view members.now.entries)) }
    ensures bad { IfErr result (λ e. IsBadField e (bad_field (members_view members.now.entries))) }
{
    if members.len() > FIELD_COUNT {
        return Err(MapErr::Bad(String::new(alloc)));
    }
    match least_bad(members) {
        Some(name) => Err(MapErr::Bad(String::from_str(alloc, name)?)),
        None => Ok(Mapping {
            fields: fields_of(alloc, members)?,
        }),
    }
}

impl Mapping {
    /// The mapping that a value denotes: a member for each field, its name and the name of its kind. What is no object
    /// has no members.
    pub fn read(alloc: Global, value: &Value) -> Result<Mapping, MapErr>
        ensures good { IfOk result (λ _. bad_field (members_of (view value.now)) ≡ None) }
        ensures fields { IfOk result (λ mapping. fields_view mapping.fields.items ≡ fields_of (members_of (view value.now))) }
        ensures bad { IfErr result (λ e. IsBadField e (bad_field (members_of (view value.now)))) }
    {
        match value.as_object() {
            Some(members) => read_members(alloc, members),
            None => Ok(Mapping {
                fields: Vec::new(alloc),
            }),
        }
    }
}
