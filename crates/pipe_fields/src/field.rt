//! Fields of documents: names joined by dots.

ghost use Rattle.std.specs.Prelude.{◌≡◌, IfOk};
ghost use Rattle.pipe_fields.specs.Fields.{are_names, begins_beside, field_of, names_of, none_empty, place_of};

use plain_data::{Items, Text};
use std::alloc::{AllocError, Global};

/// The most names that a field joins.
const MOST_NAMES: usize = 100;

/// The name of a document's index.
pub const INDEX: &str = "_index";

/// The name of a document's id.
pub const ID: &str = "_id";

/// A field of a document's source: its text, and the names that dots join there. Contracts see both as bytes.
pub struct Field {
    pub text: Text,
    pub names: Items<Text>,
}

/// A place of a document to which a value can be put.
pub enum Place {
    /// The document's index.
    Index,
    /// The document's id.
    Id,
    /// A field of the source.
    Source(Field),
}

impl Drop for Field {
    fn drop(self) {
        let Field {
            text: _text,
            names: _names,
        } = self;
    }
}

impl Drop for Place {
    fn drop(self) {
        match self {
            Place::Index => {}
            Place::Id => {}
            Place::Source(_field) => {}
        }
    }
}

/// The names that dots join in a text.
fn names_of(alloc: Global, text: &str) -> Result<Items<Text>, AllocError>
    ensures { IfOk result (λ names. names ≡ names_of text.now) }
{
    let mut names = Items::new(alloc);
    let mut rest = text;
    while let Some((name, more)) = rest.split_once('.') {
        names.push(Text::new(alloc, name)?)?;
        rest = more;
    }
    names.push(Text::new(alloc, rest)?)?;
    Ok(names)
}

/// Whether no name is empty.
fn none_empty(names: &[Text]) -> bool
    ensures { result ≡ none_empty names.now }
{
    for name in names {
        if name.as_str().is_empty() {
            return false;
        }
    }
    true
}

/// Whether the first name is that of the index or the id.
fn begins_beside(names: &[Text]) -> bool
    ensures { result ≡ begins_beside names.now }
{
    match names.first() {
        Some(name) => matches!(name.as_str(), INDEX | ID),
        None => false,
    }
}

/// Whether names are those of a field of the source.
fn are_names(names: &[Text]) -> bool
    ensures { result ≡ are_names names.now }
{
    names.len() <= MOST_NAMES && none_empty(names) && !begins_beside(names)
}

impl Field {
    /// The field of the source that a text names: 1 to 100 names joined by dots, none of them empty and the first neither
    /// `_index` nor `_id`. `None` where the text names none.
    #[tactic(auto, unfolding(crate::specs::Fields::field_of))]
    pub fn read(alloc: Global, text: &str) -> Result<Option<Field>, AllocError>
        ensures { IfOk result (λ field. field ≡ field_of text.now) }
    {
        let names = names_of(alloc, text)?;
        if are_names(names.as_slice()) {
            let text = Text::new(alloc, text)?;
            Ok(Some(Field { text, names }))
        } else {
            Ok(None)
        }
    }
}

impl Place {
    /// The place that a text names: `_index`, `_id` or a field of the source. `None` where it names none.
    pub fn read(alloc: Global, text: &str) -> Result<Option<Place>, AllocError>
        ensures { IfOk result (λ place. place ≡ place_of text.now) }
    {
        if text == INDEX {
            return Ok(Some(Place::Index));
        }
        if text == ID {
            return Ok(Some(Place::Id));
        }
        match Field::read(alloc, text)? {
            Some(field) => Ok(Some(Place::Source(field))),
            None => Ok(None),
        }
    }
}
