//! Fields and places of documents, and the kinds of what fails there.

use pipe_fields::{Field, FieldFault, Place};
use std::alloc::{AllocError, Global};
use std::test::Fail;

/// A field: its text, and each of its names behind a bar.
fn field_shown(alloc: Global, field: &Field) -> Result<String, AllocError> {
    let mut shown = String::from_str(alloc, field.text.as_str())?;
    for name in field.names.as_slice() {
        shown.push_str("|")?;
        shown.push_str(name.as_str())?;
    }
    Ok(shown)
}

/// Whether a text names such a field, or none where the answer is empty.
fn field_is(alloc: Global, text: &str, wanted: &str) -> Result<bool, AllocError> {
    match Field::read(alloc, text)? {
        Some(field) => {
            let shown = field_shown(alloc, &field)?;
            Ok(shown.as_str() == wanted)
        }
        None => Ok(wanted.is_empty()),
    }
}

/// A place: the index, the id, or a field of the source.
fn place_shown(alloc: Global, place: &Place) -> Result<String, AllocError> {
    match place {
        Place::Index => String::from_str(alloc, "the index"),
        Place::Id => String::from_str(alloc, "the id"),
        Place::Source(field) => field_shown(alloc, field),
    }
}

/// Whether a text names such a place, or none where the answer is empty.
fn place_is(alloc: Global, text: &str, wanted: &str) -> Result<bool, AllocError> {
    match Place::read(alloc, text)? {
        Some(place) => {
            let shown = place_shown(alloc, &place)?;
            Ok(shown.as_str() == wanted)
        }
        None => Ok(wanted.is_empty()),
    }
}

/// Texts and the fields that they name.
const FIELDS: [(&str, &str); 14] = [
    ("a", "a|a"),
    ("a.b", "a.b|a|b"),
    ("a.b.a", "a.b.a|a|b|a"),
    (" . ", " . | | "),
    ("é.ü", "é.ü|é|ü"),
    ("a._id", "a._id|a|_id"),
    ("_ids", "_ids|_ids"),
    ("", ""),
    (".", ""),
    ("a.", ""),
    (".a", ""),
    ("a..b", ""),
    ("_index", ""),
    ("_id.a", ""),
];

/// Texts and the places that they name.
const PLACES: [(&str, &str); 7] = [
    ("_index", "the index"),
    ("_id", "the id"),
    ("a.b", "a.b|a|b"),
    ("_source", "_source|_source"),
    ("_index.a", ""),
    ("_id.", ""),
    ("", ""),
];

/// What fails at a field, and its kind.
const KINDS: [(FieldFault, &str); 5] = [
    (FieldFault::Missing, "pipe-missing"),
    (FieldFault::Exists, "pipe-exists"),
    (FieldFault::Parent, "pipe-parent"),
    (FieldFault::Type, "pipe-type"),
    (FieldFault::Depth, "pipe-depth"),
];

#[test]
fn texts_name_fields(rt: HostRuntime) -> Result<(), Fail> {
    for row in &FIELDS {
        let holds = field_is(rt.alloc(), row.0, row.1)?;
        assert!(rt; holds, "{}", row.0);
    }
    Ok(())
}

#[test]
fn texts_name_places(rt: HostRuntime) -> Result<(), Fail> {
    for row in &PLACES {
        let holds = place_is(rt.alloc(), row.0, row.1)?;
        assert!(rt; holds, "{}", row.0);
    }
    Ok(())
}

#[test]
fn faults_have_kinds(rt: HostRuntime) {
    for row in &KINDS {
        assert!(rt; row.0.kind() == row.1, "{}", row.1);
    }
}
