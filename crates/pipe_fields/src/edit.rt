//! What `set`, `remove` and `rename` do to a document.

ghost use Rattle.std.specs.Prelude.{◌≡◌, IfOk, IfErr, option_map, string_bytes, Some};
ghost use Rattle.serde_json.specs.Find.{as_str};
ghost use Rattle.serde_json.specs.View.{view};
ghost use Rattle.pipe_fields.specs.Documents.{doc_view};
ghost use Rattle.pipe_fields.specs.Edits.{is_kept, not_found, put_field, remove, rename, set};
ghost use Rattle.pipe_fields.specs.Failures.{IsEdited, IsNoText};

use crate::depth::is_too_deep;
use crate::document::IngestDoc;
use crate::failure::{EditErr, FieldFault};
use crate::field::{Field, ID, INDEX, Place};
use crate::ways::{find, is_blocked, is_blocked_past, put_in, take_out};
use serde_json::Value;
use std::alloc::Global;

/// What becomes of what stands at the place of a `set`.
#[derive(Clone, Copy)]
pub enum WhenThere {
    /// The new value stands in its place.
    Replaced,
    /// It is kept, if it is not null.
    Kept,
}

/// What follows where a field is not there.
#[derive(Clone, Copy)]
pub enum WhenMissing {
    /// The processor fails.
    Fails,
    /// Nothing is done.
    Passes,
}

/// Whether what stands at a place is kept.
fn is_kept(when: WhenThere, found: Option<&Value>) -> bool
    ensures { result ≡ is_kept when (option_map (λ found. view found.now) found.entry) }
{
    match when {
        WhenThere::Replaced => false,
        WhenThere::Kept => match found {
            Some(found) => !found.is_null(),
            None => false,
        },
    }
}

/// The text that a value is.
fn text_of(alloc: Global, name: &str, value: &Value) -> Result<String, EditErr>
    ensures text { IfOk result (λ text. as_str (view value.now) ≡ Some (string_bytes text)) }
    ensures none { IfErr result (λ e. IsNoText name.now (view value.now) e) }
{
    match value.as_str() {
        Some(text) => Ok(String::from_str(alloc, text)?),
        None => Err(FieldFault::Type.at(alloc, name)),
    }
}

/// Puts a copy of a value at a field of the source.
fn put_field(
    alloc: Global,
    field: &Field,
    value: &Value,
    doc: &mut IngestDoc,
) -> Result<(), EditErr>
    ensures { IsEdited (put_field field.now (view value.now) (doc_view doc.old)) doc.old doc.new result }
{
    let names = field.names.as_slice();
    if is_blocked(names, &doc.source) {
        return Err(FieldFault::Parent.at(alloc, field.text.as_str()));
    }
    if is_too_deep(names, value) {
        return Err(FieldFault::Depth.at(alloc, field.text.as_str()));
    }
    let copy = value.clone()?;
    put_in(alloc, names, copy, &mut doc.source)?;
    Ok(())
}

/// Puts a copy of a value at a place of a document, and makes the objects on the way. What is kept stays, and nothing is
/// tried.
///
/// Errors, in this order: `pipe-parent` where the way meets a value that is no object; `pipe-type` where the index or the
/// id would be no text; `pipe-depth` where a list or object would stand deeper than 120, the source being at 1. Each leaves
/// the document as it was. Where memory runs out the document is to be let go.
pub fn set(
    alloc: Global,
    at: &Place,
    value: &Value,
    when: WhenThere,
    doc: &mut IngestDoc,
) -> Result<(), EditErr>
    ensures { IsEdited (set at.now (view value.now) when (doc_view doc.old)) doc.old doc.new result }
{
    match at {
        Place::Index => {
            if matches!(when, WhenThere::Replaced) {
                doc.index = text_of(alloc, INDEX, value)?;
            }
            Ok(())
        }
        Place::Id => {
            if matches!(when, WhenThere::Replaced) {
                doc.id = text_of(alloc, ID, value)?;
            }
            Ok(())
        }
        Place::Source(field) => {
            if is_kept(when, find(field.names.as_slice(), &doc.source)) {
                return Ok(());
            }
            put_field(alloc, field, value, doc)
        }
    }
}

/// What follows where a field is not found.
fn not_found(
    alloc: Global,
    field: &Field,
    when: WhenMissing,
    doc: &IngestDoc,
) -> Result<(), EditErr>
    ensures { IsEdited (not_found when field.now.text (doc_view doc.now)) doc.now doc.now result }
{
    match when {
        WhenMissing::Fails => Err(FieldFault::Missing.at(alloc, field.text.as_str())),
        WhenMissing::Passes => Ok(()),
    }
}

/// Takes a field out of a document's source.
///
/// Error: `pipe-missing` where the field is not there and this is not passed over, which leaves the document as it was.
pub fn remove(
    alloc: Global,
    field: &Field,
    when: WhenMissing,
    doc: &mut IngestDoc,
) -> Result<(), EditErr>
    ensures { IsEdited (remove field.now when (doc_view doc.old)) doc.old doc.new result }
{
    let names = field.names.as_slice();
    if find(names, &doc.source).is_none() {
        return not_found(alloc, field, when, doc);
    }
    drop(take_out(names, &mut doc.source));
    Ok(())
}

/// Takes a field out of a document's source, and puts its value at a target.
///
/// Errors, in this order: `pipe-missing` where the field is not there and this is not passed over; `pipe-exists` where the
/// target is there before the field is taken out; `pipe-parent` where the way to the target, once the field is taken out,
/// meets a value that is no object; `pipe-depth` where a list or object would stand deeper than 120. Each leaves the
/// document as it was. Where memory runs out the document is to be let go.
pub fn rename(
    alloc: Global,
    field: &Field,
    target: &Field,
    when: WhenMissing,
    doc: &mut IngestDoc,
) -> Result<(), EditErr>
    ensures { IsEdited (rename field.now target.now when (doc_view doc.old)) doc.old doc.new result }
{
    let Some(found) = find(field.names.as_slice(), &doc.source) else {
        return not_found(alloc, field, when, doc);
    };
    if find(target.names.as_slice(), &doc.source).is_some() {
        return Err(FieldFault::Exists.at(alloc, target.text.as_str()));
    }
    if is_blocked_past(field.names.as_slice(), target.names.as_slice(), &doc.source) {
        return Err(FieldFault::Parent.at(alloc, target.text.as_str()));
    }
    if is_too_deep(target.names.as_slice(), found) {
        return Err(FieldFault::Depth.at(alloc, target.text.as_str()));
    }
    if let Some(value) = take_out(field.names.as_slice(), &mut doc.source) {
        put_in(alloc, target.names.as_slice(), value, &mut doc.source)?;
    }
    Ok(())
}
