//! The walk through a document: each value goes to the field that has its name.

ghost use Rattle.std.specs.Prelude.{◌≡◌, ◌++◌, [], Some, None, IfOk, IfErr, OnOk, codes, string_bytes};
ghost use Rattle.serde_json.specs.View.{view, items_view, members_view};
ghost use Rattle.search_ctx.specs.declared.error.DocErr.TheVariants as doc_err;
ghost use Rattle.search_ctx.specs.DocValues.{all_taken, at_place, found, found_items, found_members};
ghost use Rattle.search_ctx.specs.Fields.{place_of};
ghost use Rattle.search_ctx.specs.Lines.{score_key, without};

use crate::doc::FieldDoc;
use crate::error::DocErr;
use crate::fields::Fields;
use serde_json::{Map, Value as Json};
use std::alloc::{AllocError, Global};

/// The key of the score in a line of the context score.
pub(crate) const SCORE_KEY: &str = "_score";

/// One text behind another.
fn joined(alloc: Global, front: &str, behind: &str) -> Result<String, AllocError>
    ensures { IfOk result (λ text. string_bytes text ≡ front.now ++ behind.now) }
{
    let mut text = String::with_capacity(alloc, front.len() + behind.len())?;
    text.push_str(front)?;
    text.push_str(behind)?;
    Ok(text)
}

/// Takes a value at a place, if there is one.
fn take_at(doc: &mut FieldDoc, place: Option<usize>, json: &Json) -> Result<(), DocErr>
    ensures ok { OnOk result (all_taken doc.old (at_place place (view json.now)) ≡ Some doc.new) }
    ensures error { IfErr result (λ e. (e ≡ doc_err.Field) → (all_taken doc.old (at_place place (view json.now)) ≡ None)) }
{
    match place {
        Some(place) => doc.take(place, json),
        None => Ok(()),
    }
}

/// Takes what stands in a value of this path, whose field has this place.
#[tactic(auto, using(crate::proofs::Taking::taken_on, crate::proofs::Taking::taken_not))]
#[cycle(walk)]
fn take_value(
    doc: &mut FieldDoc,
    alloc: Global,
    fields: &Fields,
    path: &str,
    place: Option<usize>,
    json: &Json,
) -> Result<(), DocErr>
    ensures ok { OnOk result (all_taken doc.old (found fields.now path.now place (view json.now)) ≡ Some doc.new) }
    ensures error { IfErr result (λ e. (e ≡ doc_err.Field) → (all_taken doc.old (found fields.now path.now place (view json.now)) ≡ None)) }
{
    match json {
        Json::Null => Ok(()),
        Json::Array(items) => take_items(doc, alloc, fields, path, place, items),
        Json::Object(members) => if place.is_some() {
            take_at(doc, place, json)
        } else {
            take_object(doc, alloc, fields, path, members)
        },
        Json::Bool(_) | Json::Number(_) | Json::String(_) => take_at(doc, place, json),
    }
}

/// Takes what stands in each item of an array.
#[tactic(auto, using(crate::proofs::Taking::items_on, crate::proofs::Taking::items_not))]
#[cycle(walk)]
fn take_items(
    doc: &mut FieldDoc,
    alloc: Global,
    fields: &Fields,
    path: &str,
    place: Option<usize>,
    items: &Vec<Json>,
) -> Result<(), DocErr>
    ensures ok { OnOk result (all_taken doc.old (found_items fields.now path.now place (items_view items.now.items)) ≡ Some doc.new) }
    ensures error { IfErr result (λ e. (e ≡ doc_err.Field) → (all_taken doc.old (found_items fields.now path.now place (items_view items.now.items)) ≡ None)) }
{
    for item in items {
        take_value(doc, alloc, fields, path, place, item)?;
    }
    Ok(())
}

/// Takes what stands in the members of an object of this path, which are passed over where no field's name begins so.
#[tactic(auto, using(crate::proofs::Passing::none_taken))]
#[cycle(walk)]
fn take_object(
    doc: &mut FieldDoc,
    alloc: Global,
    fields: &Fields,
    path: &str,
    members: &Map<String, Json>,
) -> Result<(), DocErr>
    ensures ok { OnOk result (all_taken doc.old (found_members fields.now (path.now ++ codes ".") (members_view members.now.entries)) ≡ Some doc.new) }
    ensures error { IfErr result (λ e. (e ≡ doc_err.Field) → (all_taken doc.old (found_members fields.now (path.now ++ codes ".") (members_view members.now.entries)) ≡ None)) }
{
    if !fields.may_begin(path) {
        return Ok(());
    }
    let front = joined(alloc, path, ".")?;
    take_members(doc, alloc, fields, front.as_str(), members)
}

/// Takes what stands in the members of an object, with this text in front of their names. It goes some calls deeper for each
/// array or object around a value, of which what `serde_json` reads has at most 127.
#[tactic(auto, using(crate::proofs::Taking::taken_on, crate::proofs::Taking::taken_not))]
#[cycle(walk)]
pub(crate) fn take_members(
    doc: &mut FieldDoc,
    alloc: Global,
    fields: &Fields,
    front: &str,
    members: &Map<String, Json>,
) -> Result<(), DocErr>
    ensures ok { OnOk result (all_taken doc.old (found_members fields.now front.now (members_view members.now.entries)) ≡ Some doc.new) }
    ensures error { IfErr result (λ e. (e ≡ doc_err.Field) → (all_taken doc.old (found_members fields.now front.now (members_view members.now.entries)) ≡ None)) }
{
    for (name, member) in members.iter() {
        take_member(doc, alloc, fields, front, name.as_str(), member)?;
    }
    Ok(())
}

/// Takes what stands in a member, with a text in front of its name.
#[tactic(auto, using(crate::proofs::Taking::taken_on, crate::proofs::Taking::taken_not))]
#[cycle(walk)]
fn take_member(
    doc: &mut FieldDoc,
    alloc: Global,
    fields: &Fields,
    front: &str,
    name: &str,
    member: &Json,
) -> Result<(), DocErr>
    ensures ok { OnOk result (all_taken doc.old (found fields.now (front.now ++ name.now) (place_of (front.now ++ name.now) fields.now) (view member.now)) ≡ Some doc.new) }
    ensures error { IfErr result (λ e. (e ≡ doc_err.Field) → (all_taken doc.old (found fields.now (front.now ++ name.now) (place_of (front.now ++ name.now) fields.now) (view member.now)) ≡ None)) }
{
    if front.is_empty() {
        return take_value(doc, alloc, fields, name, fields.place_of(name), member);
    }
    let path = joined(alloc, front, name)?;
    let place = fields.place_of(path.as_str());
    take_value(doc, alloc, fields, path.as_str(), place, member)
}

/// Takes what stands in the members of a document but the score.
#[tactic(auto, using(crate::proofs::Taking::taken_on, crate::proofs::Taking::taken_not))]
pub(crate) fn take_unscored(
    doc: &mut FieldDoc,
    alloc: Global,
    fields: &Fields,
    members: &Map<String, Json>,
) -> Result<(), DocErr>
    ensures ok { OnOk result (all_taken doc.old (found_members fields.now [] (without score_key (members_view members.now.entries))) ≡ Some doc.new) }
    ensures error { IfErr result (λ e. (e ≡ doc_err.Field) → (all_taken doc.old (found_members fields.now [] (without score_key (members_view members.now.entries))) ≡ None)) }
{
    for (name, member) in members.iter() {
        if name.as_str() != SCORE_KEY {
            take_member(doc, alloc, fields, "", name.as_str(), member)?;
        }
    }
    Ok(())
}
