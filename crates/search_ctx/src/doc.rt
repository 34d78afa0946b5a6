//! The doc values of a document.

ghost use Rattle.std.specs.Prelude.{◌≡◌, Some, None, map, IfOk, IfErr, OnOk};
ghost use Rattle.serde_json.specs.View.{view, members_view};
ghost use Rattle.search_ctx.specs.declared.error.DocErr.TheVariants as doc_err;
ghost use Rattle.search_ctx.specs.DocValues.{doc_of, doc_of_members, empty_doc, ordered, ordered_at, taken};
ghost use Rattle.search_ctx.specs.Lines.{score_key, without};

use crate::error::DocErr;
use crate::fields::Fields;
use crate::values::FieldValues;
use crate::walk::{take_members, take_unscored};
use serde_json::{Map, Value as Json};
use std::alloc::{AllocError, Global};
use std::marker::Model;

/// The values of each field of a mapping in a document, in the order of the fields. Contracts see their list.
pub struct FieldDoc {
    values: Vec<FieldValues>,
}

impl Model for FieldDoc {
    ghost use Rattle.std.specs.Prelude.{List};
    ghost use Rattle.search_ctx.specs.declared.values.FieldValues.{FieldValues as declared};

    ghost Value = { List declared };

    ghost view = { λ doc. doc.values.items };
}

impl Drop for FieldDoc {
    fn drop(self) {
        let FieldDoc { values: _values } = self;
    }
}

/// Puts the values at a place in order.
fn order_at(values: &mut Vec<FieldValues>, alloc: Global, at: usize)
    ensures { values.new.items ≡ ordered_at values.old.items at }
{
    match values.get_mut(at) {
        Some(values) => values.order(alloc),
        None => {}
    }
}

/// Puts the values of each field in order.
fn order_all(values: &mut Vec<FieldValues>, alloc: Global)
    ensures { values.new.items ≡ map ordered values.old.items }
{
    for at in 0..values.len() {
        order_at(values, alloc, at);
    }
}

impl FieldDoc {
    /// No values yet, for each field.
    fn empty(alloc: Global, fields: &Fields) -> Result<FieldDoc, AllocError>
        ensures { IfOk result (λ doc. doc ≡ empty_doc fields.now) }
    {
        let values = fields.no_values(alloc)?;
        Ok(FieldDoc { values })
    }

    /// The values of each field.
    pub fn as_slice(&self) -> &[FieldValues]
        ensures { result.now ≡ self.now }
    {
        self.values.as_slice()
    }

    /// Takes a JSON value as a further one of the field at a place, if there is one.
    pub(crate) fn take(&mut self, place: usize, json: &Json) -> Result<(), DocErr>
        ensures ok { OnOk result (taken self.old place (view json.now) ≡ Some self.new) }
        ensures error { IfErr result (λ e. (e ≡ doc_err.Field) → (taken self.old place (view json.now) ≡ None)) }
    {
        let alloc = *self.values.allocator();
        match self.values.get_mut(place) {
            Some(values) => values.take(alloc, json),
            None => Ok(()),
        }
    }

    /// Puts the values of each field in order.
    fn order(&mut self)
        ensures { self.new ≡ map ordered self.old }
    {
        let alloc = *self.values.allocator();
        order_all(&mut self.values, alloc);
    }

    /// The doc values of a document's members.
    pub(crate) fn of_members(
        alloc: Global,
        fields: &Fields,
        members: &Map<String, Json>,
    ) -> Result<FieldDoc, DocErr>
        ensures doc { IfOk result (λ doc. doc_of_members fields.now (members_view members.now.entries) ≡ Some doc) }
        ensures error { IfErr result (λ e. (e ≡ doc_err.Field) → (doc_of_members fields.now (members_view members.now.entries) ≡ None)) }
    {
        let mut doc = FieldDoc::empty(alloc, fields)?;
        take_members(&mut doc, alloc, fields, "", members)?;
        doc.order();
        Ok(doc)
    }

    /// The doc values of a document's members but the score.
    pub(crate) fn of_unscored(
        alloc: Global,
        fields: &Fields,
        members: &Map<String, Json>,
    ) -> Result<FieldDoc, DocErr>
        ensures doc { IfOk result (λ doc. doc_of_members fields.now (without score_key (members_view members.now.entries)) ≡ Some doc) }
        ensures error { IfErr result (λ e. (e ≡ doc_err.Field) → (doc_of_members fields.now (without score_key (members_view members.now.entries)) ≡ None)) }
    {
        let mut doc = FieldDoc::empty(alloc, fields)?;
        take_unscored(&mut doc, alloc, fields, members)?;
        doc.order();
        Ok(doc)
    }
}

impl Fields {
    /// The doc values of a document: objects are flattened to names joined by dots, arrays are flattened, null is skipped, and
    /// what has no field is ignored. `Field` where the document is no object, or a value stands at a field that does not take
    /// it; an object is taken by none.
    pub fn doc(&self, alloc: Global, line: &Json) -> Result<FieldDoc, DocErr>
        ensures doc { IfOk result (λ doc. doc_of self.now (view line.now) ≡ Some doc) }
        ensures error { IfErr result (λ e. (e ≡ doc_err.Field) → (doc_of self.now (view line.now) ≡ None)) }
    {
        match line.as_object() {
            Some(members) => FieldDoc::of_members(alloc, self, members),
            None => Err(DocErr::Field),
        }
    }
}
