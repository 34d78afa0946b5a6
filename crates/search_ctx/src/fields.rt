//! The fields of a mapping, found by their names.

ghost use Rattle.std.specs.Prelude.{◌≡◌, [], false, IfOk, OnOk, length, string_bytes};
ghost use Rattle.job_file.specs.Answers.{fields_view};
ghost use Rattle.search_ctx.specs.DocValues.{empty_doc};
ghost use Rattle.search_ctx.specs.Placing.{lists_placed};
ghost use Rattle.search_ctx.specs.Fields.{NoneLonger, begins_some, place_of, texts_of, with_field, with_fields};

use crate::placing::place_lists;
use crate::values::FieldValues;
use indexmap::IndexMap;
use job_file::{FieldKind, Mapping};
use object_heap::Heap;
use object_values::Pairs;
use pl_units::UText;
use std::alloc::{AllocError, Global};
use std::marker::Model;

/// Of so many fields at most the names are looked through, where some may begin with the name of an object.
const FEW: usize = 32;

/// The fields that a script sees of a document, each found by the hash of its name. They are made once for a job, and so are
/// the texts that scripts have of their names. Contracts see the list of their names and kinds.
pub struct Fields {
    kinds: IndexMap<String, FieldKind>,
    texts: Vec<UText>,
    /// How many bytes the longest name has.
    longest: usize,
}

impl Model for Fields {
    ghost use Rattle.std.specs.Prelude.{◌≡◌, ℕ, List};
    ghost use Rattle.job_file.specs.declared.mapping.FieldKind.{FieldKind as declared};
    ghost use Rattle.job_file.specs.Answers.{fields_view};
    ghost use Rattle.search_ctx.specs.Fields.{NoneLonger, texts_of};

    ghost Value = { List (List ℕ × declared) };

    ghost view = { λ fields. fields_view fields.kinds.entries };

    ghost invariant = { λ fields. (fields.texts.items ≡ texts_of (fields_view fields.kinds.entries)) × NoneLonger fields.longest (fields_view fields.kinds.entries) };
}

impl Drop for Fields {
    fn drop(self) {
        let Fields {
            kinds: _kinds,
            texts: _texts,
            longest: _longest,
        } = self;
    }
}

/// Sets the kind of a name.
#[tactic(auto, using(crate::proofs::FieldLemmas::field_inserted))]
fn add(
    kinds: &mut IndexMap<String, FieldKind>,
    name: String,
    kind: FieldKind,
) -> Result<(), AllocError>
    ensures { OnOk result (fields_view kinds.new.entries ≡ with_field (fields_view kinds.old.entries) (string_bytes name) kind) }
{
    match kinds.insert(name, kind) {
        Ok(_before) => return Ok(()),
        Err(refused) => drop(refused),
    }
    Err(AllocError)
}

/// The kinds of a mapping's fields by their names.
fn kinds_of(alloc: Global, mapping: &Mapping) -> Result<IndexMap<String, FieldKind>, AllocError>
    ensures { IfOk result (λ kinds. fields_view kinds.entries ≡ with_fields [] (fields_view mapping.now.fields.items)) }
{
    let mut kinds = IndexMap::new(alloc);
    for (name, kind) in &mapping.fields {
        add(&mut kinds, name.clone()?, *kind)?;
    }
    Ok(kinds)
}

/// The names of fields as texts of scripts.
fn texts_of(alloc: Global, kinds: &IndexMap<String, FieldKind>) -> Result<Vec<UText>, AllocError>
    ensures { IfOk result (λ texts. texts.items ≡ texts_of (fields_view kinds.now.entries)) }
{
    let mut texts = Vec::new(alloc);
    for (name, _kind) in kinds.iter() {
        texts.push(UText::from_utf8(alloc, name.as_str())?)?;
    }
    Ok(texts)
}

/// How many bytes the longest name has.
fn longest_of(kinds: &IndexMap<String, FieldKind>) -> usize
    ensures { NoneLonger result (fields_view kinds.now.entries) }
{
    let mut longest = 0;
    for (name, _kind) in kinds.iter() {
        longest = name.len().max(longest);
    }
    longest
}

impl Fields {
    /// The fields of a mapping, in its order. Of two of one name, which a mapping that is read does not have, the first
    /// keeps its place and the last its kind.
    pub fn new(alloc: Global, mapping: &Mapping) -> Result<Fields, AllocError>
        ensures { IfOk result (λ fields. fields ≡ with_fields [] (fields_view mapping.now.fields.items)) }
    {
        let kinds = kinds_of(alloc, mapping)?;
        let texts = texts_of(alloc, &kinds)?;
        let longest = longest_of(&kinds);
        Ok(Fields {
            kinds,
            texts,
            longest,
        })
    }

    /// How many fields there are.
    pub fn len(&self) -> usize
        ensures { result ≡ length self.now }
    {
        self.kinds.as_slice().len()
    }

    /// The place of the field of a name, counted from 0.
    pub fn place_of(&self, name: &str) -> Option<usize>
        ensures { result ≡ place_of name.now self.now }
    {
        self.kinds.get_index_of(name)
    }

    /// Whether the name of some field begins with a text.
    fn begins_some(&self, front: &str) -> bool
        ensures { result ≡ begins_some front.now self.now }
    {
        for (name, _kind) in self.kinds.iter() {
            if name.as_bytes().starts_with(front.as_bytes()) {
                return true;
            }
        }
        false
    }

    /// Whether the name of some field may begin with a text: where it says no, none does. So an object is looked into only where its
    /// path is no longer than the longest name.
    #[tactic(auto, using(crate::proofs::FieldLemmas::none_begins))]
    pub(crate) fn may_begin(&self, front: &str) -> bool
        ensures { result ≡ false → begins_some front.now self.now ≡ false }
    {
        if self.longest < front.len() {
            return false;
        }
        if FEW < self.len() {
            return true;
        }
        self.begins_some(front)
    }

    /// No values yet, for each field.
    pub(crate) fn no_values(&self, alloc: Global) -> Result<Vec<FieldValues>, AllocError>
        ensures { IfOk result (λ values. values.items ≡ empty_doc self.now) }
    {
        let mut values = Vec::with_capacity(alloc, self.len())?;
        for (_name, kind) in self.kinds.iter() {
            values.push(FieldValues::new(alloc, *kind))?;
        }
        Ok(values)
    }

    /// Places the list of each field's values in a heap, and gives the lists under the names of the fields.
    #[tactic(auto, using(crate::proofs::Taking::lists_by_texts))]
    pub(crate) fn place(&self, heap: &mut Heap, doc: &[FieldValues]) -> Result<Pairs, AllocError>
        ensures pairs { IfOk result (λ pairs. pairs ≡ (lists_placed (record { pairs = []; objects = heap.old.objects }) doc.now self.now).pairs) }
        ensures store { OnOk result (heap.new ≡ record heap.old { objects = (lists_placed (record { pairs = []; objects = heap.old.objects }) doc.now self.now).objects }) }
    {
        place_lists(heap, self.texts.as_slice(), doc)
    }
}
