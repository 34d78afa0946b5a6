//! The documents of a store.

ghost use Rattle.std.specs.Prelude.{◌≡◌, [], IfOk, OnOk, OnErr, not, map, option_map, option_copied, string_bytes};
ghost use Rattle.std.specs.List.{list_any};
ghost use Rattle.std.specs.Str.{bytes_eq};
ghost use Rattle.serde_json.specs.View.{view};
ghost use Rattle.update_store.specs.Committing.{all_live};
ghost use Rattle.update_store.specs.Documents.{Index, IsAdded, change_view, changed, deleted_version, doc_view, find, removed, rewritten, version_at, versions_of, with_docs, with_id, with_version, without};

use crate::document::{Change, Doc};
use indexmap::{IndexMap, IndexSet};
use serde_json::Value;
use std::alloc::{AllocError, Global};
use std::marker::Model;

/// The live documents in their order, each found by the hash of its id, and the versions of the ids that have none any more.
#[derive(Drop)]
pub(crate) struct Documents {
    live: Vec<Doc>,
    /// The ids of the live documents, in their order.
    places: IndexSet<String>,
    deleted: IndexMap<String, u64>,
}

impl Model for Documents {
    ghost use Rattle.std.specs.Coded.{codes};
    ghost use Rattle.json_codes.specs.Coding.{data_code};
    ghost use Rattle.std.specs.Prelude.{map};
    ghost use Rattle.update_store.specs.Documents.{ArePlaces, DocumentsData, doc_view, versions_of};

    ghost Value = { DocumentsData };

    ghost coded = { Prim.hlevel (codes, data_code) };

    ghost view = { λ d. record { live = map doc_view d.live.items; deleted = versions_of d.deleted.entries } };

    ghost invariant = { λ d. ArePlaces d.places.keys (map doc_view d.live.items) };
}

impl Documents {
    /// Documents that are all live. Of those of one id the first alone is taken.
    pub(crate) fn new(alloc: Global, docs: Vec<Doc>) -> Result<Documents, AllocError>
        ensures { IfOk result (λ documents. documents ≡ all_live (with_docs [] (map doc_view docs.items))) }
    {
        let mut live = Vec::with_capacity(alloc, docs.len())?;
        let mut places = IndexSet::with_capacity(alloc, docs.len())?;
        for doc in docs {
            add(&mut places, &mut live, doc)?;
        }
        Ok(Documents {
            live,
            places,
            deleted: IndexMap::new(alloc),
        })
    }

    /// The live documents.
    pub(crate) fn live(&self) -> &[Doc]
        ensures { map doc_view result.now ≡ self.now.live }
    {
        self.live.as_slice()
    }

    /// The live document of an id.
    pub(crate) fn find(&self, id: &str) -> Option<&Doc>
        ensures { option_map doc_view (option_copied result) ≡ find id.now self.now.live }
    {
        let Some(place) = self.places.get_index_of(id) else {
            return None;
        };
        self.live.get(place)
    }

    /// The version of an id, and 0 of one that was never there.
    pub(crate) fn version_of(&self, id: &str) -> u64
        ensures { result ≡ version_at id.now self.now }
    {
        match self.find(id) {
            Some(doc) => doc.version,
            None => deleted_version(&self.deleted, id),
        }
    }

    /// Makes a change of the document of an id, which gives the id this version. After want of memory the documents are as
    /// before.
    pub(crate) fn change(
        &mut self,
        alloc: Global,
        id: &str,
        version: u64,
        change: Change,
    ) -> Result<(), AllocError>
        ensures ok { OnOk result (self.new ≡ changed id.now version (change_view change) (find id.now self.old.live) self.old) }
        ensures err { OnErr result (self.new ≡ self.old) }
    {
        match change {
            Change::Index(source) => self.replace(alloc, id, version, source),
            Change::Delete => self.remove(alloc, id, version),
        }
    }

    /// Gives the document of an id another source, and this version. Where the id has no document, that changes its version
    /// alone. After want of memory the documents are as before.
    fn replace(
        &mut self,
        alloc: Global,
        id: &str,
        version: u64,
        source: Value,
    ) -> Result<(), AllocError>
        ensures ok { OnOk result (self.new ≡ changed id.now version (Index (view source)) (find id.now self.old.live) self.old) }
        ensures err { OnErr result (self.new ≡ self.old) }
    {
        let Some(place) = self.places.get_index_of(id) else {
            return self.remove(alloc, id, version);
        };
        let doc = &mut self.live[place];
        rewrite(doc, version, source);
        Ok(())
    }

    /// Leaves an id with this version and with no document. After want of memory the documents are as before.
    fn remove(&mut self, alloc: Global, id: &str, version: u64) -> Result<(), AllocError>
        ensures ok { OnOk result (self.new ≡ removed id.now version self.old) }
        ensures err { OnErr result (self.new ≡ self.old) }
    {
        let key = String::from_str(alloc, id)?;
        put_version(&mut self.deleted, key, version)?;
        self.cut(id);
        Ok(())
    }

    /// Takes the document of an id out, if there is one.
    fn cut(&mut self, id: &str)
        ensures { self.new ≡ record self.old { live = without id.now self.old.live } }
    {
        if let Some(place) = self.places.get_index_of(id) {
            self.places.shift_remove_index(place);
            self.live.remove(place);
        }
    }
}

/// Puts a document behind others, unless one of its id is there.
fn add(places: &mut IndexSet<String>, live: &mut Vec<Doc>, doc: Doc) -> Result<(), AllocError>
    ensures { OnOk result (IsAdded places.old.keys (map doc_view live.old.items) (doc_view doc) places.new.keys (map doc_view live.new.items)) }
{
    let id = doc.id.clone()?;
    if !put_id(places, id)? {
        return Ok(());
    }
    live.push(doc)?;
    Ok(())
}

/// Puts an id behind others, and says whether it was not there.
fn put_id(places: &mut IndexSet<String>, id: String) -> Result<bool, AllocError>
    ensures new { IfOk result (λ new. new ≡ not (list_any (bytes_eq (string_bytes id)) (map string_bytes places.old.keys))) }
    ensures keys { OnOk result (map string_bytes places.new.keys ≡ with_id (map string_bytes places.old.keys) (string_bytes id)) }
{
    match places.insert(id) {
        Ok(is_new) => return Ok(is_new),
        Err(refused) => drop(refused),
    }
    Err(AllocError)
}

/// The version of an id that has no document, and 0 of one that was never there.
fn deleted_version(deleted: &IndexMap<String, u64>, id: &str) -> u64
    ensures { result ≡ deleted_version id.now (versions_of deleted.now.entries) }
{
    match deleted.get(id) {
        Some(version) => *version,
        None => 0,
    }
}

/// Notes the version of an id that has no document. After want of memory the versions are as before.
fn put_version(
    deleted: &mut IndexMap<String, u64>,
    id: String,
    version: u64,
) -> Result<(), AllocError>
    ensures ok { OnOk result (versions_of deleted.new.entries ≡ with_version (string_bytes id) version (versions_of deleted.old.entries)) }
    ensures err { OnErr result (versions_of deleted.new.entries ≡ versions_of deleted.old.entries) }
{
    match deleted.insert(id, version) {
        Ok(_before) => return Ok(()),
        Err(refused) => drop(refused),
    }
    Err(AllocError)
}

/// Gives a document another source, and this version.
fn rewrite(doc: &mut Doc, version: u64, source: Value)
    ensures { doc_view doc.new ≡ rewritten version (view source) (doc_view doc.old) }
{
    doc.version = version;
    doc.source = source;
}
