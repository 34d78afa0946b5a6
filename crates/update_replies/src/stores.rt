//! The documents of a job as a store, and a store as what is told of it.

ghost use Rattle.std.specs.Prelude.{◌≡◌, ◌++◌, ◌∷◌, [], IfOk, OnOk, map};
ghost use Rattle.serde_json.specs.Data.{no_members, put};
ghost use Rattle.serde_json.specs.View.{members_view, view};
ghost use Rattle.update_store.specs.Documents.{doc_view};
ghost use Rattle.update_replies.specs.Stores.{commit_reply, documents_and_history, doc_reply, docs_in, first_store, store_reply, with_replies};

use serde_json::{Map, Value, json};
use std::alloc::{AllocError, Global};
use update_store::{Commit, Doc, Store};

/// A new document.
fn new_doc(id: &str, source: &Value, alloc: Global) -> Result<Doc, AllocError>
    ensures { IfOk result (λ doc. doc_view doc ≡ record { id = id.now; version = 1; source = view source.now }) }
{
    Ok(Doc {
        id: String::from_str(alloc, id)?,
        version: 1,
        source: source.clone()?,
    })
}

/// The members of an object as new documents.
fn docs_in(alloc: Global, members: &Map<String, Value>) -> Result<Vec<Doc>, AllocError>
    ensures { IfOk result (λ docs. map doc_view docs.items ≡ docs_in (members_view members.now.entries)) }
{
    let mut docs = Vec::new(alloc);
    for (id, source) in members.iter() {
        let doc = new_doc(id.as_str(), source, alloc)?;
        docs.push(doc)?;
    }
    Ok(docs)
}

/// The store of a job's documents.
pub fn first_store(alloc: Global, documents: &Value) -> Result<Store, AllocError>
    ensures { IfOk result (λ store. store ≡ first_store (view documents.now)) }
{
    match documents.as_object() {
        Some(members) => {
            let docs = docs_in(alloc, members)?;
            Store::new(alloc, docs)
        }
        None => Store::new(alloc, Vec::new(alloc)),
    }
}

/// What is told of a document.
fn doc_reply(alloc: Global, doc: &Doc) -> Result<Value, AllocError>
    ensures { IfOk result (λ reply. view reply ≡ doc_reply (doc_view doc.now)) }
{
    let source = doc.source.clone()?;
    json!(in alloc; {"_source": source, "_version": doc.version})
}

/// Puts what is told of a document under its id.
fn put_reply(alloc: Global, doc: &Doc, members: &mut Map<String, Value>) -> Result<(), AllocError>
    ensures { OnOk result (members_view members.new.entries ≡ put (doc_view doc.now).id (doc_reply (doc_view doc.now)) (members_view members.old.entries)) }
{
    let reply = doc_reply(alloc, doc)?;
    serde_json::put(members, alloc, doc.id.as_str(), reply)
}

/// What is told of documents, by their ids.
fn docs_reply(alloc: Global, docs: &[Doc]) -> Result<Map<String, Value>, AllocError>
    ensures { IfOk result (λ members. members_view members.entries ≡ with_replies no_members (map doc_view docs.now)) }
{
    let mut members = Map::new(alloc);
    for doc in docs {
        put_reply(alloc, doc, &mut members)?;
    }
    Ok(members)
}

/// What is told of a commit.
fn commit_reply(alloc: Global, entry: Commit) -> Result<Value, AllocError>
    ensures { IfOk result (λ reply. view reply ≡ commit_reply entry) }
{
    json!(in alloc; {"client": entry.client, "version": entry.version})
}

/// Puts what is told of a commit last.
fn push_entry(alloc: Global, entry: &Commit, items: &mut Vec<Value>) -> Result<(), AllocError>
    ensures { OnOk result (map view items.new.items ≡ map view items.old.items ++ commit_reply entry.now ∷ []) }
{
    let reply = commit_reply(alloc, *entry)?;
    items.push(reply)?;
    Ok(())
}

/// What is told of a history.
fn history_reply(alloc: Global, history: &[Commit]) -> Result<Vec<Value>, AllocError>
    ensures { IfOk result (λ items. map view items.items ≡ map commit_reply history.now) }
{
    let mut items = Vec::with_capacity(alloc, history.len())?;
    for entry in history {
        push_entry(alloc, entry, &mut items)?;
    }
    Ok(items)
}

/// What is told of documents and of a history.
fn whole_reply(alloc: Global, documents: Value, history: Value) -> Result<Value, AllocError>
    ensures { IfOk result (λ reply. view reply ≡ documents_and_history (view documents) (view history)) }
{
    json!(in alloc; {"documents": documents, "history": history})
}

/// What is told of a store.
pub fn store_reply(alloc: Global, store: &Store) -> Result<Value, AllocError>
    ensures { IfOk result (λ reply. view reply ≡ store_reply store.now) }
{
    let documents = docs_reply(alloc, store.documents())?;
    let history = history_reply(alloc, store.history())?;
    whole_reply(alloc, Value::Object(documents), Value::Array(history))
}
