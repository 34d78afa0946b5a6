//! Stores and replies as texts.

use serde_json::{Value, json};
use std::alloc::{AllocError, Global};
use update_store::{Client, Doc, Store};

/// A new document with a number.
pub fn document(alloc: Global, id: String, n: u64) -> Result<Doc, AllocError> {
    let source = json!(in alloc; {"n": n})?;
    Ok(Doc {
        id,
        version: 1,
        source,
    })
}

/// A store of the documents `a`, whose number is 1, and `b`, whose number is 10.
pub fn two_documents(alloc: Global) -> Result<Store, AllocError> {
    let a = document(alloc, String::from_str(alloc, "a")?, 1)?;
    let b = document(alloc, String::from_str(alloc, "b")?, 10)?;
    let mut docs = Vec::new(alloc);
    docs.push(a)?;
    docs.push(b)?;
    Store::new(alloc, docs)
}

/// Clients, each by the id of its document and how often it may begin again.
pub fn clients_of(alloc: Global, rows: &[(&str, u32)]) -> Result<Vec<Client>, AllocError> {
    let mut clients = Vec::new(alloc);
    for row in rows {
        let id = String::from_str(alloc, row.0)?;
        clients.push(Client { id, retries: row.1 })?;
    }
    Ok(clients)
}

/// Replies, a line each.
pub fn replies_shown(alloc: Global, replies: &[Value]) -> Result<String, AllocError> {
    let mut all = String::new(alloc);
    for reply in replies {
        let text = reply.to_string(alloc)?;
        all.push_str(text.as_str())?;
        all.push_str("\n")?;
    }
    Ok(all)
}

/// The live documents with their versions, and then the history, a line each.
pub fn store_shown(alloc: Global, store: &Store) -> Result<String, AllocError> {
    let mut all = String::new(alloc);
    for doc in store.documents() {
        let id = doc.id.as_str();
        let version = doc.version;
        let source = doc.source.to_string(alloc)?;
        let line = format!(in alloc; "{id} {version} {source}\n")?;
        all.push_str(line.as_str())?;
    }
    for commit in store.history() {
        let client = commit.client;
        let version = commit.version;
        let line = format!(in alloc; "{client} over {version}\n")?;
        all.push_str(line.as_str())?;
    }
    Ok(all)
}
