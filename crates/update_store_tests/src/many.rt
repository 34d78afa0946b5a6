//! Ten thousand clients.

use super::acting::{Act, Acting};
use super::shown::document;
use std::alloc::{AllocError, Global};
use std::test::Fail;
use update_store::{Client, Store, run_updates};

/// The scripts of so many clients, each of which adds 1.
fn adding(alloc: Global, clients: u32) -> Result<Vec<Act>, AllocError> {
    let mut acts = Vec::new(alloc);
    for _client in 0..clients {
        acts.push(Act::Add(1))?;
    }
    Ok(acts)
}

/// The id of a document by its number.
fn id_of(alloc: Global, number: u32) -> Result<String, AllocError> {
    format!(in alloc; "document {number}")
}

/// A store of a thousand documents.
fn thousand(alloc: Global) -> Result<Store, AllocError> {
    let mut docs = Vec::new(alloc);
    for number in 0..1000 {
        let id = id_of(alloc, number)?;
        docs.push(document(alloc, id, 0)?)?;
    }
    Store::new(alloc, docs)
}

/// So many clients, ten to each of a thousand documents, each of which may begin again so often.
fn crowd(alloc: Global, clients: u32, retries: u32) -> Result<Vec<Client>, AllocError> {
    let mut all = Vec::new(alloc);
    for number in 0..clients {
        let id = id_of(alloc, number % 1000)?;
        all.push(Client { id, retries })?;
    }
    Ok(all)
}

/// An order of a hundred thousand entries that goes through ten thousand clients in leaps.
fn leaps(alloc: Global) -> Result<Vec<u32>, AllocError> {
    let mut order = Vec::new(alloc);
    for entry in 0..100000 {
        let entry: u32 = entry;
        order.push(entry.wrapping_mul(7919) % 10000)?;
    }
    Ok(order)
}

/// Whether each document has this version and as many changes, and so many were committed.
fn have(store: &Store, version: u64, commits: usize) -> bool {
    for doc in store.documents() {
        if doc.version != version {
            return false;
        }
    }
    store.documents().len() == 1000 && store.history().len() == commits
}

/// Whether ten thousand clients leave a thousand documents so.
fn leaves(
    alloc: Global,
    retries: u32,
    order: &[u32],
    version: u64,
    commits: usize,
) -> Result<bool, AllocError> {
    let mut store = thousand(alloc)?;
    let acts = adding(alloc, 10000)?;
    let mut runner = Acting {
        alloc,
        acts: acts.as_slice(),
        spent: 0,
    };
    let clients = crowd(alloc, 10000, retries)?;
    if clients.len() >= 4_294_967_296 {
        return Ok(false);
    }
    let replies = run_updates(&mut store, &mut runner, clients, order)?;
    Ok(replies.len() == 10000 && have(&store, version, commits))
}

/// Of ten clients of a document all commit where each may begin again nine times, and one where none may.
#[test]
fn ten_thousand_clients(rt: HostRuntime) -> Result<(), Fail> {
    let alloc = rt.alloc();
    let all = leaves(alloc, 9, &[], 11, 10000)?;
    assert!(rt; all);
    let one = leaves(alloc, 0, &[], 2, 1000)?;
    assert!(rt; one);
    let order = leaps(alloc)?;
    let mixed = leaves(alloc, 9, order.as_slice(), 11, 10000)?;
    assert!(rt; mixed);
    Ok(())
}
