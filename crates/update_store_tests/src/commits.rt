//! Commits one after another.

use super::shown::{store_shown, two_documents};
use serde_json::{Value, json};
use std::alloc::{AllocError, Global};
use std::test::Fail;
use update_store::{Change, CommitErr, Store};

/// A change by the number that a document is to have. None: it is deleted.
fn change_to(alloc: Global, number: Option<u64>) -> Result<Change, AllocError> {
    match number {
        Some(n) => {
            let source = json!(in alloc; {"n": n})?;
            Ok(Change::Index(source))
        }
        None => Ok(Change::Delete),
    }
}

/// How a commit comes out: the version then, or the one that was read and the one that was found.
#[derive(Clone, Copy)]
enum Comes {
    To(u64),
    Between(u64, u64),
}

/// Whether a commit comes out so.
fn comes_out(came: Result<u64, CommitErr>, wanted: Comes) -> bool {
    match (came, wanted) {
        (Ok(next), Comes::To(version)) => next == version,
        (Err(CommitErr::Conflict { read, found }), Comes::Between(was, is)) => {
            read == was && found == is
        }
        _ => false,
    }
}

/// The id, the version that was read, the number that the document is to have, how it comes out, and the number that is read
/// then.
type Row = (&'static str, u64, Option<u64>, Comes, Option<u64>);

const ROWS: [Row; 9] = [
    ("a", 2, Some(4), Comes::Between(2, 1), Some(1)),
    ("a", 1, Some(4), Comes::To(2), Some(4)),
    ("a", 1, Some(5), Comes::Between(1, 2), Some(4)),
    ("b", 1, None, Comes::To(2), None),
    ("b", 1, Some(6), Comes::Between(1, 2), None),
    // What is deleted stays so.
    ("b", 2, Some(6), Comes::To(3), None),
    ("a", 2, Some(7), Comes::To(3), Some(7)),
    ("b", 2, None, Comes::Between(2, 3), None),
    ("a", 3, None, Comes::To(4), None),
];

/// The number of the document of an id.
fn number_in(store: &Store, id: &str) -> Option<u64> {
    let doc = store.read(id)?;
    doc.source.get("n").and_then(Value::as_u64)
}

fn same(a: Option<u64>, b: Option<u64>) -> bool {
    match (a, b) {
        (Some(a), Some(b)) => a == b,
        (None, None) => true,
        _ => false,
    }
}

/// Whether a row's commit comes out as it says.
fn row_holds(alloc: Global, store: &mut Store, row: &Row) -> Result<bool, AllocError> {
    let change = change_to(alloc, row.2)?;
    let came = store.commit(7, row.0, row.1, change);
    Ok(comes_out(came, row.3) && same(number_in(store, row.0), row.4))
}

#[test]
fn commits_one_after_another(rt: HostRuntime) -> Result<(), Fail> {
    let alloc = rt.alloc();
    let mut store = two_documents(alloc)?;
    for row in &ROWS {
        let holds = row_holds(alloc, &mut store, row)?;
        assert!(rt; holds, "{} over {}", row.0, row.1);
    }
    let shown = store_shown(alloc, &store)?;
    let wanted = "7 over 1\n7 over 1\n7 over 2\n7 over 2\n7 over 3\n";
    assert!(rt; shown.as_str() == wanted);
    Ok(())
}
