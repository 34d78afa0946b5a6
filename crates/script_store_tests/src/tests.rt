//! Commands one after another, and the counts behind them.

use crate::measuring::{Measured, Measuring};
use ServeKind::{Field, Filter};
use Step::{Delete, Get, Put, Run};
use pl_types::Fail;
use script_store::{ScriptStore, ServeKind, Stored};
use std::alloc::AllocError;
use std::test;

/// A call, and its answer.
enum Step {
    /// Stores a source under an id, and whether it is accepted.
    Put(&'static str, ServeKind, &'static str, bool),
    /// Shows the source under an id, which is empty where there is none.
    Get(&'static str, &'static str),
    /// Takes out what is under an id, and whether there was something.
    Delete(&'static str, bool),
    /// Gives the script under an id by the length of its source, which is 0 where there is none.
    Run(&'static str, usize),
}

/// Calls of a store with room for so many scripts, and what it counts then.
struct Row {
    capacity: u32,
    steps: &'static [Step],
    hits: u64,
    misses: u64,
    stored: u64,
}

const ROWS: [Row; 7] = [
    // With room for one script the second drops the first.
    Row {
        capacity: 1,
        steps: &[
            Put("a", Field, "1", true),
            Put("b", Field, "22", true),
            Run("a", 1),
            Run("a", 1),
        ],
        hits: 1,
        misses: 3,
        stored: 2,
    },
    // A refused script is not stored, and its look-up is counted.
    Row {
        capacity: 100,
        steps: &[Put("c", Field, "", false), Run("c", 0)],
        hits: 0,
        misses: 1,
        stored: 0,
    },
    // One source for two contexts has two keys.
    Row {
        capacity: 2,
        steps: &[
            Put("a", Field, "1", true),
            Put("b", Filter, "1", true),
            Run("a", 1),
            Run("b", 1),
        ],
        hits: 2,
        misses: 2,
        stored: 2,
    },
    // One source under two ids has one key.
    Row {
        capacity: 1,
        steps: &[
            Put("a", Field, "1", true),
            Put("b", Field, "1", true),
            Run("a", 1),
            Run("b", 1),
        ],
        hits: 3,
        misses: 1,
        stored: 2,
    },
    // A key that is found comes to the front, so that the other one is dropped.
    Row {
        capacity: 2,
        steps: &[
            Put("a", Field, "1", true),
            Put("b", Field, "22", true),
            Run("a", 1),
            Put("c", Field, "333", true),
            Run("a", 1),
            Run("b", 2),
        ],
        hits: 2,
        misses: 4,
        stored: 3,
    },
    // What is taken out stays in the cache.
    Row {
        capacity: 2,
        steps: &[
            Put("a", Field, "1", true),
            Delete("a", true),
            Run("a", 0),
            Delete("a", false),
            Get("a", ""),
            Put("a", Field, "1", true),
            Get("a", "1"),
        ],
        hits: 1,
        misses: 1,
        stored: 1,
    },
    // A later script takes the place of an older one, and a refused one does not.
    Row {
        capacity: 2,
        steps: &[
            Put("a", Field, "1", true),
            Put("a", Field, "22", true),
            Run("a", 2),
            Put("a", Field, "", false),
            Run("a", 2),
            Get("a", "22"),
        ],
        hits: 2,
        misses: 3,
        stored: 1,
    },
];

/// Whether a script is of this source, and one that is not there of the empty one.
fn is_of(script: Option<&Stored>, source: &str) -> bool {
    match script {
        Some(script) => script.source.as_str() == source,
        None => source.is_empty(),
    }
}

/// Whether what a script is compiled to has this length, and a script that is not there none.
fn has_length(measured: Option<&Measured>, length: usize) -> bool {
    match measured {
        Some(measured) => measured.length == length,
        None => length == 0,
    }
}

/// Whether a store gives the answer of a step.
fn answers(store: &mut ScriptStore<Measuring>, step: &Step) -> Result<bool, AllocError> {
    match step {
        Step::Put(id, kind, source, accepted) => match store.put(id, *kind, source) {
            Ok(()) => Ok(*accepted),
            Err(Fail::Refused(_)) => Ok(!*accepted),
            Err(Fail::NoMemory) => Err(AllocError),
        },
        Step::Get(id, source) => Ok(is_of(store.get(id), source)),
        Step::Delete(id, there) => Ok(store.delete(id) == *there),
        Step::Run(id, length) => Ok(has_length(store.script(id)?, *length)),
    }
}

#[test]
fn commands_are_answered_and_counted(rt: HostRuntime) -> Result<(), test::Fail> {
    for row in &ROWS {
        let capacity = row.capacity;
        assert!(rt; 0 < capacity);
        assert!(rt; capacity <= 1000);
        let mut store = ScriptStore::new(rt.alloc(), Measuring { calls: 0 }, capacity)?;
        for step in row.steps {
            let right = answers(&mut store, step)?;
            assert!(rt; right);
        }
        assert!(rt; store.hits() == row.hits);
        assert!(rt; store.misses() == row.misses);
        assert!(rt; store.stored() == row.stored);
    }
    Ok(())
}
