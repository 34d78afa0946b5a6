//! The store.

ghost use Rattle.std.specs.Prelude.{◌≡◌, ◌++◌, ◌∷◌, [], ◌<◌, IfOk, IfErr, map, option_map, option_copied, vec_len, vec_capacity};
ghost use Rattle.update_store.specs.Documents.{AreDistinct, change_view, doc_view, version_at, with_docs};
ghost use Rattle.update_store.specs.Committing.{CommitsNot, IsCommitted, opened, read};

use crate::document::{Change, Commit, Doc};
use crate::documents::Documents;
use std::alloc::{AllocError, Global};
use std::marker::Model;

/// Why a change is not committed.
#[derive(Debug, Drop)]
pub enum CommitErr {
    /// The document has another version than the one that was read.
    Conflict {
        /// The version that was read.
        read: u64,
        /// The version that the document has.
        found: u64,
    },
    /// Memory ran out.
    NoMemory,
}

/// Documents with their versions, and what was committed.
///
/// A document is found by the hash of its id. One that is deleted is no document any more, and its version stays known.
#[derive(Drop)]
pub struct Store {
    alloc: Global,
    documents: Documents,
    history: Vec<Commit>,
}

impl Model for Store {
    ghost use Rattle.std.specs.Coded.{codes};
    ghost use Rattle.json_codes.specs.Coding.{data_code};
    ghost use Rattle.update_store.specs.Committing.{StoreData};

    ghost Value = { StoreData };

    ghost coded = { Prim.hlevel (codes, data_code) };

    ghost view = { λ s. record { documents = s.documents; history = s.history.items } };
}

impl Store {
    /// A store of these documents, which stay in this order. Nothing was committed. Of documents of one id the first alone is
    /// taken.
    pub fn new(alloc: Global, docs: Vec<Doc>) -> Result<Store, AllocError>
        ensures first { IfOk result (λ store. store ≡ opened (with_docs [] (map doc_view docs.items))) }
        ensures distinct { AreDistinct (map doc_view docs.items) → IfOk result (λ store. store ≡ opened (map doc_view docs.items)) }
    {
        let documents = Documents::new(alloc, docs)?;
        Ok(Store {
            alloc,
            documents,
            history: Vec::new(alloc),
        })
    }

    /// What gives memory.
    pub(crate) fn alloc(&self) -> Global {
        self.alloc
    }

    /// The live document of an id. `None` where it was deleted or was never there.
    pub fn read(&self, id: &str) -> Option<&Doc>
        ensures { option_map doc_view (option_copied result) ≡ read id.now self.now }
    {
        self.documents.find(id)
    }

    /// Commits a client's change of the document of an id, where that has the version that the client has read, and gives the
    /// version that it has then. The version goes up by one, and the change is entered in the history. A document that was
    /// deleted stays deleted: a change over its version gives it the next one alone. An id that was never there has version 0.
    ///
    /// # Errors
    ///
    /// Conflict where the document has another version than the one that was read, with both. `NoMemory`, also where a version
    /// would pass the end of its type. The store is then as it was.
    pub fn commit(
        &mut self,
        client: u32,
        id: &str,
        version: u64,
        change: Change,
    ) -> Result<u64, CommitErr>
        ensures committed { IfOk result (λ next. IsCommitted client id.now version (change_view change) self.old self.new next) }
        ensures not { IfErr result (λ err. CommitsNot version (version_at id.now self.old.documents) self.old self.new err) }
    {
        let found = self.documents.version_of(id);
        if found != version {
            return Err(CommitErr::Conflict {
                read: version,
                found,
            });
        }
        let Some(next) = found.checked_add(1) else {
            return Err(CommitErr::NoMemory);
        };
        let Ok(()) = self.history.reserve(1) else {
            return Err(CommitErr::NoMemory);
        };
        let Ok(()) = self.documents.change(self.alloc, id, next, change) else {
            return Err(CommitErr::NoMemory);
        };
        enter(&mut self.history, Commit { client, version });
        Ok(next)
    }

    /// The live documents, in the order in which the store was given them.
    pub fn documents(&self) -> &[Doc]
        ensures { map doc_view result.now ≡ self.now.documents.live }
    {
        self.documents.live()
    }

    /// What was committed, the earliest first.
    pub fn history(&self) -> &[Commit]
        ensures { result.now ≡ self.now.history }
    {
        self.history.as_slice()
    }
}

/// Enters a commit in a history that has room for it.
fn enter(history: &mut Vec<Commit>, commit: Commit)
    requires { vec_len history.old < vec_capacity history.old }
    ensures { history.new.items ≡ history.old.items ++ commit ∷ [] }
{
    match history.push(commit) {
        Ok(()) => {}
        Err(_refused) => unreachable!(),
    }
}
