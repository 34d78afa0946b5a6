//! Documents, and what becomes of them.

ghost use Rattle.std.specs.Prelude.{◌≡◌, IfOk};
ghost use Rattle.update_store.specs.Documents.{doc_view};

use serde_json::Value;
use std::alloc::AllocError;

/// A document.
pub struct Doc {
    /// Its id.
    pub id: String,
    /// Its version: 1 when it is new, and one more with each change.
    pub version: u64,
    /// Its source.
    pub source: Value,
}

impl Drop for Doc {
    fn drop(self) {
        let Doc {
            id: _id,
            version: _,
            source: _source,
        } = self;
    }
}

impl Doc {
    /// A copy.
    pub(crate) fn copy(&self) -> Result<Doc, AllocError>
        ensures { IfOk result (λ copy. doc_view copy ≡ doc_view self.now) }
    {
        let id = self.id.clone()?;
        let source = self.source.clone()?;
        Ok(Doc {
            id,
            version: self.version,
            source,
        })
    }
}

/// What is to become of a document.
#[derive(Drop)]
pub enum Change {
    /// It has this source.
    Index(Value),
    /// It is deleted.
    Delete,
}

/// A change that was committed.
#[derive(Clone, Copy, Debug, PartialEq, Eq)]
pub struct Commit {
    /// The number of the client whose change it is.
    pub client: u32,
    /// The version over which it was made: the one that the client had read.
    pub version: u64,
}
