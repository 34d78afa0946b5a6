//! A script that is stored.

ghost use Rattle.std.specs.Prelude.{◌≡◌, IfOk};
ghost use Rattle.script_store.specs.Script.{script, script_of};

use crate::kind::ServeKind;
use std::alloc::{AllocError, Global};

/// A script that is stored. It is also the key under which it lies in the cache once it is compiled: two scripts have one key
/// where both the context and the source are the same.
#[derive(Debug, Drop, PartialEq, Eq, Hash)]
pub struct Stored {
    /// For which context it is.
    pub kind: ServeKind,
    /// Its source.
    pub source: String,
}

impl Stored {
    /// A script of a copy of its source.
    pub(crate) fn new(alloc: Global, kind: ServeKind, source: &str) -> Result<Stored, AllocError>
        ensures { IfOk result (λ stored. script_of stored ≡ script kind source.now) }
    {
        let source = String::from_str(alloc, source)?;
        Ok(Stored { kind, source })
    }

    /// A copy.
    pub(crate) fn copy(&self, alloc: Global) -> Result<Stored, AllocError>
        ensures { IfOk result (λ stored. script_of stored ≡ script_of self.now) }
    {
        Stored::new(alloc, self.kind, self.source.as_str())
    }
}
