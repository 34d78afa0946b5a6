//! The cache of compiled scripts.

ghost use Rattle.std.specs.Prelude.{◌≡◌, is_some, IfOk, IfSome, IsOkAnd};
ghost use Rattle.std.specs.NonZero.{non_zero_usize_get};
ghost use Rattle.script_store.specs.Script.{script_of};
ghost use Rattle.script_store.specs.Compiling.{Accepts, Faults, WithMemory};
ghost use Rattle.script_store.specs.Cache.{cached, empty, has_key, fault_in, look_up};

use crate::compiler::Compiler;
use crate::stored::Stored;
use lru::LruCache;
use pl_types::Fail;
use std::alloc::{AllocError, Global};
use std::marker::Model;
use std::num::NonZeroUsize;

/// Compiled scripts by their keys, the most recently used first, and what compiles them.
#[derive(Drop)]
pub(crate) struct ScriptCache<C: Compiler + Drop> {
    compiler: C,
    scripts: LruCache<Stored, C::Out>,
    hits: u64,
    misses: u64,
}

impl<C: Compiler + Drop> Model for ScriptCache<C> {
    ghost use Rattle.script_store.specs.Cache.{Cached, cached, cache_of, AllMean};

    ghost Value = { Cached C };

    ghost view = { λ c. cached c.compiler (cache_of c.scripts c.hits c.misses (C.calls c.compiler)) };

    ghost invariant = { λ c. AllMean C.means (C.compiled c.compiler) c.scripts.entries };
}

impl<C: Compiler + Drop> ScriptCache<C> {
    /// An empty cache with room for so many compiled scripts.
    pub(crate) fn new(alloc: Global, compiler: C, room: NonZeroUsize) -> Result<Self, AllocError>
        ensures { IfOk result (λ c. c ≡ cached compiler (empty (non_zero_usize_get room) (C.calls compiler))) }
    {
        let scripts = LruCache::new(alloc, room)?;
        Ok(ScriptCache {
            compiler,
            scripts,
            hits: 0,
            misses: 0,
        })
    }

    /// How often a look-up found its key.
    pub(crate) fn hits(&self) -> u64
        ensures { result ≡ self.now.cache.hits }
    {
        self.hits
    }

    /// How often a look-up did not find its key.
    pub(crate) fn misses(&self) -> u64
        ensures { result ≡ self.now.cache.misses }
    {
        self.misses
    }

    /// Looks a key up, and compiles the script where it is not there.
    ///
    /// # Errors
    ///
    /// Refused where the script is, when it is compiled. `NoMemory`, behind which nothing is said of the cache.
    pub(crate) fn look_up(&mut self, alloc: Global, key: &Stored) -> Result<(), Fail>
        ensures compiled { C.compiled self.new.compiler ≡ C.compiled self.old.compiler }
        ensures accepts { Accepts (C.compiled self.old.compiler (script_of key.now)) result }
        ensures faults { Faults (fault_in (C.compiled self.old.compiler (script_of key.now)) (script_of key.now) self.old.cache) result }
        ensures next { WithMemory result (self.new.cache ≡ look_up (C.compiled self.old.compiler (script_of key.now)) (script_of key.now) self.old.cache) }
    {
        if self.scripts.promote(key) {
            self.hits = self.hits.saturating_add(1);
            return Ok(());
        }
        self.misses = self.misses.saturating_add(1);
        let script = match self.compiler.compile(key.kind, key.source.as_str()) {
            Ok(script) => script,
            Err(fail) => return Err(fail),
        };
        let key = key.copy(alloc)?;
        self.scripts.put(key, script)?;
        Ok(())
    }

    /// The compiled script of a key. `None` where the key is not there.
    pub(crate) fn script(&self, key: &Stored) -> Option<&C::Out>
        ensures there { is_some result ≡ has_key (script_of key.now) self.now.cache.keys }
        ensures means { IfSome result (λ script. IsOkAnd (C.compiled self.now.compiler (script_of key.now)) (C.means script.now)) }
    {
        self.scripts.peek(key)
    }
}
