//! The store of scripts.

ghost use Rattle.std.specs.Prelude.{◌≡◌, ◌<◌, ◌≤◌, length, is_some, option_map, option_copied, IfOk, OnOk, OnSome};
ghost use Rattle.pl_types.specs.declared.refusal.Fail.TheVariants.{NoMemory};
ghost use Rattle.script_store.specs.Script.{script, script_of};
ghost use Rattle.script_store.specs.Compiling.{Accepts, Faults, WithMemory};
ghost use Rattle.script_store.specs.Cache.{fault_in, is_ready};
ghost use Rattle.script_store.specs.Store.{store, opened, script_under, after_put, after_delete, after_script, IsGiven};

use crate::cache::ScriptCache;
use crate::compiler::Compiler;
use crate::kind::ServeKind;
use crate::stored::Stored;
use pl_types::Fail;
use std::alloc::{AllocError, Global};
use std::collections::BTreeMap;
use std::marker::Model;
use std::num::NonZeroUsize;

/// Scripts under ids, with a cache of what they are compiled to.
///
/// Behind want of memory it is of no use any more: what it has then is not said.
#[derive(Drop)]
pub struct ScriptStore<C: Compiler + Drop> {
    alloc: Global,
    stored: BTreeMap<String, Stored>,
    cache: ScriptCache<C>,
}

impl<C: Compiler + Drop> Model for ScriptStore<C> {
    ghost use Rattle.script_store.specs.Store.{Store, store, stored_of, AllAccepted};

    ghost Value = { Store C };

    ghost view = { λ s. store s.cache.compiler (record { stored = stored_of s.stored.entries; cache = s.cache.cache }) };

    ghost invariant = { λ s. AllAccepted (C.compiled s.cache.compiler) (stored_of s.stored.entries) };
}

impl<C: Compiler + Drop> ScriptStore<C> {
    /// A store with nothing in it, and with room for so many compiled scripts.
    pub fn new(alloc: Global, compiler: C, capacity: u32) -> Result<Self, AllocError>
        requires some { 0 < capacity }
        requires few { capacity ≤ 1000 }
        ensures { IfOk result (λ s. s ≡ store compiler (opened capacity (C.calls compiler))) }
    {
        let room = NonZeroUsize::new(capacity as usize).unwrap();
        let cache = ScriptCache::new(alloc, compiler, room)?;
        Ok(ScriptStore {
            alloc,
            stored: BTreeMap::new(alloc),
            cache,
        })
    }

    /// Stores a script under an id, in the place of an older one.
    ///
    /// # Errors
    ///
    /// Refused where the script is, as it is compiled: what is stored stays. `NoMemory`.
    pub fn put(&mut self, id: &str, kind: ServeKind, source: &str) -> Result<(), Fail>
        ensures compiled { C.compiled self.new.compiler ≡ C.compiled self.old.compiler }
        ensures accepts { Accepts (C.compiled self.old.compiler (script kind source.now)) result }
        ensures faults { Faults (fault_in (C.compiled self.old.compiler (script kind source.now)) (script kind source.now) self.old.state.cache) result }
        ensures next { WithMemory result (self.new.state ≡ after_put (C.compiled self.old.compiler (script kind source.now)) id.now (script kind source.now) self.old.state) }
    {
        let script = Stored::new(self.alloc, kind, source)?;
        self.cache.look_up(self.alloc, &script)?;
        let id = String::from_str(self.alloc, id)?;
        self.stored.insert(id, script)?;
        Ok(())
    }

    /// The script under an id. `None` where nothing is stored under it.
    pub fn get(&self, id: &str) -> Option<&Stored>
        ensures { option_map script_of (option_copied result) ≡ script_under id.now self.now.state.stored }
    {
        self.stored.get(id)
    }

    /// Takes out what is stored under an id, and says whether there was something. What it was compiled to stays in the cache.
    pub fn delete(&mut self, id: &str) -> bool
        ensures found { result ≡ is_some (script_under id.now self.old.state.stored) }
        ensures compiler { self.new.compiler ≡ self.old.compiler }
        ensures next { self.new.state ≡ after_delete id.now self.old.state }
    {
        self.stored.remove(id).is_some()
    }

    /// Looks up the script under an id, which then lies compiled in the cache, where `compiled_script` finds it. The answer says
    /// whether something is stored under the id.
    ///
    /// # Errors
    ///
    /// Want of memory alone, since each script that is stored was accepted.
    pub fn look_up(&mut self, id: &str) -> Result<bool, AllocError>
        ensures compiled { C.compiled self.new.compiler ≡ C.compiled self.old.compiler }
        ensures found { IfOk result (λ found. found ≡ is_some (script_under id.now self.old.state.stored)) }
        ensures ready { IfOk result (λ found. found ≡ is_ready (script_under id.now self.new.state.stored) self.new.state.cache) }
        ensures next { OnOk result (self.new.state ≡ after_script (C.compiled self.old.compiler) id.now self.old.state) }
    {
        let Some(script) = self.stored.get(id) else {
            return Ok(false);
        };
        if let Err(fail) = self.cache.look_up(self.alloc, script) {
            return Err(memory_alone(fail));
        }
        Ok(true)
    }

    /// What the script under an id is compiled to. `None` where nothing is stored under the id, or where it does not lie in the cache.
    pub fn compiled_script(&self, id: &str) -> Option<&C::Out>
        ensures there { is_some result ≡ is_ready (script_under id.now self.now.state.stored) self.now.state.cache }
        ensures means { OnSome result (IsGiven C.means (C.compiled self.now.compiler) (script_under id.now self.now.state.stored) (option_copied result)) }
    {
        let script = self.stored.get(id)?;
        self.cache.script(script)
    }

    /// Looks up the script under an id, and gives what it is compiled to. `None` where nothing is stored under the id.
    ///
    /// What the store is afterwards is that of `look_up`, with which it begins.
    ///
    /// # Errors
    ///
    /// Want of memory alone, since each script that is stored was accepted.
    pub fn script(&mut self, id: &str) -> Result<Option<&C::Out>, AllocError>
        ensures { IfOk result (λ given. IsGiven C.means (C.compiled self.old.compiler) (script_under id.now self.old.state.stored) (option_copied given)) }
    {
        if !self.look_up(id)? {
            return Ok(None);
        }
        Ok(self.compiled_script(id))
    }

    /// How often a look-up found its script compiled. The count stands still at 2^64 - 1.
    pub fn hits(&self) -> u64
        ensures { result ≡ self.now.state.cache.hits }
    {
        self.cache.hits()
    }

    /// How often a look-up had its script compiled. The count stands still at 2^64 - 1.
    pub fn misses(&self) -> u64
        ensures { result ≡ self.now.state.cache.misses }
    {
        self.cache.misses()
    }

    /// How many scripts are stored.
    pub fn stored(&self) -> u64
        ensures { result ≡ length self.now.state.stored }
    {
        self.stored.len() as u64
    }
}

/// Why an accepted script is not compiled: for want of memory alone.
fn memory_alone(fail: Fail) -> AllocError
    requires { fail ≡ NoMemory }
{
    match fail {
        Fail::NoMemory => AllocError,
        Fail::Refused(_) => unreachable!(),
    }
}
