//! What holds of all commands.

ghost use Rattle.script_store.specs.Commands.{CacheIsUnseen, KeysFit};

use crate::compiler::Compiler;

/// The answers to any commands but those that tell the counts are the answers where each script is compiled anew, and the cache
/// never has a key twice nor more keys than it has room for.
pub fn cache_is_unseen<C: Compiler>()
    ensures unseen { (compiler : C) → CacheIsUnseen (C.compiled compiler) }
    ensures fit { (compiler : C) → KeysFit (C.compiled compiler) }
{}
