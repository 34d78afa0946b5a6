//! Scripts that are run over documents.

ghost use Rattle.std.specs.Prelude.{◌≡◌, true, List, IfOk};
ghost use Rattle.std.specs.List.{list_all};
ghost use Rattle.allowlist.specs.Allow.{AllowList, flag};
ghost use Rattle.object_heap.specs.Store.{Store};
ghost use Rattle.object_values.specs.declared.value.Value.{Value as ScriptValue};
ghost use Rattle.document_replies.specs.Jobs.{ended_of};
ghost use Rattle.document_replies.specs.Replies.{Ended};

use allowlist::Allow;
use object_heap::{Heap, Outcome};
use object_values::Value;
use std::alloc::{AllocError, Global};

/// A script with its limits but for the room, which is the heap's.
pub trait DocumentScript {
    /// The memory that is kept from one run to the next. What lies in it changes no run.
    type Memory: Drop;

    /// Which arguments it takes.
    ghost takes: { Self → List ScriptValue → Type 0 };

    /// The list of what it may call.
    ghost list: { Self → AllowList };

    /// What a run leaves that begins with a store and with arguments.
    ghost ends: { Self → Store → List ScriptValue → Ended → Type 0 };

    /// That list.
    fn allow(&self) -> &Allow
        ensures { result.now ≡ list self.now };

    /// The memory for the first run.
    fn memory(&self, alloc: Global) -> Self::Memory;

    /// A run over a heap on some arguments.
    fn run(
        &self,
        memory: &mut Self::Memory,
        heap: Heap,
        args: Vec<Value>,
    ) -> Result<Outcome, AllocError>
        requires { takes self.now args.items }
        ensures ends { IfOk result (λ outcome. ends self.now heap args.items (ended_of outcome)) }
        // It calls members of the list alone.
        ensures reaches { IfOk result (λ outcome. list_all (flag (list self.now).members) outcome.reached ≡ true) };
}
