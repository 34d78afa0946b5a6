//! What runs the scripts of shards.

ghost use Rattle.std.specs.Prelude.{◌≡◌, ℕ, List, Option, Some, IfOk};
ghost use Rattle.object_heap.specs.Store.{Store};
ghost use Rattle.object_heap.specs.declared.outcome.Outcome.{Outcome as Left};
ghost use Rattle.object_values.specs.declared.value.Value.{Value as ScriptValue};
ghost use Rattle.metric_ctx.specs.declared.phase.Phase.{Phase as Script};
ghost use Rattle.metric_ctx.specs.Scripts.{Advances, AreArguments};

use crate::phase::Phase;
use object_heap::{Heap, Outcome};
use object_values::Value;
use std::alloc::{AllocError, Global};

/// How a turn of a run ended.
#[derive(Clone, Copy, Debug, PartialEq, Eq)]
pub enum Advance {
    /// The instructions of this turn were run, and more are left.
    More,
    /// The run has ended, with so many instructions in this turn.
    Done(u64),
    /// Want of memory.
    NoMemory,
}

/// What a run leaves that has ended, and its memory for the next one.
#[derive(Drop)]
pub struct FinishedScript<M> {
    pub outcome: Outcome,
    pub memory: M,
}

/// The scripts that each shard runs, with their limits but for the room, which is the heap's. A run takes turns, and comes to an end
/// of its own however its instructions are cut into them.
pub trait ShardScripts {
    /// A run that was begun.
    type Run: Drop;

    /// The memory that is kept from one run to the next. What lies in it changes no run.
    type Memory: Drop;

    /// The run of a script that begins over a store, on some arguments.
    ghost begun: { Self → Script → Store → List ScriptValue → Self.Run };

    /// How many instructions of a run are left.
    ghost rest: { Self.Run → ℕ };

    /// What a run comes to when it is run alone. After want of memory there is nothing.
    ghost ending: { Self.Run → Option Left };

    /// The memory for the first run.
    fn memory(&self, alloc: Global) -> Self::Memory;

    /// Begins a run of a script over a heap, on the values of its variables.
    ///
    /// # Errors
    ///
    /// Want of memory.
    fn start(
        &self,
        phase: Phase,
        memory: Self::Memory,
        heap: Heap,
        args: Vec<Value>,
    ) -> Result<Self::Run, AllocError>
        requires { AreArguments phase args.items }
        ensures { IfOk result (λ run. run ≡ begun self.now phase heap args.items) };

    /// Runs the next `q` instructions of a run, or those that are left where they are fewer. With none it only says whether the run has
    /// ended.
    fn advance(&self, run: &mut Self::Run, q: u64) -> Advance
        ensures { Advances rest ending q run.old run.new result };

    /// What a run leaves that has ended.
    ///
    /// # Errors
    ///
    /// Want of memory.
    fn finish(&self, run: Self::Run) -> Result<FinishedScript<Self::Memory>, AllocError>
        requires { rest run ≡ 0 }
        ensures { IfOk result (λ left. ending run ≡ Some left.outcome) };
}
