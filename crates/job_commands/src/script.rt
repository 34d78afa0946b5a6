//! A script with its limits.

ghost use Rattle.job_commands.specs.Preparing.{EndsAsItsProgram, TakesThem};

use document_replies::DocumentScript;
use job_loading::Allow;
use object_heap::{Heap, Outcome};
use object_values::Value;
use script_engine::{Limits, RunMemory, Script, ScriptRun};
use std::alloc::{AllocError, Global};
use std::mem;

/// A script with its limits but for the room.
pub struct LimitedScript {
    pub script: Script,
    pub limits: Limits,
}

impl Drop for LimitedScript {
    fn drop(self) {
        let LimitedScript {
            script: _script,
            limits: _,
        } = self;
    }
}

impl DocumentScript for LimitedScript {
    type Memory = RunMemory;

    ghost takes = { λ s args. TakesThem s args };

    ghost list = { λ s. s.script.executable.allow };

    ghost ends = { λ s store args ran. EndsAsItsProgram s store args ran };

    fn allow(&self) -> &Allow {
        self.script.allow()
    }

    fn memory(&self, alloc: Global) -> RunMemory {
        RunMemory::new(alloc)
    }

    fn run(
        &self,
        memory: &mut RunMemory,
        heap: Heap,
        args: Vec<Value>,
    ) -> Result<Outcome, AllocError> {
        let kept = mem::replace(memory, RunMemory::new(heap.alloc()));
        let ran = self.script.run_in(kept, heap, args, self.limits)?;
        let ScriptRun {
            outcome,
            memory: left,
        } = ran;
        *memory = left;
        Ok(outcome)
    }
}
