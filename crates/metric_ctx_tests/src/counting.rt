//! Scripts that only count their instructions.

ghost use Rattle.std.specs.Prelude.{◌≡◌, Some, length};
ghost use Rattle.metric_ctx_tests.specs.Counting.{count_value, end_over, instructions, outcome_of};

use metric_ctx::{Advance, FinishedScript, Phase, ShardScripts};
use object_heap::{End, Heap, Outcome, Which};
use object_values::{Elements, Value};
use std::alloc::{AllocError, Global};

/// Scripts of shards. `init` has three instructions, `map` two and `combine` one, which gives how many objects there are.
#[derive(Drop)]
pub struct Counting {
    /// Over so many objects `map` passes a limit.
    pub fails_at: usize,
}

/// A run that counts its instructions down, with what it will leave.
#[derive(Drop)]
pub struct CountingRun {
    left: u64,
    outcome: Outcome,
}

/// Nothing is kept from one run to the next.
#[derive(Drop)]
pub struct Nothing;

/// How many instructions a script has.
fn instructions(phase: Phase) -> u64
    ensures { result ≡ instructions phase }
{
    match phase {
        Phase::Init => 3,
        Phase::Map => 2,
        Phase::Combine => 1,
    }
}

/// A count of objects as a value.
fn count_value(count: usize) -> Value
    ensures { result ≡ count_value count }
{
    if count < 1000 {
        Value::Int(count as i32)
    } else {
        Value::Null
    }
}

/// How a run over so many objects ends.
fn end_over(fails_at: usize, phase: Phase, count: usize) -> End
    ensures { result ≡ end_over fails_at phase count }
{
    match phase {
        Phase::Init => End::Value(Value::Null),
        Phase::Map => if count == fails_at {
            End::Limit {
                limit: Which::Ticks,
                place: None,
            }
        } else {
            End::Value(Value::Null)
        },
        Phase::Combine => End::Value(count_value(count)),
    }
}

/// What a run leaves.
fn outcome_of(steps: u64, end: End, heap: Heap) -> Outcome
    ensures { result ≡ outcome_of steps end heap }
{
    let reached = Elements::new(heap.alloc());
    Outcome {
        end,
        heap,
        ticks: 0,
        steps,
        reached,
    }
}

impl ShardScripts for Counting {
    type Run = CountingRun;

    type Memory = Nothing;

    ghost begun = { λ it phase store _. record { left = instructions phase; outcome = outcome_of (instructions phase) (end_over it.fails_at phase (length store.objects)) store } };

    ghost rest = { λ run. run.left };

    ghost ending = { λ run. Some run.outcome };

    fn memory(&self, _alloc: Global) -> Nothing {
        Nothing
    }

    fn start(
        &self,
        phase: Phase,
        _memory: Nothing,
        heap: Heap,
        _args: Vec<Value>,
    ) -> Result<CountingRun, AllocError> {
        let left = instructions(phase);
        let end = end_over(self.fails_at, phase, heap.len());
        let outcome = outcome_of(left, end, heap);
        Ok(CountingRun { left, outcome })
    }

    fn advance(&self, run: &mut CountingRun, q: u64) -> Advance {
        if q < run.left {
            run.left -= q;
            return Advance::More;
        }
        let taken = run.left;
        run.left = 0;
        Advance::Done(taken)
    }

    fn finish(&self, run: CountingRun) -> Result<FinishedScript<Nothing>, AllocError> {
        let CountingRun { left: _, outcome } = run;
        Ok(FinishedScript {
            outcome,
            memory: Nothing,
        })
    }
}
