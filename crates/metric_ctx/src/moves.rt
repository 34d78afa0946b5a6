//! How a shard goes on: its run takes instructions, and where it has ended the next one begins.

ghost use Rattle.std.specs.Prelude.{◌≡◌, ◌<◌, ◌+◌, ◌++◌, ℕ, Option, Some, IfOk, length, option_to_list};
ghost use Rattle.object_heap.specs.declared.outcome.Outcome.{Outcome as Left};
ghost use Rattle.metric_ctx.specs.declared.phase.Phase.TheVariants as p;
ghost use Rattle.metric_ctx.specs.Scripts.{arguments, comes_by};
ghost use Rattle.metric_ctx.specs.Shards.{behind, behind_phase, doc_arguments, from_docs, ground, is_value, with_doc, with_steps};
ghost use Rattle.metric_ctx.specs.Standing.{Goes, Reaches, ended, ending_in, has_ended, place, rest_in, runs, runs_behind, standing_by};
ghost use Rattle.task_core.specs.Turns.{Turns};

use crate::phase::Phase;
use crate::scripts::{Advance, FinishedScript, ShardScripts};
use crate::standing::{Standing, Went};
use object_heap::{End, Heap, Outcome};
use object_values::Value;
use search_ctx::{FieldDoc, Fields, place_doc};
use std::alloc::{AllocError, Global};
use std::collections::VecDeque;
use std::mem;
use task_core::Turn;

/// The number of the object that is the state of a shard.
const STATE: u32 = 0;

/// What all runs of a shard stand on.
pub(crate) struct Ground<'a, S> {
    pub(crate) scripts: &'a S,
    pub(crate) fields: &'a Fields,
    /// The number of the object that the params are.
    pub(crate) params: u32,
    /// The room of each run.
    pub(crate) room: u64,
}

impl<'a, S> Drop for Ground<'a, S> {
    fn drop(self) {
        let Ground {
            scripts: _,
            fields: _,
            params: _,
            room: _,
        } = self;
    }
}

/// The values of a script's variables: the state and the params, and of `map` a document.
pub(crate) fn args_of(
    alloc: Global,
    params: u32,
    doc: Option<Value>,
) -> Result<Vec<Value>, AllocError>
    ensures { IfOk result (λ args. args.items ≡ arguments params ++ option_to_list doc) }
{
    let mut args = Vec::with_capacity(alloc, 3)?;
    args.push(Value::Ref(STATE))?;
    args.push(Value::Ref(params))?;
    if let Some(doc) = doc {
        args.push(doc)?;
    }
    Ok(args)
}

/// Begins `map` over a document.
fn begin_map<S: ShardScripts>(
    on: &Ground<'_, S>,
    mut heap: Heap,
    memory: S::Memory,
    doc: &FieldDoc,
) -> Result<Standing<S::Run>, AllocError>
    ensures { IfOk result (λ next. standing_by S.rest S.ending next ≡ runs p.Map (comes_by S.begun S.rest S.ending on.now.scripts.now p.Map
        (with_doc (ground on.now.fields.now on.now.params on.now.room) doc.now heap) (doc_arguments (ground on.now.fields.now on.now.params on.now.room) doc.now heap))) }
{
    let doc = place_doc(&mut heap, on.fields, doc)?;
    let args = args_of(heap.alloc(), on.params, Some(doc))?;
    let run = on.scripts.start(Phase::Map, memory, heap, args)?;
    Ok(Standing::Runs(Phase::Map, run))
}

/// Begins `combine`.
fn begin_combine<S: ShardScripts>(
    on: &Ground<'_, S>,
    heap: Heap,
    memory: S::Memory,
) -> Result<Standing<S::Run>, AllocError>
    ensures { IfOk result (λ next. standing_by S.rest S.ending next ≡ runs p.Combine (comes_by S.begun S.rest S.ending on.now.scripts.now p.Combine heap (arguments on.now.params))) }
{
    let args = args_of(heap.alloc(), on.params, None)?;
    let run = on.scripts.start(Phase::Combine, memory, heap, args)?;
    Ok(Standing::Runs(Phase::Combine, run))
}

/// Begins the script that comes next over the heap that the last one has left: `map` over the next document, or `combine` where there
/// is none. Room is given anew, and the lambdas of the script that has ended are gone.
fn begin_next<S: ShardScripts>(
    on: &Ground<'_, S>,
    docs: &mut VecDeque<FieldDoc>,
    mut heap: Heap,
    memory: S::Memory,
) -> Result<Standing<S::Run>, AllocError>
    ensures { IfOk result (λ next. (steps : ℕ) → Reaches (place (comes_by S.begun S.rest S.ending on.now.scripts.now) (ground on.now.fields.now on.now.params on.now.room) docs.new.items steps (standing_by S.rest S.ending next))
        (from_docs (comes_by S.begun S.rest S.ending on.now.scripts.now) (ground on.now.fields.now on.now.params on.now.room) docs.old.items steps heap) (length docs.old.items + 1)) }
{
    heap.refill(on.room);
    match docs.pop_front() {
        Some(doc) => begin_map(on, heap, memory, &doc),
        None => begin_combine(on, heap, memory),
    }
}

/// Whether an end is a value.
fn is_value(end: &End) -> bool
    ensures { result ≡ is_value end.now }
{
    matches!(end, End::Value(_))
}

/// A shard that has ended, with the instructions of all its runs.
fn ended<R>(steps: u64, outcome: Outcome) -> Standing<R>
    ensures { (rest : R → ℕ) (ending : R → Option Left) → standing_by rest ending result ≡ ended (with_steps steps outcome) }
{
    let Outcome {
        end,
        heap,
        ticks,
        steps: taken,
        reached,
    } = outcome;
    Standing::Ended(Outcome {
        end,
        heap,
        ticks,
        steps: steps.saturating_add(taken),
        reached,
    })
}

/// What comes behind a run of `init` or `map` that has left this.
fn follow<S: ShardScripts>(
    on: &Ground<'_, S>,
    docs: &mut VecDeque<FieldDoc>,
    steps: &mut u64,
    outcome: Outcome,
    memory: S::Memory,
) -> Result<Standing<S::Run>, AllocError>
    ensures { IfOk result (λ next. Reaches (place (comes_by S.begun S.rest S.ending on.now.scripts.now) (ground on.now.fields.now on.now.params on.now.room) docs.new.items steps.new (standing_by S.rest S.ending next))
        (behind (from_docs (comes_by S.begun S.rest S.ending on.now.scripts.now) (ground on.now.fields.now on.now.params on.now.room) docs.old.items) steps.old (Some outcome)) (length docs.old.items + 1)) }
{
    if !is_value(&outcome.end) {
        return Ok(ended(*steps, outcome));
    }
    let Outcome {
        end: _end,
        heap,
        ticks: _,
        steps: taken,
        reached: _reached,
    } = outcome;
    *steps = steps.saturating_add(taken);
    begin_next(on, docs, heap, memory)
}

/// Ends a run of a script, and begins what comes behind it.
fn end_run<S: ShardScripts>(
    on: &Ground<'_, S>,
    docs: &mut VecDeque<FieldDoc>,
    steps: &mut u64,
    phase: Phase,
    run: S::Run,
) -> Result<Standing<S::Run>, AllocError>
    requires { S.rest run ≡ 0 }
    ensures { IfOk result (λ next. Reaches (place (comes_by S.begun S.rest S.ending on.now.scripts.now) (ground on.now.fields.now on.now.params on.now.room) docs.new.items steps.new (standing_by S.rest S.ending next))
        (behind_phase (comes_by S.begun S.rest S.ending on.now.scripts.now) (ground on.now.fields.now on.now.params on.now.room) docs.old.items steps.old phase (S.ending run)) (runs_behind docs.old.items phase)) }
{
    let FinishedScript { outcome, memory } = on.scripts.finish(run)?;
    match phase {
        Phase::Init | Phase::Map => follow(on, docs, steps, outcome, memory),
        Phase::Combine => Ok(ended(*steps, outcome)),
    }
}

/// Whether a shard has ended.
pub(crate) fn has_ended<R>(standing: &Standing<R>) -> bool
    ensures { (rest : R → ℕ) (ending : R → Option Left) → result ≡ has_ended (standing_by rest ending standing.now) }
{
    matches!(standing, Standing::Ended(_))
}

/// Goes on in a run with so many instructions.
fn go_in<S: ShardScripts>(
    on: &Ground<'_, S>,
    docs: &mut VecDeque<FieldDoc>,
    steps: &mut u64,
    standing: &mut Standing<S::Run>,
    phase: Phase,
    mut run: S::Run,
    q: u64,
) -> Went
    ensures { Goes q (place (comes_by S.begun S.rest S.ending on.now.scripts.now) (ground on.now.fields.now on.now.params on.now.room) docs.old.items steps.old (runs phase (record { count = S.rest run; left = S.ending run })))
        (place (comes_by S.begun S.rest S.ending on.now.scripts.now) (ground on.now.fields.now on.now.params on.now.room) docs.new.items steps.new (standing_by S.rest S.ending standing.new)) result }
{
    let taken = match on.scripts.advance(&mut run, q) {
        Advance::Done(taken) => taken,
        Advance::More => {
            *standing = Standing::Runs(phase, run);
            return Went::More;
        }
        Advance::NoMemory => return Went::NoMemory,
    };
    let Ok(next) = end_run(on, docs, steps, phase, run) else {
        return Went::NoMemory;
    };
    *standing = next;
    if has_ended(standing) {
        Went::Done
    } else {
        Went::Next(q - taken)
    }
}

/// Goes on with so many instructions: to the end of a run at most.
fn go<S: ShardScripts>(
    on: &Ground<'_, S>,
    docs: &mut VecDeque<FieldDoc>,
    steps: &mut u64,
    standing: &mut Standing<S::Run>,
    q: u64,
) -> Went
    ensures { Goes q (place (comes_by S.begun S.rest S.ending on.now.scripts.now) (ground on.now.fields.now on.now.params on.now.room) docs.old.items steps.old (standing_by S.rest S.ending standing.old))
        (place (comes_by S.begun S.rest S.ending on.now.scripts.now) (ground on.now.fields.now on.now.params on.now.room) docs.new.items steps.new (standing_by S.rest S.ending standing.new)) result }
{
    match mem::replace(standing, Standing::Lost) {
        Standing::Runs(phase, run) => go_in(on, docs, steps, standing, phase, run, q),
        Standing::Ended(outcome) => {
            *standing = Standing::Ended(outcome);
            Went::Done
        }
        Standing::Lost => Went::NoMemory,
    }
}

/// Takes a turn of so many instructions, from one run into the next, or all that are left.
pub(crate) fn take_turn<S: ShardScripts>(
    on: &Ground<'_, S>,
    docs: &mut VecDeque<FieldDoc>,
    steps: &mut u64,
    standing: &mut Standing<S::Run>,
    q: u64,
) -> Turn
    requires { 0 < q }
    ensures { Turns rest_in ending_in q (place (comes_by S.begun S.rest S.ending on.now.scripts.now) (ground on.now.fields.now on.now.params on.now.room) docs.old.items steps.old (standing_by S.rest S.ending standing.old))
        (place (comes_by S.begun S.rest S.ending on.now.scripts.now) (ground on.now.fields.now on.now.params on.now.room) docs.new.items steps.new (standing_by S.rest S.ending standing.new)) result }
{
    let mut left = q;
    'moves: loop {
        match go(on, docs, steps, standing, left) {
            Went::More => return Turn::More,
            Went::Next(more) => left = more,
            Went::Done => return Turn::Done,
            Went::NoMemory => return Turn::NoMemory,
        }
    }
}
