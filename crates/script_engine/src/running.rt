//! Runs of scripts.

ghost use Rattle.std.specs.List.{list_all};
ghost use Rattle.std.specs.Prelude.{◌≡◌, ◌≤◌, IfOk, IsOk, List, Some, length, slice_get, true};
ghost use Rattle.static_types.specs.Allow.{flag};
ghost use Rattle.compiled_runs.specs.Bounds.{most_steps};
ghost use Rattle.object_heap.specs.Fits.{AllFit};
ghost use Rattle.object_values.specs.declared.object.Object.{Object};
ghost use Rattle.verified_machine.specs.CodeRules.{FitsCode, rules_of_codes};
ghost use Rattle.verified_machine.specs.Fitting.{NowFits};
ghost use Rattle.verified_machine.specs.Code.{codes_in};
ghost use Rattle.script_engine.specs.Seen.{limits_of};
ghost use Rattle.script_engine.specs.Codes.{Counts, functions_in, script_codes};
ghost use Rattle.script_engine.specs.Fitting.{KeepsItsProgram, LeavesFit};
ghost use Rattle.script_engine.specs.Typed.{GivesTyped};
ghost use Rattle.verified_machine.specs.Rows.{HaveRows};
ghost use Rattle.verified_machine.specs.Tasks.{ending, SparesMemory};
ghost use Rattle.script_engine.specs.Running.{RunsAsItsProgram, LeftOf, Comes, IsEnd, TakesArguments, begun, value_of, word_in, words_in, world_at, end_left, params_of};

use crate::compiling::Script;
use compiled_outcome::programs_end;
use object_heap::{End, Heap, Outcome};
use object_values::{Elements, Value};
use pl_code::{Code, Slot};
use pl_types::Ty;
use std::alloc::{AllocError, Global};
use verified_machine::{FinishedRun, Limits, RunMemory, VerifiedActivation, Word, boxed, unboxed};

/// The word of an argument in a local of a kind.
fn word_in(kind: Slot, value: Value) -> Word
    ensures { result ≡ word_in kind value }
{
    match kind {
        Slot::R => Word::R(value),
        Slot::I => unboxed(value),
        Slot::J => unboxed(value),
    }
}

/// The words of arguments in locals of these kinds.
fn words_in(
    alloc: Global,
    kinds: &[Slot],
    mut args: Vec<Value>,
) -> Result<Elements<Word>, AllocError>
    ensures { IfOk result (λ words. words ≡ words_in kinds.now args.items) }
{
    let mut words = Elements::new(alloc);
    args.reverse();
    for kind in kinds {
        match args.pop() {
            Some(value) => words.push(word_in(*kind, value))?,
            None => return Ok(words),
        }
    }
    Ok(words)
}

/// The kinds of the main script's parameters.
fn params_of(code: &Code) -> &[Slot]
    ensures { result.now ≡ params_of (slice_get code.now.functions 0) }
{
    match code.functions.get(0) {
        Some(main) => main.params.as_slice(),
        None => &[],
    }
}

/// The value of a word that code of this result type gives.
fn value_of(of: &Ty, word: Option<Word>) -> Value
    ensures { result ≡ value_of of.now word }
{
    match (word, of) {
        (None, _) => Value::Null,
        (Some(word), Ty::Prim(primitive)) => boxed(*primitive, &word).unwrap_or(Value::Null),
        (Some(word), _) => word.into_value(),
    }
}

/// The end of a run that is not stuck, with its value.
fn end_left(of: &Ty, end: verified_machine::RunEnd) -> End
    requires { IsEnd end }
    ensures { end_left of.now end ≡ Some result }
{
    match &end {
        verified_machine::RunEnd::Thrown { id, place } => End::Thrown {
            id: *id,
            place: *place,
        },
        verified_machine::RunEnd::Limit { limit, place } => End::Limit {
            limit: *limit,
            place: *place,
        },
        verified_machine::RunEnd::Result(_) => End::Value(value_of(of, end.into_word())),
        verified_machine::RunEnd::Stuck => unreachable!(),
    }
}

/// What a run of code of this result type leaves.
fn outcome_left(of: &Ty, ran: verified_machine::RunOutcome) -> Outcome
    requires { IsEnd ran.end }
    ensures { LeftOf of.now ran result }
{
    let verified_machine::RunOutcome {
        end,
        heap,
        ticks,
        steps,
        reached,
    } = ran;
    Outcome {
        end: end_left(of, end),
        heap,
        ticks,
        steps,
        reached,
    }
}

/// What a run of a script leaves, and its memory for the next one.
#[derive(Drop)]
pub struct ScriptRun {
    pub outcome: Outcome,
    pub memory: RunMemory,
}

impl Script {
    /// A run of the script over a heap, whose room is what the run may take of it, on arguments, within limits. The arguments are the
    /// values of the context's variables, in their order.
    ///
    /// Memory is taken here for the frames of the run.
    ///
    /// # Errors
    ///
    /// Want of memory.
    pub fn start(
        &self,
        heap: Heap,
        args: Vec<Value>,
        limits: Limits,
    ) -> Result<VerifiedActivation<'_>, AllocError>
        requires rows { HaveRows self.now.executable.allow self.now.executable.code.functions }
        requires args { TakesArguments self.now args.items }
        ensures { IfOk result (λ a. a ≡ begun self.now heap args.items limits) }
    {
        let memory = RunMemory::new(heap.alloc());
        self.start_in(memory, heap, args, limits)
    }

    /// The same in the memory that an earlier run has left, which may have been of another script: only what it lacks is taken.
    ///
    /// # Errors
    ///
    /// Want of memory. The memory that was given is given back to the system then.
    pub fn start_in(
        &self,
        memory: RunMemory,
        heap: Heap,
        args: Vec<Value>,
        limits: Limits,
    ) -> Result<VerifiedActivation<'_>, AllocError>
        requires rows { HaveRows self.now.executable.allow self.now.executable.code.functions }
        requires args { TakesArguments self.now args.items }
        ensures { IfOk result (λ a. a ≡ begun self.now heap args.items limits) }
    {
        let words = words_in(heap.alloc(), params_of(self.executable.code()), args)?;
        VerifiedActivation::start_in(self.executable.verified(), memory, heap, words, limits)
    }

    /// Runs what [`Script::start`] began to its end.
    ///
    /// # Errors
    ///
    /// Want of memory; none where no instruction of the run takes any.
    pub fn finish(&self, activation: VerifiedActivation<'_>) -> Result<Outcome, AllocError>
        ensures comes { IfOk result (Comes self.now.result (ending activation.entry)) }
        // Where the start fits, so does what is left.
        ensures heap { (before : List Object) → NowFits (rules_of_codes (codes_in activation.entry.executable)) before activation.entry.now → IfOk result (LeavesFit (rules_of_codes (codes_in activation.entry.executable)) before) }
        // Members of the list alone were reached.
        ensures reaches { IfOk result (λ o. list_all (flag activation.entry.executable.script.allow.members) o.reached ≡ true) }
        ensures memory { SparesMemory activation.entry → IsOk result }
    {
        let ScriptRun {
            outcome,
            memory: _memory,
        } = self.finish_with_memory(activation)?;
        Ok(outcome)
    }

    /// The same, and the memory that the run had, for the next one.
    ///
    /// # Errors
    ///
    /// Want of memory.
    #[tactic(auto, using(crate::proofs::Left::fitting_end, crate::proofs::Left::comes_from))]
    pub fn finish_with_memory(
        &self,
        activation: VerifiedActivation<'_>,
    ) -> Result<ScriptRun, AllocError>
        ensures comes { IfOk result (λ ran. Comes self.now.result (ending activation.entry) ran.outcome) }
        ensures heap { (before : List Object) → NowFits (rules_of_codes (codes_in activation.entry.executable)) before activation.entry.now → IfOk result (λ ran. LeavesFit (rules_of_codes (codes_in activation.entry.executable)) before ran.outcome) }
        ensures reaches { IfOk result (λ ran. list_all (flag activation.entry.executable.script.allow.members) ran.outcome.reached ≡ true) }
        ensures memory { SparesMemory activation.entry → IsOk result }
    {
        let finished = activation.finish_with_memory()?;
        let FinishedRun { outcome, memory } = finished;
        Ok(ScriptRun {
            outcome: outcome_left(&self.result, outcome),
            memory,
        })
    }

    /// Runs the script: [`Script::start`], and then [`Script::finish`].
    ///
    /// The outcome is that of the script's program: how its run ends, what it leaves of the heap, and how many ticks it has paid. The
    /// value of a script without a result is null.
    ///
    /// # Errors
    ///
    /// Want of memory.
    pub fn run(&self, heap: Heap, args: Vec<Value>, limits: Limits) -> Result<Outcome, AllocError>
        requires rows { HaveRows self.now.executable.allow self.now.executable.code.functions }
        requires args { TakesArguments self.now args.items }
        ensures program { IfOk result (RunsAsItsProgram self.now heap args.items limits) }
        // Where the heap fits the codes of both texts, and the arguments fit, so do the heap and the end that are left. A number that is thrown is
        // an exception's, and each object is still there, of its kind and of its class, or with an interface that it has taken.
        ensures heap { FitsCode (functions_in (script_codes self.now)) heap → AllFit (length heap.objects) args.items → IfOk result (LeavesFit (rules_of_codes (functions_in (script_codes self.now))) heap.objects) }
        // The same of the heap that fits the script's program beside the prelude's.
        ensures keeps { IfOk result (KeepsItsProgram self.now heap args.items) }
        // And where each argument is of its variable's type in such a heap, the value that is given is of the result's type in what is left.
        ensures typed { IfOk result (GivesTyped self.now heap args.items) }
        // The instructions of the script's code, beside that of the prelude, are counted up to its end, as far as 64 bits count them.
        ensures counts { IfOk result (λ o. Counts (script_codes self.now) (limits_of limits self.now.executable.allow) args.items (world_at heap limits) o.steps) }
        // There are no more of them than ticks, depth and the longest function allow.
        ensures bound { IfOk result (λ o. o.steps ≤ most_steps (functions_in (script_codes self.now)) (limits_of limits self.now.executable.allow) limits.ticks) }
        // Members of the list alone were reached.
        ensures reaches { IfOk result (λ o. list_all (flag self.now.executable.allow.members) o.reached ≡ true) }
    {
        let memory = RunMemory::new(heap.alloc());
        let ScriptRun {
            outcome,
            memory: _memory,
        } = self.run_in(memory, heap, args, limits)?;
        Ok(outcome)
    }

    /// The same in the memory that an earlier run has left, which may have been of another script, and the memory for the next one. So
    /// many runs take memory for their frames once. The outcome does not depend on the memory.
    ///
    /// # Errors
    ///
    /// Want of memory. The memory that was given is given back to the system then.
    pub fn run_in(
        &self,
        memory: RunMemory,
        heap: Heap,
        args: Vec<Value>,
        limits: Limits,
    ) -> Result<ScriptRun, AllocError>
        requires rows { HaveRows self.now.executable.allow self.now.executable.code.functions }
        requires args { TakesArguments self.now args.items }
        ensures program { IfOk result (λ ran. RunsAsItsProgram self.now heap args.items limits ran.outcome) }
        // As of [`Script::run`].
        ensures heap { FitsCode (functions_in (script_codes self.now)) heap → AllFit (length heap.objects) args.items → IfOk result (λ ran. LeavesFit (rules_of_codes (functions_in (script_codes self.now))) heap.objects ran.outcome) }
        ensures keeps { IfOk result (λ ran. KeepsItsProgram self.now heap args.items ran.outcome) }
        ensures typed { IfOk result (λ ran. GivesTyped self.now heap args.items ran.outcome) }
        ensures counts { IfOk result (λ ran. Counts (script_codes self.now) (limits_of limits self.now.executable.allow) args.items (world_at heap limits) ran.outcome.steps) }
        ensures bound { IfOk result (λ ran. ran.outcome.steps ≤ most_steps (functions_in (script_codes self.now)) (limits_of limits self.now.executable.allow) limits.ticks) }
        ensures reaches { IfOk result (λ ran. list_all (flag self.now.executable.allow.members) ran.outcome.reached ≡ true) }
    {
        programs_end();
        let activation = self.start_in(memory, heap, args, limits)?;
        self.finish_with_memory(activation)
    }
}
