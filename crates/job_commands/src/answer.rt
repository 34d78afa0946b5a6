//! What a run over a document comes to.

ghost use Rattle.std.specs.Prelude.{◌≡◌, List, IfOk, Ok};
ghost use Rattle.std.specs.Int.{to_le_bytes, w32};
ghost use Rattle.object_values.specs.Seeds.{seed_with};
ghost use Rattle.object_values.specs.declared.value.Value.{Value as ScriptValue};
ghost use Rattle.document_replies.specs.Starts.{start_view};
ghost use Rattle.document_replies.specs.Jobs.{by_start, ended_of};
ghost use Rattle.document_replies.specs.Searches.{HasArguments, documents_of};
ghost use Rattle.job_commands.specs.Preparing.{EndsAsItsProgram, TakesThem};
ghost use Rattle.job_commands.specs.Answers.{IsAnswer, IsAnswerTo, answer_of, given_by, no_answer, whole_of};

use crate::generator::document_of;
use crate::script::LimitedScript;
use document_replies::{DocumentJob, DocumentScript, SearchContext};
use object_heap::{End, Outcome};
use object_values::{Seed, Value};
use script_engine::RunMemory;
use search_ctx::{BindErr, Bound, bind_document};
use std::alloc::AllocError;

/// What a run over a document comes to.
#[derive(Clone, Copy)]
pub(crate) struct Answer {
    /// The whole number that it gives, if it gives one.
    pub(crate) value: Option<i64>,
    /// How many instructions were run.
    pub(crate) steps: u64,
}

/// The whole number that a value is.
fn whole_of(value: &Value) -> Option<i64>
    ensures { result ≡ whole_of value.now }
{
    match value {
        Value::Int(number) => Some(i64::from(*number)),
        Value::Long(number) => Some(*number),
        Value::Null
        | Value::Bool(_)
        | Value::Byte(_)
        | Value::Short(_)
        | Value::Char(_)
        | Value::Str(_)
        | Value::Ref(_) => None,
    }
}

/// The whole number with which a run ends.
fn given_by(end: &End) -> Option<i64>
    ensures { result ≡ given_by end.now }
{
    match end {
        End::Value(value) => whole_of(value),
        End::Thrown { .. } | End::Limit { .. } => None,
    }
}

/// What a run comes to.
fn answer_of(outcome: &Outcome) -> Answer
    ensures { result ≡ answer_of (ended_of outcome.now) }
{
    Answer {
        value: given_by(&outcome.end),
        steps: outcome.steps,
    }
}

/// What a run over a document that is bound comes to.
fn answer_to_bound(
    script: &LimitedScript,
    bound: Bound,
    memory: &mut RunMemory,
) -> Result<Answer, AllocError>
    requires { TakesThem script.now bound.args }
    ensures { IfOk result (IsAnswerTo (by_start (EndsAsItsProgram script.now)) (Ok (start_view bound))) }
{
    let (heap, args) = bound.into_parts();
    let outcome = script.run(memory, heap, args.into_vec())?;
    Ok(answer_of(&outcome))
}

/// From what the heap of the run over the document of a number is made, which changes no answer.
fn seed_at(seed: Seed, number: u32) -> Seed
    ensures { result ≡ seed_with seed (to_le_bytes w32 number) }
{
    seed.with(&number.to_le_bytes())
}

/// What the run of a job over the document of a number comes to.
pub(crate) fn answer_to(
    job: &DocumentJob<SearchContext, LimitedScript>,
    number: u32,
    memory: &mut RunMemory,
) -> Result<Answer, AllocError>
    requires { (args : List ScriptValue) → HasArguments job.now.context.kind args → TakesThem job.now.script args }
    ensures { IfOk result (IsAnswer (documents_of job.now.context) (by_start (EndsAsItsProgram job.now.script)) number) }
{
    let context = &job.context;
    let document = document_of(context.alloc, number)?;
    match bind_document(
        context.alloc,
        context.kind,
        &context.fields,
        &context.params,
        &document,
        context.room,
        seed_at(context.seed, number),
    ) {
        Ok(bound) => answer_to_bound(&job.script, bound, memory),
        Err(BindErr::Syntax | BindErr::Number | BindErr::Field) => Ok(Answer {
            value: None,
            steps: 0,
        }),
        Err(BindErr::NoMemory) => Err(AllocError),
    }
}
