//! What is counted of the answers, and its line.

ghost use Rattle.std.specs.Prelude.{◌≡◌, ◌+◌, ◌<◌, ◌^◌, List, IfOk, string_bytes};
ghost use Rattle.serde_json.specs.View.{view};
ghost use Rattle.object_values.specs.declared.value.Value.{Value as ScriptValue};
ghost use Rattle.job_loading.specs.Replies.{line_of};
ghost use Rattle.document_replies.specs.Jobs.{by_start};
ghost use Rattle.document_replies.specs.Searches.{HasArguments, documents_of};
ghost use Rattle.job_commands.specs.Preparing.{EndsAsItsProgram, TakesThem};
ghost use Rattle.job_commands.specs.Answers.{IsAnswer};
ghost use Rattle.job_commands.specs.Summaries.{counted, nothing_counted, summary, with_value};
ghost use Rattle.job_commands.specs.Generated.{IsTally};

use crate::answer::{Answer, answer_to};
use crate::generator::following;
use crate::script::LimitedScript;
use arithmetic::long::sum;
use document_replies::{DocumentJob, DocumentScript, SearchContext, line_of};
use serde_json::{Value as Json, json};
use std::alloc::{AllocError, Global};

/// What is counted of the answers.
#[derive(Clone, Copy)]
pub(crate) struct Tally {
    /// How many runs gave no whole number.
    pub(crate) errors: u64,
    /// How many gave one.
    pub(crate) ok: u64,
    /// The sum of these numbers, as a script adds numbers of type long.
    pub(crate) sum: i64,
    /// How many instructions were run for all, as far as 64 bits count them.
    pub(crate) steps: u64,
}

/// No answer.
fn nothing_counted() -> Tally
    ensures { result ≡ nothing_counted }
{
    Tally {
        errors: 0,
        ok: 0,
        sum: 0,
        steps: 0,
    }
}

/// With one result more, or one error.
fn with_value(value: Option<i64>, tally: Tally) -> Tally
    requires { tally.errors + tally.ok < 2 ^ 32 }
    ensures { result ≡ with_value value tally }
{
    match value {
        Some(value) => Tally {
            ok: tally.ok + 1,
            sum: sum(tally.sum, value),
            ..tally
        },
        None => Tally {
            errors: tally.errors + 1,
            ..tally
        },
    }
}

/// With one answer more.
fn counted(answer: Answer, tally: Tally) -> Tally
    requires { tally.errors + tally.ok < 2 ^ 32 }
    ensures { result ≡ counted answer tally }
{
    let tally = with_value(answer.value, tally);
    Tally {
        steps: tally.steps.saturating_add(answer.steps),
        ..tally
    }
}

/// What is counted of the answers of a job to so many documents.
pub(crate) fn tally_of(
    job: &DocumentJob<SearchContext, LimitedScript>,
    count: u32,
) -> Result<Tally, AllocError>
    requires { (args : List ScriptValue) → HasArguments job.now.context.kind args → TakesThem job.now.script args }
    ensures { IfOk result (IsTally (IsAnswer (documents_of job.now.context) (by_start (EndsAsItsProgram job.now.script))) count) }
{
    let mut memory = job.script.memory(job.alloc);
    let mut number = 0;
    let mut tally = nothing_counted();
    'documents: for _made in 0..count {
        number = following(number);
        let answer = answer_to(job, number, &mut memory)?;
        tally = counted(answer, tally);
    }
    Ok(tally)
}

/// The summary of so many documents.
fn summary(alloc: Global, count: u32, tally: Tally) -> Result<Json, AllocError>
    ensures { IfOk result (λ json. view json ≡ summary count tally) }
{
    json!(in alloc; {"docs": count, "errors": tally.errors, "ok": tally.ok, "sum": tally.sum})
}

/// Its line.
pub(crate) fn summary_line(alloc: Global, count: u32, tally: Tally) -> Result<String, AllocError>
    ensures { IfOk result (λ line. string_bytes line ≡ line_of (summary count tally)) }
{
    let json = summary(alloc, count, tally)?;
    line_of(alloc, &json)
}
