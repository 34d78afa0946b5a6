//! The line that a run writes.

ghost use Rattle.std.specs.Prelude.{◌≡◌, ◌≤◌, IfOk, length, map, string_bytes};
ghost use Rattle.object_values.specs.declared.value.Value.{Value};
ghost use Rattle.run_state.specs.World.{End};
ghost use Rattle.script_engine.specs.Codes.{ScriptCodes};
ghost use Rattle.json_replies.specs.Replies.{line_of, refusal_of};
ghost use Rattle.command_parts.specs.Told.{file_limit, uncounted};
ghost use Rattle.eval_command.specs.Answers.{told_by};
ghost use Rattle.eval_command.specs.Codes.{AreCodesOf};
ghost use Rattle.eval_command.specs.Evaluation.{TellsScript, end_told, listings_of, status_of};
ghost use Rattle.eval_command.specs.Outcomes.{EndsSo};

use crate::script::{EvalRun, run_script};
use command_parts::{Report, Status};
use json_replies::{refusal_line, reply_line};
use pl_types::{Fail, Refusal};
use script_engine::script_laws;
use std::alloc::{AllocError, Global};

/// A line to write, and the report of the run once it is written.
#[derive(Drop)]
pub struct Answer {
    pub report: Report,
    pub line: String,
}

/// The status behind a reply.
fn status_of(is_error: bool) -> Status
    ensures { result ≡ status_of is_error }
{
    if is_error {
        Status::SomeErrors
    } else {
        Status::Done
    }
}

/// The reply to a script that has ended.
fn reply_to(alloc: Global, ran: EvalRun) -> Result<Answer, AllocError>
    ensures { IfOk result (λ answer. (codes : ScriptCodes) (end : End Value) → map string_bytes ran.listings.items ≡ listings_of codes → EndsSo ran.outcome end
        → told_by answer ≡ end_told codes end ran.outcome.steps) }
{
    let EvalRun { outcome, listings } = ran;
    let line = reply_line(alloc, &outcome.end, &outcome.heap)?;
    Ok(Answer {
        report: Report {
            status: status_of(line.is_error),
            listings,
            steps: outcome.steps,
        },
        line: line.text,
    })
}

/// The answer to a script that is refused.
fn answer_to_refused(alloc: Global, refusal: Refusal) -> Result<Answer, AllocError>
    ensures { IfOk result (λ answer. told_by answer ≡ uncounted Status.Refused (line_of (refusal_of refusal))) }
{
    Ok(Answer {
        report: Report::quiet(alloc, Status::Refused),
        line: refusal_line(alloc, refusal)?,
    })
}

/// The answer to a script: its reply, or its refusal.
pub fn answer_to(alloc: Global, script: &[u8]) -> Result<Answer, AllocError>
    requires { length script.now ≤ file_limit }
    ensures { IfOk result (λ answer. (codes : ScriptCodes) × AreCodesOf script.now codes × TellsScript codes script.now (told_by answer)) }
{
    script_laws();
    match run_script(alloc, script) {
        Ok(ran) => reply_to(alloc, ran),
        Err(Fail::Refused(refusal)) => answer_to_refused(alloc, refusal),
        Err(Fail::NoMemory) => Err(AllocError),
    }
}
