//! What a script of a pipeline answers over a document.

ghost use Rattle.std.specs.Prelude.{◌≡◌, Ok, IfOk};
ghost use Rattle.serde_json.specs.View.{view};
ghost use Rattle.json_bridge.specs.Starts.{start_view};
ghost use Rattle.job_replies.specs.Refusals.{line_error, line_kind};
ghost use Rattle.document_replies.specs.Changes.{ctx_in};
ghost use Rattle.document_replies.specs.Jobs.{by_start};
ghost use Rattle.ingest_pipe.specs.Documents.{doc_view};
ghost use Rattle.pipe_job.specs.Code.{Answers, TakesStarts, answer_view};
ghost use Rattle.pipe_job.specs.Replies.{IsAnswerTo};

use crate::document::line_of_doc;
use document_replies::DocumentScript;
use ingest_pipe::IngestDoc;
use job_replies::LineFault;
use json_bridge::{BindErr, Bound, Params};
use json_replies::kind_reply;
use object_values::Value;
use serde_json::Value as Json;
use std::alloc::{AllocError, Global};
use write_ctx::{Seed, WriteKind, bind_document, reply};

/// A script of a pipeline that can be run.
#[derive(Drop)]
pub struct PipedScript<D> {
    pub script: D,
    /// Whether it tests documents or changes them.
    pub kind: WriteKind,
    /// Its parameters, an object.
    pub params: Params,
}

/// What a script answers over a document: its reply, and how many instructions it ran.
pub struct PipeAnswer {
    pub reply: Json,
    pub steps: u64,
}

impl Drop for PipeAnswer {
    fn drop(self) {
        let PipeAnswer {
            reply: _reply,
            steps: _,
        } = self;
    }
}

impl PipeAnswer {
    /// The reply.
    pub(crate) fn into_reply(self) -> Json
        ensures { result ≡ self.reply }
    {
        let PipeAnswer { reply, steps: _ } = self;
        reply
    }
}

/// The kind of what is wrong with a line.
fn line_kind(fault: LineFault) -> &'static str
    ensures { result.now ≡ line_kind fault }
{
    match fault {
        LineFault::Long => "line-long",
        LineFault::Syntax => "line-syntax",
        LineFault::Number => "line-number",
        LineFault::Field => "line-field",
        LineFault::Limit => "line-limit",
    }
}

/// What is wrong with a line, as JSON.
pub(crate) fn fault_reply(alloc: Global, fault: LineFault) -> Result<Json, AllocError>
    ensures { IfOk result (λ reply. view reply ≡ line_error fault) }
{
    kind_reply(alloc, line_kind(fault))
}

/// The answer to a document that is no line.
pub(crate) fn wrong_answer(alloc: Global, fault: LineFault) -> Result<PipeAnswer, AllocError>
    ensures { IfOk result (λ answer. answer_view answer ≡ record { reply = line_error fault; steps = 0 }) }
{
    let reply = fault_reply(alloc, fault)?;
    Ok(PipeAnswer { reply, steps: 0 })
}

/// The value of `ctx` among the arguments of a run.
fn ctx_in(args: &[Value]) -> Result<Value, AllocError>
    ensures { IfOk result (λ ctx. ctx ≡ ctx_in args.now) }
{
    match args.get(1) {
        Some(ctx) => ctx.share(),
        None => Ok(Value::Null),
    }
}

impl<D: DocumentScript> PipedScript<D> {
    /// The answer to a document that is bound.
    fn answer_to_bound(
        &self,
        bound: Bound,
        memory: &mut D::Memory,
    ) -> Result<PipeAnswer, AllocError>
        requires { D.takes self.now.script bound.args }
        ensures { IfOk result (λ answer. IsAnswerTo self.now.kind (by_start (D.ends self.now.script)) (Ok (start_view bound)) (answer_view answer)) }
    {
        let ctx = ctx_in(bound.args.as_slice())?;
        let (heap, args) = bound.into_parts();
        let outcome = self.script.run(memory, heap, args.into_vec())?;
        let told = reply(self.kind, &ctx, &outcome)?;
        Ok(PipeAnswer {
            reply: told,
            steps: outcome.steps,
        })
    }

    /// The answer to a document.
    pub(crate) fn answer(
        &self,
        alloc: Global,
        room: u64,
        seed: Seed,
        doc: &IngestDoc,
        memory: &mut D::Memory,
    ) -> Result<PipeAnswer, AllocError>
        requires { TakesStarts D.takes self.now room }
        ensures { IfOk result (λ answer. Answers D.ends self.now room (doc_view doc.now) (answer_view answer)) }
    {
        let line = line_of_doc(alloc, doc)?;
        match bind_document(alloc, self.kind, &self.params, line, room, seed) {
            Ok(bound) => self.answer_to_bound(bound, memory),
            Err(BindErr::Syntax) => wrong_answer(alloc, LineFault::Syntax),
            Err(BindErr::Number) => wrong_answer(alloc, LineFault::Number),
            Err(BindErr::Field) => wrong_answer(alloc, LineFault::Field),
            Err(BindErr::NoMemory) => Err(AllocError),
        }
    }
}
