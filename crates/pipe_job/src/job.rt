//! The reply to each line of a job over a pipeline.

ghost use Rattle.std.specs.Prelude.{◌≡◌, true, Err, IfOk, Ok, Some};
ghost use Rattle.std.specs.Str.{IsUtf8};
ghost use Rattle.serde_json.specs.Read.{read};
ghost use Rattle.serde_json.specs.View.{view};
ghost use Rattle.json_bridge.specs.Starts.{syntax};
ghost use Rattle.job_file.specs.Values.{has_whole_numbers};
ghost use Rattle.job_replies.specs.Refusals.{line_error};
ghost use Rattle.line_run.specs.Replies.{no_reply};
ghost use Rattle.line_run.specs.Shown.{reply_shown};
ghost use Rattle.document_replies.specs.Replies.{as_line, as_line_after};
ghost use Rattle.ingest_pipe.specs.Documents.{doc_view};
ghost use Rattle.ingest_pipe.specs.Running.{Meaning};
ghost use Rattle.pipe_job.specs.Code.{Mean, TakeAll};
ghost use Rattle.pipe_job.specs.Documents.{doc_in, doc_read, end_reply};
ghost use Rattle.pipe_job.specs.Lines.{IsDocument, IsMade, made_in};
ghost use Rattle.pipe_job.specs.Replies.{reply_to, reply_to_doc, whole_reply};

use crate::answers::{PipedScript, fault_reply};
use crate::document::{doc_of, dropped_reply, failed_reply, kept_reply};
use crate::runner::Runner;
use document_replies::{DocumentScript, is_blank, line_of};
use ingest_pipe::{IngestDoc, PipeEnd, Pipeline};
use job_file::has_whole_numbers;
use job_replies::LineFault;
use json_bridge::BindErr;
use json_reading::{Scratch, read_json};
use line_run::{Replier, ReplyLine};
use serde_json::Value as Json;
use std::alloc::{AllocError, Global};
use write_ctx::{Seed, WriteKind, is_line};

/// A job over a pipeline, with its scripts in their order.
#[derive(Drop)]
pub struct PipeJob<D> {
    pub alloc: Global,
    pub pipeline: Pipeline,
    pub scripts: Vec<PipedScript<D>>,
    /// The room of each run.
    pub room: u64,
    /// The job's seed. The heap of each run is made from it and from the run's line.
    pub seed: Seed,
}

/// The memory that is kept from one line to the next: what reads lines, and what runs scripts, once one was run.
#[derive(Drop)]
pub struct PipeScratch<M> {
    reading: Scratch,
    running: Option<M>,
}

/// No reply.
fn nothing(alloc: Global) -> ReplyLine
    ensures { reply_shown result ≡ no_reply }
{
    ReplyLine {
        text: String::new(alloc),
        is_error: false,
        steps: 0,
    }
}

/// The reply to a line that is wrong.
fn reply_to_fault(alloc: Global, fault: LineFault) -> Result<ReplyLine, AllocError>
    ensures { IfOk result (λ reply. reply_shown reply ≡ as_line (line_error fault)) }
{
    Ok(ReplyLine {
        text: String::from_str(alloc, fault.reply())?,
        is_error: true,
        steps: 0,
    })
}

/// The document of what a line is read as.
fn checked(alloc: Global, json: Json) -> Result<IngestDoc, BindErr>
    ensures { IsDocument (doc_read (Some (view json))) result }
{
    if !has_whole_numbers(&json) {
        return Err(BindErr::Number);
    }
    if !is_line(WriteKind::Ingest, &json) {
        return Err(BindErr::Field);
    }
    let doc = doc_of(alloc, json)?;
    Ok(doc)
}

/// The document of a line, by whether it is UTF-8.
fn document_read(alloc: Global, line: &[u8], scratch: &mut Scratch) -> Result<IngestDoc, BindErr>
    ensures text { IsUtf8 line.now → IsDocument (doc_read (read line.now)) result }
    ensures bytes { ¬ IsUtf8 line.now → IsDocument (Err syntax) result }
{
    let json = read_json(alloc, line, scratch)?;
    checked(alloc, json)
}

/// The document of a line.
fn document_in(alloc: Global, line: &[u8], scratch: &mut Scratch) -> Result<IngestDoc, BindErr>
    ensures { IsDocument (doc_in line.now) result }
{
    document_read(alloc, line, scratch)
}

/// A reply, where each of its numbers is a whole one of 64 bits with a sign.
fn whole_reply(alloc: Global, reply: Json) -> Result<Json, AllocError>
    ensures reply { IfOk result (λ told. view told ≡ whole_reply (view reply)) }
    ensures whole { IfOk result (λ told. has_whole_numbers (view told) ≡ true) }
{
    if has_whole_numbers(&reply) {
        return Ok(reply);
    }
    fault_reply(alloc, LineFault::Number)
}

/// The line of a reply, behind so many instructions.
#[tactic(auto, using(crate::proofs::Floats::whole_has_none))]
fn shown(alloc: Global, reply: &Json, steps: u64) -> Result<ReplyLine, AllocError>
    requires { has_whole_numbers (view reply.now) ≡ true }
    ensures { IfOk result (λ line. reply_shown line ≡ as_line_after steps (view reply.now)) }
{
    let text = line_of(alloc, reply)?;
    let is_error = reply.get("error").is_some();
    Ok(ReplyLine {
        text,
        is_error,
        steps,
    })
}

/// How the end of a pipeline is told.
fn end_reply(alloc: Global, end: PipeEnd) -> Result<Json, AllocError>
    ensures { IfOk result (λ reply. IsMade (made_in end) (λ made. view reply ≡ end_reply made)) }
{
    match end {
        PipeEnd::Kept(doc) => kept_reply(alloc, doc),
        PipeEnd::Dropped(doc) => dropped_reply(alloc, &doc),
        PipeEnd::Failed(error) => failed_reply(alloc, error),
        PipeEnd::NoMemory => Err(AllocError),
    }
}

/// Its line.
fn reply_to_end(alloc: Global, end: PipeEnd, steps: u64) -> Result<ReplyLine, AllocError>
    ensures { IfOk result (λ line. IsMade (made_in end) (λ made. reply_shown line ≡ as_line_after steps (whole_reply (end_reply made)))) }
{
    let told = end_reply(alloc, end)?;
    let reply = whole_reply(alloc, told)?;
    shown(alloc, &reply, steps)
}

impl<D: DocumentScript> PipeJob<D> {
    /// The reply to a document.
    fn reply_to_document(
        &self,
        doc: IngestDoc,
        seed: Seed,
        running: &mut Option<D::Memory>,
    ) -> Result<ReplyLine, AllocError>
        requires { TakeAll D.takes self.now.scripts.items self.now.room }
        ensures { IfOk result (λ line. (m : Meaning) → Mean D.ends self.now.scripts.items self.now.room m → reply_shown line ≡ reply_to_doc m self.now.pipeline.processors (Ok (doc_view doc))) }
    {
        let mut runner = Runner {
            alloc: self.alloc,
            scripts: self.scripts.as_slice(),
            room: self.room,
            seed,
            memory: running.take(),
            spent: 0,
        };
        let end = self.pipeline.run(self.alloc, &mut runner, doc);
        let steps = runner.spent;
        *running = runner.memory.take();
        reply_to_end(self.alloc, end, steps)
    }

    /// The reply to a line that is not blank.
    fn reply_to_line(
        &self,
        line: &[u8],
        scratch: &mut PipeScratch<D::Memory>,
    ) -> Result<ReplyLine, AllocError>
        requires { TakeAll D.takes self.now.scripts.items self.now.room }
        ensures { IfOk result (λ reply. (m : Meaning) → Mean D.ends self.now.scripts.items self.now.room m → reply_shown reply ≡ reply_to_doc m self.now.pipeline.processors (doc_in line.now)) }
    {
        match document_in(self.alloc, line, &mut scratch.reading) {
            Ok(doc) => self.reply_to_document(doc, self.seed.with(line), &mut scratch.running),
            Err(BindErr::Syntax) => reply_to_fault(self.alloc, LineFault::Syntax),
            Err(BindErr::Number) => reply_to_fault(self.alloc, LineFault::Number),
            Err(BindErr::Field) => reply_to_fault(self.alloc, LineFault::Field),
            Err(BindErr::NoMemory) => Err(AllocError),
        }
    }
}

impl<D: DocumentScript> Replier for PipeJob<D> {
    type Scratch = PipeScratch<D::Memory>;

    ghost ready = { λ job. TakeAll D.takes job.scripts.items job.room };

    ghost gives = { λ job line reply. (m : Meaning) → Mean D.ends job.scripts.items job.room m → reply ≡ reply_to m job.pipeline.processors line };

    fn scratch(&self, alloc: Global) -> PipeScratch<D::Memory> {
        PipeScratch {
            reading: Scratch::new(alloc),
            running: None,
        }
    }

    fn reply(
        &self,
        line: &[u8],
        scratch: &mut PipeScratch<D::Memory>,
    ) -> Result<ReplyLine, AllocError> {
        if is_blank(line) {
            return Ok(nothing(self.alloc));
        }
        self.reply_to_line(line, scratch)
    }

    fn reply_to_long(&self) -> Result<ReplyLine, AllocError> {
        reply_to_fault(self.alloc, LineFault::Long)
    }
}
