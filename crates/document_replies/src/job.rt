//! A job over lines, which replies to each of them.

ghost use Rattle.std.specs.Prelude.{◌≡◌, true, IfOk, Ok, string_bytes};
ghost use Rattle.std.specs.List.{list_all};
ghost use Rattle.allowlist.specs.Allow.{flag};
ghost use Rattle.outer_io.specs.Lines.{InputLine, Within, Beyond};
ghost use Rattle.json_bridge.specs.Starts.{Start, start_view};
ghost use Rattle.job_replies.specs.Refusals.{line_error};
ghost use Rattle.line_run.specs.Replies.{Reply, no_reply};
ghost use Rattle.line_run.specs.Shown.{reply_shown};
ghost use Rattle.document_replies.specs.Jobs.{TakesStarts, by_start, context_of, ended_of};
ghost use Rattle.document_replies.specs.Replies.{IsReply, IsReplyTo, as_line, reply_to_run};

use crate::blank::is_blank;
use crate::context::{BoundLine, LineContext};
use crate::script::DocumentScript;
use job_replies::LineFault;
use json_bridge::{BindErr, Bound};
use json_replies::ShownKeys;
use line_run::{Replier, ReplyLine};
use object_heap::Outcome;
use std::alloc::{AllocError, Global};

/// A job over lines: its context and its script, and what is made once beside them.
#[derive(Drop)]
pub struct DocumentJob<C, D> {
    pub alloc: Global,
    pub context: C,
    /// What is shown beside the reply to a run.
    pub keys: ShownKeys,
    pub script: D,
}

/// The memory that is kept from one line to the next: what reads lines, and what runs scripts.
#[derive(Drop)]
pub struct DocumentScratch<R, M> {
    pub reading: R,
    pub running: M,
}

/// What is told without a run.
fn told(text: String, is_error: bool) -> ReplyLine
    ensures { reply_shown result ≡ record { bytes = string_bytes text; error = is_error; steps = 0 } }
{
    ReplyLine {
        text,
        is_error,
        steps: 0,
    }
}

/// No reply.
fn nothing(alloc: Global) -> ReplyLine
    ensures { reply_shown result ≡ no_reply }
{
    told(String::new(alloc), false)
}

/// The reply to a line that is wrong.
fn reply_to_fault(alloc: Global, fault: LineFault) -> Result<ReplyLine, AllocError>
    ensures { IfOk result (λ reply. reply_shown reply ≡ as_line (line_error fault)) }
{
    Ok(told(String::from_str(alloc, fault.reply())?, true))
}

impl<C: LineContext, D: DocumentScript> DocumentJob<C, D> {
    /// A run over a line that is bound.
    fn run_over(&self, bound: Bound, memory: &mut D::Memory) -> Result<Outcome, AllocError>
        requires { D.takes self.now.script bound.args }
        ensures ends { IfOk result (λ outcome. by_start (D.ends self.now.script) (start_view bound) (ended_of outcome)) }
        ensures reaches { IfOk result (λ outcome. list_all (flag (D.list self.now.script).members) outcome.reached ≡ true) }
    {
        let (heap, args) = bound.into_parts();
        self.script.run(memory, heap, args.into_vec())
    }

    /// The reply to a run, which called members of the script's list alone, by what is kept of its start.
    fn reply_to_outcome(&self, kept: C::Kept, outcome: &Outcome) -> Result<ReplyLine, AllocError>
        requires { list_all (flag (D.list self.now.script).members) outcome.now.reached ≡ true }
        ensures { IfOk result (λ reply. (from : Start) → C.keeps self.now.context from kept → reply_shown reply ≡ reply_to_run (D.list self.now.script) (context_of (C.start self.now.context) (C.answer self.now.context) self.now.keys) from (ended_of outcome.now)) }
    {
        let line = self
            .context
            .reply(self.script.allow(), self.keys, kept, outcome)?;
        Ok(ReplyLine {
            text: line.text,
            is_error: line.is_error,
            steps: outcome.steps,
        })
    }

    /// The reply to a line that is bound.
    fn reply_to_bound(
        &self,
        line: BoundLine<C::Kept>,
        memory: &mut D::Memory,
    ) -> Result<ReplyLine, AllocError>
        requires takes { D.takes self.now.script line.bound.args }
        requires keeps { C.keeps self.now.context (start_view line.bound) line.kept }
        ensures { IfOk result (λ reply. IsReplyTo (D.list self.now.script) (context_of (C.start self.now.context) (C.answer self.now.context) self.now.keys) (by_start (D.ends self.now.script)) (Ok (start_view line.bound)) (reply_shown reply)) }
    {
        let BoundLine { bound, kept } = line;
        let outcome = self.run_over(bound, memory)?;
        self.reply_to_outcome(kept, &outcome)
    }

    /// The reply to a line that is not blank.
    fn reply_to_document(
        &self,
        line: &[u8],
        scratch: &mut DocumentScratch<C::Scratch, D::Memory>,
    ) -> Result<ReplyLine, AllocError>
        requires { TakesStarts (C.start self.now.context) (D.takes self.now.script) }
        ensures { IfOk result (λ reply. IsReplyTo (D.list self.now.script) (context_of (C.start self.now.context) (C.answer self.now.context) self.now.keys) (by_start (D.ends self.now.script)) (C.start self.now.context line.now) (reply_shown reply)) }
    {
        match self.context.bind(line, &mut scratch.reading) {
            Ok(found) => self.reply_to_bound(found, &mut scratch.running),
            Err(BindErr::Syntax) => reply_to_fault(self.alloc, LineFault::Syntax),
            Err(BindErr::Number) => reply_to_fault(self.alloc, LineFault::Number),
            Err(BindErr::Field) => reply_to_fault(self.alloc, LineFault::Field),
            Err(BindErr::NoMemory) => Err(AllocError),
        }
    }
}

impl<C: LineContext, D: DocumentScript> Replier for DocumentJob<C, D> {
    type Scratch = DocumentScratch<C::Scratch, D::Memory>;

    ghost ready = { λ job. TakesStarts (C.start job.context) (D.takes job.script) };

    ghost gives = { λ job line reply. IsReply (D.list job.script) (context_of (C.start job.context) (C.answer job.context) job.keys) (by_start (D.ends job.script)) line reply };

    fn scratch(&self, alloc: Global) -> DocumentScratch<C::Scratch, D::Memory> {
        DocumentScratch {
            reading: self.context.scratch(alloc),
            running: self.script.memory(alloc),
        }
    }

    fn reply(
        &self,
        line: &[u8],
        scratch: &mut DocumentScratch<C::Scratch, D::Memory>,
    ) -> Result<ReplyLine, AllocError> {
        if is_blank(line) {
            return Ok(nothing(self.alloc));
        }
        self.reply_to_document(line, scratch)
    }

    fn reply_to_long(&self) -> Result<ReplyLine, AllocError> {
        reply_to_fault(self.alloc, LineFault::Long)
    }
}
