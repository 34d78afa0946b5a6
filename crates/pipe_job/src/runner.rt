//! What runs the scripts of a pipeline over a document.

ghost use Rattle.std.specs.Prelude.{◌≡◌, IfOk};
ghost use Rattle.ingest_pipe.specs.Documents.{doc_view};
ghost use Rattle.pipe_job.specs.Code.{Answers, AnswersAt, Mean, TakeAll, TakesStarts, answer_view};

use crate::answers::{PipeAnswer, PipedScript, wrong_answer};
use crate::document::{edited_by, judged_by};
use document_replies::DocumentScript;
use ingest_pipe::{Changed, IngestDoc, ScriptRunner, Tested};
use job_replies::LineFault;
use std::alloc::{AllocError, Global};
use write_ctx::Seed;

/// The scripts of a pipeline, as they are run over one document. The memory is made at the first run.
#[derive(Drop)]
pub(crate) struct Runner<'a, D: DocumentScript> {
    pub(crate) alloc: Global,
    pub(crate) scripts: &'a [PipedScript<D>],
    /// The room of each run.
    pub(crate) room: u64,
    pub(crate) seed: Seed,
    pub(crate) memory: Option<D::Memory>,
    /// How many instructions were run.
    pub(crate) spent: u64,
}

/// The answer of a script over a document.
fn answer_by<D: DocumentScript>(
    alloc: Global,
    script: &PipedScript<D>,
    room: u64,
    seed: Seed,
    doc: &IngestDoc,
    memory: &mut Option<D::Memory>,
) -> Result<PipeAnswer, AllocError>
    requires { TakesStarts D.takes script.now room }
    ensures { IfOk result (λ answer. Answers D.ends script.now room (doc_view doc.now) (answer_view answer)) }
{
    let mut running = match memory.take() {
        Some(running) => running,
        None => script.script.memory(alloc),
    };
    let answer = script.answer(alloc, room, seed, doc, &mut running)?;
    *memory = Some(running);
    Ok(answer)
}

/// The answer of the script of a place over a document.
fn answer_at<D: DocumentScript>(
    alloc: Global,
    scripts: &[PipedScript<D>],
    script: usize,
    room: u64,
    seed: Seed,
    doc: &IngestDoc,
    memory: &mut Option<D::Memory>,
) -> Result<PipeAnswer, AllocError>
    requires { TakeAll D.takes scripts.now room }
    ensures { IfOk result (λ answer. AnswersAt D.ends scripts.now room script (doc_view doc.now) (answer_view answer)) }
{
    match scripts.get(script) {
        Some(found) => answer_by(alloc, found, room, seed, doc, memory),
        None => wrong_answer(alloc, LineFault::Field),
    }
}

impl<'a, D: DocumentScript> ScriptRunner for Runner<'a, D> {
    ghost ready = { λ it. TakeAll D.takes it.scripts.now it.room };

    ghost meant = { λ it m. Mean D.ends it.scripts.now it.room m };

    ghost spent = { λ it. it.spent };

    fn holds(&mut self, script: usize, doc: &IngestDoc) -> Tested {
        match answer_at(
            self.alloc,
            self.scripts,
            script,
            self.room,
            self.seed,
            doc,
            &mut self.memory,
        ) {
            Ok(answer) => {
                self.spent = self.spent.saturating_add(answer.steps);
                judged_by(&answer.reply)
            }
            Err(_) => Tested::NoMemory,
        }
    }

    fn change(&mut self, script: usize, doc: &IngestDoc) -> Changed {
        match answer_at(
            self.alloc,
            self.scripts,
            script,
            self.room,
            self.seed,
            doc,
            &mut self.memory,
        ) {
            Ok(answer) => {
                self.spent = self.spent.saturating_add(answer.steps);
                edited_by(self.alloc, answer.into_reply())
            }
            Err(_) => Changed::NoMemory,
        }
    }
}
