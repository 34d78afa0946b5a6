//! A document through a pipeline.

ghost use Rattle.std.specs.Prelude.{◌≡◌, ℕ, IfOk};
ghost use Rattle.serde_json.specs.View.{view};
ghost use Rattle.pipe_fields.specs.Documents.{doc_view};
ghost use Rattle.ingest_pipe.specs.Answers.{ChangeMeans, Ends, IsOutcome, LeavesOnFailure, OnChanged, OnTested, TestMeans, outcome_of};
ghost use Rattle.ingest_pipe.specs.Running.{Meaning, acted, called, counted, failure, piped, tried};

use crate::processors::{Action, Follows, Pipeline, Processors};
use pipe_fields::{EditErr, IngestDoc, remove, rename, set};
use plain_data::Text;
use serde_json::{Value, json};
use std::alloc::{AllocError, Global};

/// What a test comes to.
#[derive(Drop)]
pub enum Tested {
    /// It holds of the document.
    Yes,
    /// It does not.
    No,
    /// The script ended with this error.
    Failed(Value),
    /// Memory ran out.
    NoMemory,
}

/// What a script makes of a document.
#[derive(Drop)]
pub enum Changed {
    /// This document.
    Doc(IngestDoc),
    /// The script ended with this error.
    Failed(Value),
    /// Memory ran out.
    NoMemory,
}

/// How a document's run through a pipeline ends.
#[derive(Drop)]
pub enum PipeEnd {
    /// The document is kept, as it has become.
    Kept(IngestDoc),
    /// It is dropped, as it stood there.
    Dropped(IngestDoc),
    /// The pipeline fails with this error.
    Failed(Value),
    /// Memory ran out.
    NoMemory,
}

/// What processors come to. The document that they leave stands beside it.
#[derive(Drop)]
pub(crate) enum Outcome {
    Passed,
    Dropped,
    Failed(Value),
    NoMemory,
}

/// What runs the scripts of a pipeline. Its meanings say what each script does to each document and what that costs; no call
/// takes one away, and `spent` counts what the calls cost.
pub trait ScriptRunner {
    /// That it can run its scripts.
    ghost ready: { Self → Type 0 };

    /// That it has a meaning: its scripts answer so. How a script ends may be known by a relation alone, and then each function
    /// within the relation is a meaning.
    ghost meant: { Self → Meaning → Type 0 };

    /// What was spent so far.
    ghost spent: { Self → ℕ };

    /// Whether the test of a script holds of a document. The script is named by its place among the pipeline's scripts.
    fn holds(&mut self, script: usize, doc: &IngestDoc) -> Tested
        requires { ready self.old }
        ensures ready { ready self.new }
        ensures answers { (m : Meaning) → meant self.old m → TestMeans (m.tested script (doc_view doc.now)) result }
        ensures stays { (m : Meaning) → meant self.old m → meant self.new m }
        ensures spent { (m : Meaning) → meant self.old m → OnTested result (spent self.new ≡ counted (spent self.old) (m.cost script (doc_view doc.now))) };

    /// Runs a script over a document. The script is named by its place among the pipeline's scripts.
    fn change(&mut self, script: usize, doc: &IngestDoc) -> Changed
        requires { ready self.old }
        ensures ready { ready self.new }
        ensures answers { (m : Meaning) → meant self.old m → ChangeMeans (m.changed script (doc_view doc.now)) result }
        ensures stays { (m : Meaning) → meant self.old m → meant self.new m }
        ensures spent { (m : Meaning) → meant self.old m → OnChanged result (spent self.new ≡ counted (spent self.old) (m.cost script (doc_view doc.now))) };
}

/// The error of a processor that fails with a message.
fn failure(alloc: Global, message: &Text) -> Result<Value, AllocError>
    ensures { IfOk result (λ error. view error ≡ failure message.now) }
{
    json!(in alloc; {"kind": "pipe-fail", "message": message.as_str()})
}

/// What a change of a document by `set`, `remove` or `rename` comes to.
fn outcome_of(edited: Result<(), EditErr>) -> Outcome
    ensures { result ≡ outcome_of edited }
{
    match edited {
        Ok(()) => Outcome::Passed,
        Err(EditErr::Failed(error)) => Outcome::Failed(error),
        Err(EditErr::NoMemory) => Outcome::NoMemory,
    }
}

/// Runs a script over a document.
fn change<R: ScriptRunner>(script: usize, runner: &mut R, doc: &mut IngestDoc) -> Outcome
    requires { R.ready runner.old }
    ensures ready { R.ready runner.new }
    ensures outcome { (m : Meaning) → R.meant runner.old m → IsOutcome R.meant R.spent m (called script (doc_view doc.old) (m.changed script (doc_view doc.old))) runner.old runner.new doc.new result }
    ensures left { LeavesOnFailure result doc.old doc.new }
{
    match runner.change(script, doc) {
        Changed::Doc(changed) => {
            *doc = changed;
            Outcome::Passed
        }
        Changed::Failed(error) => Outcome::Failed(error),
        Changed::NoMemory => Outcome::NoMemory,
    }
}

/// Does what a processor does.
fn act<R: ScriptRunner>(
    alloc: Global,
    action: &Action,
    runner: &mut R,
    doc: &mut IngestDoc,
) -> Outcome
    requires { R.ready runner.old }
    ensures ready { R.ready runner.new }
    ensures outcome { (m : Meaning) → R.meant runner.old m → IsOutcome R.meant R.spent m (acted m.changed action.now (doc_view doc.old)) runner.old runner.new doc.new result }
    ensures left { LeavesOnFailure result doc.old doc.new }
{
    match action {
        Action::Script(script) => change(*script, runner, doc),
        Action::Set(place, value, there) => {
            outcome_of(set(alloc, place, value.get(), *there, doc))
        }
        Action::Remove(field, missing) => outcome_of(remove(alloc, field, *missing, doc)),
        Action::Rename(field, target, missing) => {
            outcome_of(rename(alloc, field, target, *missing, doc))
        }
        Action::Drop => Outcome::Dropped,
        Action::Fail(message) => match failure(alloc, message) {
            Ok(error) => Outcome::Failed(error),
            Err(_) => Outcome::NoMemory,
        },
    }
}

/// Runs one processor.
fn step<R: ScriptRunner>(
    alloc: Global,
    test: Option<usize>,
    action: &Action,
    runner: &mut R,
    doc: &mut IngestDoc,
) -> Outcome
    requires { R.ready runner.old }
    ensures ready { R.ready runner.new }
    ensures outcome { (m : Meaning) → R.meant runner.old m → IsOutcome R.meant R.spent m (tried test m.tested m.changed action.now (doc_view doc.old)) runner.old runner.new doc.new result }
    ensures left { LeavesOnFailure result doc.old doc.new }
{
    let Some(test) = test else {
        return act(alloc, action, runner, doc);
    };
    match runner.holds(test, doc) {
        Tested::Yes => act(alloc, action, runner, doc),
        Tested::No => Outcome::Passed,
        Tested::Failed(error) => Outcome::Failed(error),
        Tested::NoMemory => Outcome::NoMemory,
    }
}

/// Runs a list of processors. It goes a call deeper for each processor of a list, and for each list within a list: 272
/// calls at most for a pipeline that was read, which has 256 processors and lists within one another 16 deep.
fn run<R: ScriptRunner>(
    alloc: Global,
    processors: &Processors,
    runner: &mut R,
    doc: &mut IngestDoc,
) -> Outcome
    requires { R.ready runner.old }
    ensures ready { R.ready runner.new }
    ensures outcome { (m : Meaning) → R.meant runner.old m → IsOutcome R.meant R.spent m (piped m.tested m.changed processors.now (doc_view doc.old)) runner.old runner.new doc.new result }
{
    match processors {
        Processors::End => Outcome::Passed,
        Processors::Then(guard, action, on_failure, rest) => {
            match step(alloc, guard.test, action, runner, doc) {
                Outcome::Passed => run(alloc, rest.get(), runner, doc),
                Outcome::Dropped => Outcome::Dropped,
                Outcome::NoMemory => Outcome::NoMemory,
                Outcome::Failed(error) => match guard.follows {
                    Follows::Fails => Outcome::Failed(error),
                    Follows::Ignored => run(alloc, rest.get(), runner, doc),
                    Follows::Recovers => match run(alloc, on_failure.get(), runner, doc) {
                        Outcome::Passed => run(alloc, rest.get(), runner, doc),
                        Outcome::Dropped => Outcome::Dropped,
                        Outcome::Failed(error) => Outcome::Failed(error),
                        Outcome::NoMemory => Outcome::NoMemory,
                    },
                },
            }
        }
    }
}

impl Pipeline {
    /// Runs a document through the pipeline: what its processors make of the document by each meaning that the runner has, and
    /// what their calls of scripts cost is added to what the runner has spent.
    pub fn run<R: ScriptRunner>(&self, alloc: Global, runner: &mut R, doc: IngestDoc) -> PipeEnd
        requires { R.ready runner.old }
        ensures ready { R.ready runner.new }
        ensures ends { (m : Meaning) → R.meant runner.old m → Ends R.meant R.spent m self.now.processors (doc_view doc) runner.old runner.new result }
    {
        let mut doc = doc;
        match run(alloc, &self.processors, runner, &mut doc) {
            Outcome::Passed => PipeEnd::Kept(doc),
            Outcome::Dropped => PipeEnd::Dropped(doc),
            Outcome::Failed(error) => PipeEnd::Failed(error),
            Outcome::NoMemory => PipeEnd::NoMemory,
        }
    }
}
