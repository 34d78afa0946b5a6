//! Scripts whose answers are fixed.

ghost use Rattle.std.specs.Prelude.{◌≡◌, IfOk};
ghost use Rattle.serde_json.specs.View.{view};
ghost use Rattle.pipe_fields.specs.Documents.{doc_view};
ghost use Rattle.pipe_fields.specs.Edits.{Becomes};
ghost use Rattle.ingest_pipe.specs.Answers.{ChangeMeans, TestMeans};
ghost use Rattle.pipe_tests.specs.Fixed.{FixedMeans, edited_by, error, judged_by, says_at};

use ingest_pipe::{Changed, IngestDoc, ScriptRunner, Tested};
use serde_json::Value;
use std::alloc::{AllocError, Global};

/// What a script says of each document, or makes of it.
#[derive(Clone, Copy)]
pub enum Says {
    /// Yes.
    Holds,
    /// No.
    Lacks,
    /// Whether the index is `marked`.
    HoldsOfMarked,
    /// The index becomes `marked`.
    Marks,
    /// It ends with an error.
    Fails,
}

/// The index that a script gives.
const MARKED: &str = "marked";

/// The scripts of a pipeline, by their answers.
#[derive(Drop)]
pub struct Fixed<'a> {
    pub alloc: Global,
    pub scripts: &'a [Says],
    /// What each call costs.
    pub cost: u64,
    /// What the calls have cost.
    pub spent: u64,
}

/// The error of a script that fails.
fn failed(alloc: Global) -> Result<Value, AllocError>
    ensures { IfOk result (λ made. view made ≡ error) }
{
    let text = String::from_str(alloc, "fails")?;
    Ok(Value::String(text))
}

/// What a test says of a document.
fn judged(alloc: Global, says: Says, doc: &IngestDoc) -> Tested
    ensures { TestMeans (judged_by says (doc_view doc.now)) result }
{
    match says {
        Says::Holds => Tested::Yes,
        Says::Lacks | Says::Marks => Tested::No,
        Says::HoldsOfMarked => {
            if doc.index.as_str() == MARKED {
                Tested::Yes
            } else {
                Tested::No
            }
        }
        Says::Fails => match failed(alloc) {
            Ok(error) => Tested::Failed(error),
            Err(_) => Tested::NoMemory,
        },
    }
}

/// A copy of a document with an index.
fn copied(alloc: Global, index: &str, doc: &IngestDoc) -> Changed
    ensures { ChangeMeans (Becomes (record (doc_view doc.now) { index = index.now })) result }
{
    match copy_of(alloc, index, doc) {
        Ok(made) => Changed::Doc(made),
        Err(_) => Changed::NoMemory,
    }
}

/// The same, where memory does not run out.
fn copy_of(alloc: Global, index: &str, doc: &IngestDoc) -> Result<IngestDoc, AllocError>
    ensures { IfOk result (λ made. doc_view made ≡ record (doc_view doc.now) { index = index.now }) }
{
    let index = String::from_str(alloc, index)?;
    let id = doc.id.clone()?;
    let source = doc.source.clone()?;
    Ok(IngestDoc { index, id, source })
}

/// What a script makes of a document.
fn edited(alloc: Global, says: Says, doc: &IngestDoc) -> Changed
    ensures { ChangeMeans (edited_by says (doc_view doc.now)) result }
{
    match says {
        Says::Holds | Says::Lacks | Says::HoldsOfMarked => copied(alloc, doc.index.as_str(), doc),
        Says::Marks => copied(alloc, MARKED, doc),
        Says::Fails => match failed(alloc) {
            Ok(error) => Changed::Failed(error),
            Err(_) => Changed::NoMemory,
        },
    }
}

/// What the script of a place says: `Lacks` where there is none.
fn says_at(scripts: &[Says], script: usize) -> Says
    ensures { result ≡ says_at scripts.now script }
{
    match scripts.get(script) {
        Some(says) => *says,
        None => Says::Lacks,
    }
}

impl<'a> ScriptRunner for Fixed<'a> {
    ghost ready = { λ _. Unit {0} };

    ghost meant = { λ it m. FixedMeans it.scripts.now it.cost m };

    ghost spent = { λ it. it.spent };

    fn holds(&mut self, script: usize, doc: &IngestDoc) -> Tested {
        self.spent = self.spent.saturating_add(self.cost);
        judged(self.alloc, says_at(self.scripts, script), doc)
    }

    fn change(&mut self, script: usize, doc: &IngestDoc) -> Changed {
        self.spent = self.spent.saturating_add(self.cost);
        edited(self.alloc, says_at(self.scripts, script), doc)
    }
}
