//! Scripts whose answers are fixed.

ghost use Rattle.std.specs.Prelude.{◌≡◌, IfOk};
ghost use Rattle.serde_json.specs.View.{view};
ghost use Rattle.update_store.specs.Documents.{doc_view};
ghost use Rattle.update_store.specs.Running.{RanMeans};
ghost use Rattle.update_store_tests.specs.Acting.{ActsSo, act_of, acted, error, number_of, with_number};

use serde_json::{Value, json};
use std::alloc::{AllocError, Global};
use update_store::{Change, Doc, Ran, UpdateRun};

/// What a script does.
#[derive(Clone, Copy)]
pub enum Act {
    /// It adds so much to the number `n`.
    Add(u64),
    /// It deletes the document.
    Delete,
    /// It changes nothing.
    Keep,
    /// It ends with an error.
    Fail,
}

/// Scripts of clients, by their numbers. A call costs the number of the document that it is made over.
#[derive(Drop)]
pub struct Acting<'a> {
    pub alloc: Global,
    pub acts: &'a [Act],
    /// What the calls have cost.
    pub spent: u64,
}

/// The number of a source.
fn number_of(source: &Value) -> u64
    ensures { result ≡ number_of (view source.now) }
{
    source.get("n").and_then(Value::as_u64).unwrap_or(0)
}

/// A source with a number.
fn with_number(alloc: Global, n: u64) -> Result<Value, AllocError>
    ensures { IfOk result (λ source. view source ≡ with_number n) }
{
    json!(in alloc; {"n": n})
}

/// The error of a script that fails.
fn failed(alloc: Global) -> Result<Value, AllocError>
    ensures { IfOk result (λ made. view made ≡ error) }
{
    let text = String::from_str(alloc, "fails")?;
    Ok(Value::String(text))
}

/// What a script makes of a document.
fn acted(alloc: Global, act: Act, doc: &Doc) -> Ran
    ensures { RanMeans (acted act (doc_view doc.now)) result }
{
    match act {
        Act::Add(n) => match with_number(alloc, number_of(&doc.source).saturating_add(n)) {
            Ok(source) => Ran::Write(Change::Index(source)),
            Err(_) => Ran::NoMemory,
        },
        Act::Delete => Ran::Write(Change::Delete),
        Act::Keep => Ran::Nothing,
        Act::Fail => match failed(alloc) {
            Ok(error) => Ran::Failed(error),
            Err(_) => Ran::NoMemory,
        },
    }
}

/// What the script of a client does: `Keep` where nothing is said of it.
pub(crate) fn act_of(acts: &[Act], client: usize) -> Act
    ensures { result ≡ act_of acts.now client }
{
    match acts.get(client) {
        Some(act) => *act,
        None => Act::Keep,
    }
}

impl<'a> UpdateRun for Acting<'a> {
    ghost means = { λ it m. ActsSo it.acts.now m };

    ghost spent = { λ it. it.spent };

    fn run(&mut self, client: u32, doc: &Doc) -> Ran {
        self.spent = self.spent.saturating_add(number_of(&doc.source));
        acted(self.alloc, act_of(self.acts, client as usize), doc)
    }
}
