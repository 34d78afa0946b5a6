//! A client as a task.

ghost use Rattle.std.specs.Prelude.{◌≡◌, IfOk, string_bytes};
ghost use Rattle.serde_json.specs.View.{view};
ghost use Rattle.task_core.specs.Steps.{over};
ghost use Rattle.update_store.specs.Documents.{change_view, doc_view};
ghost use Rattle.update_store.specs.Committing.{read};
ghost use Rattle.update_store.specs.Replies.{none_reply};
ghost use Rattle.update_store.specs.Updates.{Ended, Read, begun, client_data, has_ended, left_of, op_of, reply_in};
ghost use Rattle.update_store.specs.Running.{BeginsAgain, IsRun, IsWritten, Takes, phase_view};

use crate::client::{Client, Phase};
use crate::document::{Change, Doc};
use crate::replies::{change_reply, conflict_reply, missing_reply, none_reply};
use crate::runner::{Ran, UpdateRun};
use crate::store::{CommitErr, Store};
use serde_json::Value;
use std::alloc::{AllocError, Global};
use std::marker::Model;
use std::mem;
use task_core::{Step, Turn};

/// A client on its way.
#[derive(Drop)]
pub(crate) struct ClientTask {
    number: u32,
    id: String,
    retries: u32,
    phase: Phase,
}

impl Model for ClientTask {
    ghost use Rattle.std.specs.Coded.{codes};
    ghost use Rattle.json_codes.specs.Coding.{data_code};
    ghost use Rattle.std.specs.Prelude.{string_bytes};
    ghost use Rattle.update_store.specs.Updates.{ClientData, client_data};
    ghost use Rattle.update_store.specs.Running.{phase_view};

    ghost Value = { ClientData };

    ghost coded = { Prim.hlevel (codes, data_code) };

    ghost view = { λ t. client_data t.number (string_bytes t.id) t.retries (phase_view t.phase) };
}

impl ClientTask {
    /// A client that has not begun.
    pub(crate) fn new(number: u32, client: Client) -> ClientTask
        ensures { result ≡ client_data number (string_bytes client.id) client.retries Read }
    {
        let Client { id, retries } = client;
        ClientTask {
            number,
            id,
            retries,
            phase: Phase::Read,
        }
    }

    /// The reply with which it has ended.
    pub(crate) fn into_reply(self) -> Value
        ensures { view result ≡ reply_in self.phase }
    {
        let ClientTask {
            number: _,
            id: _id,
            retries: _,
            phase,
        } = self;
        match phase {
            Phase::Ended(reply) => reply,
            Phase::Read | Phase::Run(_) | Phase::Write(_, _) | Phase::Keep => Value::Null,
        }
    }
}

impl<R: UpdateRun> Step<Store, R> for ClientTask {
    ghost rest = { left_of };

    ghost step = { Takes R.means R.spent };

    fn is_done(&self) -> bool {
        has_ended(&self.phase)
    }

    fn turn(&mut self, shared: &mut Store, runner: &mut R) -> Turn {
        let phase = mem::replace(&mut self.phase, Phase::Keep);
        let id = self.id.as_str();
        let Ok(next) = next(self.number, id, &mut self.retries, phase, shared, runner) else {
            return Turn::NoMemory;
        };
        self.phase = next;
        if has_ended(&self.phase) {
            Turn::Done
        } else {
            Turn::More
        }
    }
}

/// Whether a client does nothing more.
fn has_ended(phase: &Phase) -> bool
    ensures { result ≡ has_ended (phase_view phase.now) }
{
    matches!(phase, Phase::Ended(_))
}

/// What a client does behind its next step.
fn next<R: UpdateRun>(
    number: u32,
    id: &str,
    retries: &mut u32,
    phase: Phase,
    store: &mut Store,
    runner: &mut R,
) -> Result<Phase, AllocError>
    ensures { IfOk result (λ next. Takes R.means R.spent
        (over (client_data number id.now retries.old (phase_view phase)) store.old runner.old)
        (over (client_data number id.now retries.new (phase_view next)) store.new runner.new)) }
{
    match phase {
        Phase::Read => begin(id, store),
        Phase::Run(doc) => run(number, &doc, runner),
        Phase::Write(version, change) => write(number, id, retries, version, change, store),
        Phase::Keep => keep(store, id),
        Phase::Ended(reply) => Ok(Phase::Ended(reply)),
    }
}

/// Reads a document. What is read is a copy, since others may change the document before the script runs over it.
fn begin(id: &str, store: &Store) -> Result<Phase, AllocError>
    ensures { IfOk result (λ phase. phase_view phase ≡ begun (read id.now store.now)) }
{
    match store.read(id) {
        Some(doc) => {
            let copy = doc.copy()?;
            Ok(Phase::Run(copy))
        }
        None => {
            let reply = missing_reply(store.alloc())?;
            Ok(Phase::Ended(reply))
        }
    }
}

/// Runs the script over a document.
fn run<R: UpdateRun>(number: u32, doc: &Doc, runner: &mut R) -> Result<Phase, AllocError>
    ensures { IfOk result (IsRun R.means R.spent number (doc_view doc.now) runner.old runner.new) }
{
    match runner.run(number, doc) {
        Ran::Write(change) => Ok(Phase::Write(doc.version, change)),
        Ran::Nothing => Ok(Phase::Keep),
        Ran::Failed(error) => Ok(Phase::Ended(error)),
        Ran::NoMemory => Err(AllocError),
    }
}

/// Commits a change over the version that was read.
fn write(
    number: u32,
    id: &str,
    retries: &mut u32,
    version: u64,
    change: Change,
    store: &mut Store,
) -> Result<Phase, AllocError>
    ensures { IfOk result (IsWritten number id.now version (change_view change) retries.old retries.new store.old store.new) }
{
    let op = op_of(&change);
    match store.commit(number, id, version, change) {
        Ok(next) => {
            let reply = change_reply(store.alloc(), op, id, next)?;
            Ok(Phase::Ended(reply))
        }
        Err(CommitErr::Conflict { read, found }) => again(store.alloc(), retries, read, found),
        Err(CommitErr::NoMemory) => Err(AllocError),
    }
}

/// The name of a change.
fn op_of(change: &Change) -> &'static str
    ensures { result.now ≡ op_of (change_view change.now) }
{
    match change {
        Change::Index(_) => "index",
        Change::Delete => "delete",
    }
}

/// Begins again, where retries are left.
fn again(alloc: Global, retries: &mut u32, read: u64, found: u64) -> Result<Phase, AllocError>
    ensures { IfOk result (BeginsAgain retries.old retries.new read found) }
{
    if *retries == 0 {
        let reply = conflict_reply(alloc, read, found)?;
        return Ok(Phase::Ended(reply));
    }
    *retries -= 1;
    Ok(Phase::Read)
}

/// Ends with nothing changed.
fn keep(store: &Store, id: &str) -> Result<Phase, AllocError>
    ensures { IfOk result (λ phase. phase_view phase ≡ Ended (none_reply id.now)) }
{
    let reply = none_reply(store.alloc(), id)?;
    Ok(Phase::Ended(reply))
}
