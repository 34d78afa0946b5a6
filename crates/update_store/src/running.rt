//! Many clients over one store.

ghost use Rattle.std.specs.Prelude.{◌≡◌, ◌<◌, ◌^◌, IfOk, OnOk, length, map, string_bytes};
ghost use Rattle.serde_json.specs.View.{view};
ghost use Rattle.update_store.specs.Updates.{numbered, replies_of};
ghost use Rattle.update_store.specs.Running.{HasUpdated, Meaning};
ghost use Rattle.update_store.specs.Serial.{IsSerial};

use crate::client::Client;
use crate::runner::UpdateRun;
use crate::store::Store;
use crate::task::ClientTask;
use serde_json::Value;
use std::alloc::{AllocError, Global};
use task_core::run_order_with;

/// Runs clients over a store, each to its end, and gives their replies in their order. A client reads its document, runs the
/// script over what it read, and commits what the script wants done where the document still has the version that it read;
/// where it has not, the client begins again while it has retries left. One of these three is a step, and between two steps of
/// a client others take theirs.
///
/// The clients are numbered from 0. First each entry of the order gives the client of its number a step, none where that has
/// ended or where there is no such client; then the clients take one step each in turn from client 0 on, round for round, until
/// all have ended.
///
/// # Errors
///
/// Want of memory, behind which nothing is known of the store and of the runner.
pub fn run_updates<R: UpdateRun>(
    store: &mut Store,
    runner: &mut R,
    clients: Vec<Client>,
    order: &[u32],
) -> Result<Vec<Value>, AllocError>
    requires { length clients.items < 2 ^ 32 }
    ensures updated { (m : Meaning) → R.means runner.old m → IfOk result (λ replies. HasUpdated R.means R.spent m order.now (numbered 0 clients.items) store.old runner.old (map view replies.items) store.new runner.new) }
    ensures serial { (m : Meaning) → R.means runner.old m → OnOk result (IsSerial m.ran (map (λ client. string_bytes client.id) clients.items) store.old store.new) }
{
    let mut tasks = tasks_of(store.alloc(), clients)?;
    run_order_with(store, runner, &mut tasks, order)?;
    replies_of(store.alloc(), tasks)
}

/// Clients that have not begun, numbered from 0.
fn tasks_of(alloc: Global, clients: Vec<Client>) -> Result<Vec<ClientTask>, AllocError>
    requires { length clients.items < 2 ^ 32 }
    ensures { IfOk result (λ tasks. tasks.items ≡ numbered 0 clients.items) }
{
    let mut tasks = Vec::with_capacity(alloc, clients.len())?;
    let mut number = 0;
    for client in clients {
        tasks.push(ClientTask::new(number, client))?;
        number += 1;
    }
    Ok(tasks)
}

/// The replies of clients that have ended.
fn replies_of(alloc: Global, tasks: Vec<ClientTask>) -> Result<Vec<Value>, AllocError>
    ensures { IfOk result (λ replies. map view replies.items ≡ replies_of tasks.items) }
{
    let mut replies = Vec::with_capacity(alloc, tasks.len())?;
    for task in tasks {
        replies.push(task.into_reply())?;
    }
    Ok(replies)
}
