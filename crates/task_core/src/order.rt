//! In which order tasks run.

ghost use Rattle.std.specs.Prelude.{◌<◌, ◌≡◌, [], ◌∷◌, length, map, OnOk};
ghost use Rattle.task_core.specs.Order.{IsOrder, Ran, AllEnd, all_done, ordered, Went, tasks_from};

use crate::task::{Task, Turn};
use std::alloc::AllocError;

/// Runs every task to its end, in turns of `q` instructions: first each entry of the order gives its task a turn, none where
/// it is done; then the tasks take turns from task 0 on, round for round, until all are done.
///
/// An entry is the place of a task. Errors: want of memory, behind which nothing is known of the tasks.
pub fn run_order<T: Task>(tasks: &mut [T], order: &[u32], q: u64) -> Result<(), AllocError>
    requires slice { 0 < q }
    requires entries { IsOrder (length tasks.old) order.now }
    ensures ordered { OnOk result (Ran T.rest T.ending q (ordered q order.now (map T.rest tasks.old)) tasks.old tasks.new) }
    ensures ended { OnOk result (AllEnd T.rest T.ending tasks.old tasks.new) }
{
    'entries: for entry in order {
        give_turn(tasks, *entry as usize, q)?;
    }
    'rounds: while !is_over(tasks) {
        give_round(tasks, q)?;
    }
    Ok(())
}

/// Gives each task one turn, from the first on.
fn give_round<T: Task>(tasks: &mut [T], q: u64) -> Result<(), AllocError>
    requires { 0 < q }
    ensures { OnOk result (Went T.rest T.ending q (tasks_from 0 (length tasks.old)) tasks.old tasks.new) }
{
    'tasks: for task in 0..tasks.len() {
        give_turn(tasks, task, q)?;
    }
    Ok(())
}

/// Gives a task one turn, and none where it is done.
fn give_turn<T: Task>(tasks: &mut [T], task: usize, q: u64) -> Result<(), AllocError>
    requires slice { 0 < q }
    requires within { task < length tasks.old }
    ensures { OnOk result (Went T.rest T.ending q (task ∷ []) tasks.old tasks.new) }
{
    let one = &mut tasks[task];
    if one.is_done() {
        return Ok(());
    }
    match one.turn(q) {
        Turn::More | Turn::Done => Ok(()),
        Turn::NoMemory => Err(AllocError),
    }
}

/// Whether no task has an instruction left.
fn is_over<T: Task>(tasks: &[T]) -> bool
    ensures { result ≡ all_done T.rest tasks.now }
{
    tasks.iter().all(|task| task.is_done())
}
