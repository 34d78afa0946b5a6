//! In which order tasks take steps over what they share.

ghost use Rattle.std.specs.Prelude.{◌≡◌, [], ◌∷◌, length, OnOk};
ghost use Rattle.task_core.specs.Order.{all_done, tasks_from};
ghost use Rattle.task_core.specs.Steps.{AllStep, HaveTurns, over};

use crate::step::Step;
use crate::task::Turn;
use std::alloc::AllocError;

/// Lets every task take its steps: first each entry of the order gives its task one, none where that is done or where there
/// is no such task; then the tasks take one each from task 0 on, round for round, until all are done.
///
/// An entry is the place of a task. Errors: want of memory, behind which nothing is known of the tasks, of what they share
/// and of the runner.
pub fn run_order_with<S, R, T: Step<S, R>>(
    shared: &mut S,
    runner: &mut R,
    tasks: &mut [T],
    order: &[u32],
) -> Result<(), AllocError>
    ensures { OnOk result (AllStep T.rest T.step order.now (over tasks.old shared.old runner.old) (over tasks.new shared.new runner.new)) }
{
    'entries: for entry in order {
        give_step(shared, runner, tasks, *entry as usize)?;
    }
    'rounds: while !are_done::<S, R, T>(tasks) {
        give_steps(shared, runner, tasks)?;
    }
    Ok(())
}

/// Gives each task one step, from the first on.
fn give_steps<S, R, T: Step<S, R>>(
    shared: &mut S,
    runner: &mut R,
    tasks: &mut [T],
) -> Result<(), AllocError>
    ensures { OnOk result (HaveTurns T.rest T.step (tasks_from 0 (length tasks.old)) (over tasks.old shared.old runner.old) (over tasks.new shared.new runner.new)) }
{
    'places: for place in 0..tasks.len() {
        give_step(shared, runner, tasks, place)?;
    }
    Ok(())
}

/// Gives the task of a place one step, and none where it is done or where there is no such task.
fn give_step<S, R, T: Step<S, R>>(
    shared: &mut S,
    runner: &mut R,
    tasks: &mut [T],
    place: usize,
) -> Result<(), AllocError>
    ensures { OnOk result (HaveTurns T.rest T.step (place ∷ []) (over tasks.old shared.old runner.old) (over tasks.new shared.new runner.new)) }
{
    if place >= tasks.len() {
        return Ok(());
    }
    let task = &mut tasks[place];
    if task.is_done() {
        return Ok(());
    }
    match task.turn(shared, runner) {
        Turn::More | Turn::Done => Ok(()),
        Turn::NoMemory => Err(AllocError),
    }
}

/// Whether no task has a step left.
fn are_done<S, R, T: Step<S, R>>(tasks: &[T]) -> bool
    ensures { result ≡ all_done T.rest tasks.now }
{
    tasks.iter().all(|task| task.is_done())
}
