//! Shards that take turns.

ghost use Rattle.std.specs.Prelude.{◌<◌, ◌≡◌, length, map, OnOk};
ghost use Rattle.task_core.specs.Order.{IsOrder, Ran, AllEnd, ordered};

use std::alloc::AllocError;
use task_core::{Task, run_order};

/// The shards of a metric, each a task. The place of a task is the number of its shard.
#[derive(Drop)]
pub struct Shards<T> {
    tasks: Vec<T>,
}

impl<T: Task> Shards<T> {
    /// Shards that have not run. It takes no memory.
    pub fn new(tasks: Vec<T>) -> Shards<T>
        ensures { result.tasks.items ≡ tasks.items }
    {
        Shards { tasks }
    }

    /// Runs every shard to its end, in turns of `q` instructions: first each entry of the order gives its shard a turn, none where it has
    /// ended; then the shards take turns from shard 0 on, round for round, until all have ended. So each comes to what it would have come
    /// to alone.
    ///
    /// # Errors
    ///
    /// Want of memory, behind which nothing is known of the shards.
    pub fn run(&mut self, order: &[u32], q: u64) -> Result<(), AllocError>
        requires slice { 0 < q }
        requires entries { IsOrder (length self.old.tasks.items) order.now }
        ensures ordered { OnOk result (Ran T.rest T.ending q (ordered q order.now (map T.rest self.old.tasks.items)) self.old.tasks.items self.new.tasks.items) }
        ensures ended { OnOk result (AllEnd T.rest T.ending self.old.tasks.items self.new.tasks.items) }
    {
        run_order(self.tasks.as_mut_slice(), order, q)
    }

    /// The tasks, in the order of their shards.
    pub fn into_tasks(self) -> Vec<T>
        ensures { result.items ≡ self.tasks.items }
    {
        let Shards { tasks } = self;
        tasks
    }
}
