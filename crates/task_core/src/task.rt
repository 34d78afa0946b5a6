//! What runs in slices.

ghost use Rattle.std.specs.Prelude.{◌≡◌, ℕ, ◌<◌, ◌==◌};
ghost use Rattle.task_core.specs.Turns.{Turns};

/// How a turn of a task ended.
#[derive(Clone, Copy, Debug, PartialEq, Eq)]
pub enum Turn {
    /// The instructions of this turn were run, and more are left.
    More,
    /// The task has ended.
    Done,
    /// Want of memory.
    NoMemory,
}

/// What runs for some instructions at a time and comes to an end of its own, however its instructions are cut into turns.
pub trait Task {
    /// What a task comes to.
    type Ending;

    /// How many instructions are left.
    ghost rest: { Self → ℕ };

    /// What the task comes to when it is run alone.
    ghost ending: { Self → Self.Ending };

    /// Whether no instruction is left.
    fn is_done(&self) -> bool
        ensures { result ≡ (rest self.now == 0) };

    /// Runs the next `q` instructions, or those that are left where they are fewer.
    ///
    /// More: some are left. Done: none is left. NoMemory: want of memory, behind which nothing is known of the task.
    fn turn(&mut self, q: u64) -> Turn
        requires { 0 < q }
        ensures { Turns rest ending q self.old self.new result };
}
