//! What takes a step at a time.

ghost use Rattle.std.specs.Prelude.{◌≡◌, ℕ, ◌<◌, ◌==◌};
ghost use Rattle.task_core.specs.Steps.{State, Steps, over};

use crate::task::Turn;

/// What takes a step at a time, over what it shares with other tasks, and with a runner for what it cannot do alone.
///
/// Which task takes the next step is for others to say, so what a task shares may have changed between two of its steps.
pub trait Step<S, R> {
    /// More than the steps that are left, unless none is.
    ghost rest: { Self → ℕ };

    /// What a step makes of the task, of what it shares and of the runner.
    ghost step: { State Self S R → State Self S R → Type 0 };

    /// Whether no step is left.
    fn is_done(&self) -> bool
        ensures { result ≡ (rest self.now == 0) };

    /// Takes the next step.
    ///
    /// More: some are left. Done: none is left. NoMemory: want of memory, behind which nothing is known of the three.
    fn turn(&mut self, shared: &mut S, runner: &mut R) -> Turn
        requires { 0 < rest self.old }
        ensures { Steps rest step (over self.old shared.old runner.old) (over self.new shared.new runner.new) result };
}
