//! What evaluates filters and scripts.

ghost use Rattle.std.specs.Prelude.{◌≡◌};
ghost use Rattle.function_score.specs.Lines.{Call, Line, filter, script};
ghost use Rattle.function_score.specs.Runners.{HasFilter, HasScript, IsTold, UnlessMemory, with_sign};

use crate::error::RunErr;

/// What evaluates the filters and the scripts of functions over one line. No evaluation changes what another one gives.
pub trait FunctionRunner {
    /// Why a filter or a script ends the line; a script that gives a number below 0 ends it.
    type Error: Drop;

    /// The line: its functions, and what each filter and each script gives.
    ghost line: { Self → Line Self.Error };

    /// What a call makes of a runner, as of what it counts.
    ghost asks: { Self → Call → Self → Type 0 };

    /// Whether the filter of the function with this number gives true. After NoMemory nothing is known of the runner.
    fn matches(&mut self, number: usize) -> Result<bool, RunErr<Self::Error>>
        requires { HasFilter (line self.old) number }
        ensures told { IsTold result ((line self.old).matches number) }
        ensures kept { UnlessMemory result (line self.new ≡ line self.old) }
        ensures asked { UnlessMemory result (asks self.old (filter number) self.new) };

    /// What the script of the function with this number gives. After NoMemory nothing is known of the runner.
    fn value(&mut self, number: usize) -> Result<i64, RunErr<Self::Error>>
        requires { HasScript (line self.old) number }
        ensures told { IsTold result (with_sign ((line self.old).gives number)) }
        ensures kept { UnlessMemory result (line self.new ≡ line self.old) }
        ensures asked { UnlessMemory result (asks self.old (script number) self.new) };
}
