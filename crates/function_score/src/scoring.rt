//! The score of a line by its functions.

ghost use Rattle.std.specs.Prelude.{◌≡◌, ◌&&◌, Some, is_some, option_map, pos, ◌≤ℤ◌, slice_get, unwrap_or};
ghost use Rattle.std.specs.Option.{ForSome};
ghost use Rattle.job_file.specs.Limits.{natural};
ghost use Rattle.function_score.specs.Answers.{function_view, functions_view};
ghost use Rattle.function_score.specs.Lines.{calls_if, calls_of, calls_on, ends_at_match, filter, given, matched, score_of, script, value_of_functions, value_on};
ghost use Rattle.function_score.specs.Scores.{joined_on, weighed};
ghost use Rattle.function_score.specs.Runners.{Asked, IsScored, IsTold, UnlessMemory, UnlessNoMemory, with_sign, with_signs};

use crate::error::{RunErr, ScoreErr};
use crate::function::ScoreFun;
use crate::functions::Functions;
use crate::modes::{BoostMode, ScoreMode};
use crate::runner::FunctionRunner;
use crate::scores::{boost, join_behind, weigh};

/// Whether the first function that matches is the last one that is evaluated.
fn ends_at_match(mode: ScoreMode) -> bool
    ensures { result ≡ ends_at_match mode }
{
    match mode {
        ScoreMode::First => true,
        ScoreMode::Multiply | ScoreMode::Sum | ScoreMode::Max | ScoreMode::Min => false,
    }
}

/// Whether a function matches.
fn is_matched<R: FunctionRunner>(
    runner: &mut R,
    number: usize,
    function: &ScoreFun,
) -> Result<bool, RunErr<R::Error>>
    requires { slice_get (R.line runner.old).functions number ≡ Some (function_view function.now) }
    ensures told { IsTold result (matched (R.line runner.old) number (function_view function.now).filter) }
    ensures kept { UnlessMemory result (R.line runner.new ≡ R.line runner.old) }
    ensures asked { UnlessMemory result (Asked R.asks (calls_if (function_view function.now).filter (filter number)) runner.old runner.new) }
{
    match &function.filter {
        Some(_) => runner.matches(number),
        None => Ok(true),
    }
}

/// What a function gives before it is weighed.
fn given<R: FunctionRunner>(
    runner: &mut R,
    number: usize,
    function: &ScoreFun,
) -> Result<i64, RunErr<R::Error>>
    requires { slice_get (R.line runner.old).functions number ≡ Some (function_view function.now) }
    ensures told { IsTold result (with_sign (given (R.line runner.old) number (function_view function.now).script)) }
    ensures kept { UnlessMemory result (R.line runner.new ≡ R.line runner.old) }
    ensures asked { UnlessMemory result (Asked R.asks (calls_if (function_view function.now).script (script number)) runner.old runner.new) }
{
    match &function.script {
        Some(_) => runner.value(number),
        None => Ok(1),
    }
}

/// What a function gives, weighed.
fn weighed(function: &ScoreFun, value: i64) -> i64
    requires { pos 0 ≤ℤ value }
    ensures { result ≡ pos (weighed (natural value) (unwrap_or (function_view function.now).weight 1)) }
{
    match function.weight {
        Some(weight) => weigh(value, weight),
        None => weigh(value, 1),
    }
}

/// The value of a function over a line, if it matches.
fn value_on<R: FunctionRunner>(
    runner: &mut R,
    number: usize,
    function: &ScoreFun,
) -> Result<Option<i64>, RunErr<R::Error>>
    requires { slice_get (R.line runner.old).functions number ≡ Some (function_view function.now) }
    ensures told { IsTold result (with_signs (value_on (R.line runner.old) number (function_view function.now))) }
    ensures kept { UnlessMemory result (R.line runner.new ≡ R.line runner.old) }
    ensures asked { UnlessMemory result (Asked R.asks (calls_on (R.line runner.old) number (function_view function.now)) runner.old runner.new) }
{
    match is_matched(runner, number, function) {
        Ok(true) => match given(runner, number, function) {
            Ok(value) => Ok(Some(weighed(function, value))),
            Err(error) => Err(error),
        },
        Ok(false) => Ok(None),
        Err(error) => Err(error),
    }
}

/// What the values before and that of one more function come to; one that does not match changes nothing.
fn added(mode: ScoreMode, all: Option<i64>, value: Option<i64>) -> Option<i64>
    requires all { ForSome all (λ all. pos 0 ≤ℤ all) }
    requires value { ForSome value (λ value. pos 0 ≤ℤ value) }
    ensures { result ≡ option_map pos (joined_on mode (option_map natural all) (option_map natural value)) }
{
    match value {
        Some(value) => Some(join_behind(mode, all, value)),
        None => all,
    }
}

/// Whether no function behind one with this value is evaluated.
fn is_last(mode: ScoreMode, value: Option<i64>) -> bool
    ensures { result ≡ (is_some value && ends_at_match mode) }
{
    value.is_some() && ends_at_match(mode)
}

/// The values of the functions that match, combined.
fn value_of_functions<R: FunctionRunner>(
    functions: &[ScoreFun],
    mode: ScoreMode,
    runner: &mut R,
) -> Result<i64, ScoreErr<R::Error>>
    requires { (R.line runner.old).functions ≡ functions_view functions.now }
    ensures told { IsScored result (value_of_functions mode (R.line runner.old)) }
    ensures kept { UnlessNoMemory result (R.line runner.new ≡ R.line runner.old) }
    ensures asked { UnlessNoMemory result (Asked R.asks (calls_of mode (R.line runner.old)) runner.old runner.new) }
{
    let mut all = None;
    for (number, function) in functions.iter().enumerate() {
        let value = match value_on(runner, number, function) {
            Ok(value) => value,
            Err(RunErr::Failed(error)) => return Err(ScoreErr::At(number, error)),
            Err(RunErr::NoMemory) => return Err(ScoreErr::NoMemory),
        };
        all = added(mode, all, value);
        if is_last(mode, value) {
            return Ok(all.unwrap_or(1));
        }
    }
    Ok(all.unwrap_or(1))
}

/// The score that a line is given: its functions are taken in order; the values of those that match are combined, and
/// its own score with that. With the mode `first` nothing is evaluated behind the first match.
///
/// At: the first filter or script that ends the line, with the number of its function; nothing is evaluated behind it.
/// NoMemory: a filter or a script found no memory, and nothing is known of the runner; nothing else takes any.
pub fn score<R: FunctionRunner>(
    functions: &Functions,
    mode: ScoreMode,
    boost_mode: BoostMode,
    q: i64,
    runner: &mut R,
) -> Result<i64, ScoreErr<R::Error>>
    requires score { pos 0 ≤ℤ q }
    requires functions { (R.line runner.old).functions ≡ functions.now }
    ensures told { IsScored result (score_of mode boost_mode (natural q) (R.line runner.old)) }
    ensures kept { UnlessNoMemory result (R.line runner.new ≡ R.line runner.old) }
    ensures asked { UnlessNoMemory result (Asked R.asks (calls_of mode (R.line runner.old)) runner.old runner.new) }
{
    match value_of_functions(functions.functions(), mode, runner) {
        Ok(value) => Ok(boost(boost_mode, q, value)),
        Err(error) => Err(error),
    }
}
