//! Filters and scripts whose answers are fixed.

ghost use Rattle.std.specs.Prelude.{◌≡◌, unwrap_or, slice_get, pos};
ghost use Rattle.function_score.specs.Runners.{IsTold, with_sign};
ghost use Rattle.function_score_tests.specs.Fixed.{from_zero, gives_in, matches_in};

use function_score::{FunctionRunner, Functions, RunErr};

/// A line: whether the filter of each function gives true, and what its script gives. A number below 0 ends the line.
#[derive(Drop)]
pub struct Fixed<'a> {
    pub functions: &'a Functions,
    pub matches: &'a [bool],
    pub gives: &'a [i64],
    /// How many filters and scripts were evaluated.
    pub calls: usize,
}

/// A number that is not below 0.
fn from_zero(number: i64) -> Result<i64, RunErr<i64>>
    ensures { IsTold result (with_sign (from_zero number)) }
{
    if 0 <= number {
        Ok(number)
    } else {
        Err(RunErr::Failed(number))
    }
}

impl<'a> FunctionRunner for Fixed<'a> {
    type Error = i64;

    ghost line = { λ it. record { functions = it.functions.now; matches = matches_in it.matches.now; gives = gives_in it.gives.now } };

    ghost asks = { λ _ _ _. Unit {0} };

    fn matches(&mut self, number: usize) -> Result<bool, RunErr<i64>> {
        self.calls = self.calls.wrapping_add(1);
        match self.matches.get(number) {
            Some(answer) => Ok(*answer),
            None => Ok(false),
        }
    }

    fn value(&mut self, number: usize) -> Result<i64, RunErr<i64>> {
        self.calls = self.calls.wrapping_add(1);
        match self.gives.get(number) {
            Some(answer) => from_zero(*answer),
            None => Ok(0),
        }
    }
}
