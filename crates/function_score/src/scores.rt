//! How scores are combined.

ghost use Rattle.std.specs.Prelude.{◌≡◌, pos, ◌≤ℤ◌, map, option_map};
ghost use Rattle.std.specs.Option.{ForSome};
ghost use Rattle.job_file.specs.Limits.{natural};
ghost use Rattle.function_score.specs.Scores.{AreScores, boosted, combined, joined, joined_behind, weighed};

use crate::modes::{BoostMode, ScoreMode};

/// A value times a weight.
pub fn weigh(value: i64, weight: i64) -> i64
    requires value { pos 0 ≤ℤ value }
    requires weight { pos 0 ≤ℤ weight }
    ensures { result ≡ pos (weighed (natural value) (natural weight)) }
{
    value.saturating_mul(weight)
}

/// Two values made one.
fn join(mode: ScoreMode, left: i64, right: i64) -> i64
    requires left { pos 0 ≤ℤ left }
    requires right { pos 0 ≤ℤ right }
    ensures { result ≡ pos (joined mode (natural left) (natural right)) }
{
    match mode {
        ScoreMode::Multiply => left.saturating_mul(right),
        ScoreMode::Sum => left.saturating_add(right),
        ScoreMode::First => left,
        ScoreMode::Max => left.max(right),
        ScoreMode::Min => left.min(right),
    }
}

/// A value joined to those before it, if there are any.
pub fn join_behind(mode: ScoreMode, all: Option<i64>, value: i64) -> i64
    requires all { ForSome all (λ all. pos 0 ≤ℤ all) }
    requires value { pos 0 ≤ℤ value }
    ensures { result ≡ pos (joined_behind mode (option_map natural all) (natural value)) }
{
    match all {
        Some(all) => join(mode, all, value),
        None => value,
    }
}

/// Values combined from the left; 1 where there are none.
pub fn combine(mode: ScoreMode, values: &[i64]) -> i64
    requires { AreScores values.now }
    ensures { result ≡ pos (combined mode (map natural values.now)) }
{
    let Some(first) = values.first() else {
        return 1;
    };
    let mut all = *first;
    'values: for value in &values[1..] {
        all = join(mode, all, *value);
    }
    all
}

/// The score of a line and the value of its functions made one.
pub fn boost(mode: BoostMode, q: i64, f: i64) -> i64
    requires q { pos 0 ≤ℤ q }
    requires f { pos 0 ≤ℤ f }
    ensures { result ≡ pos (boosted mode (natural q) (natural f)) }
{
    match mode {
        BoostMode::Multiply => q.saturating_mul(f),
        BoostMode::Replace => f,
        BoostMode::Sum => q.saturating_add(f),
        BoostMode::Max => q.max(f),
        BoostMode::Min => q.min(f),
    }
}
