//! One function.

ghost use Rattle.std.specs.Prelude.{pos, ◌≤ℤ◌};
ghost use Rattle.std.specs.Option.{ForSome};

/// The greatest weight.
pub const GREATEST_WEIGHT: i64 = 1_000_000_000;

/// A function of a line: where its filter gives true over the line, or it has none, its value is what its script gives,
/// or 1, times its weight, or 1.
#[derive(Drop)]
pub struct ScoreFun {
    /// The text of a filter.
    pub filter: Option<String>,
    /// The text of a script.
    pub script: Option<String>,
    /// From 0 to 10^9.
    pub weight: Option<i64>,
    ghost least: { ForSome weight (λ weight. pos 0 ≤ℤ weight) },
    ghost most: { ForSome weight (λ weight. weight ≤ℤ pos 1000000000) },
}
