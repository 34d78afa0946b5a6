//! The numbers of a job: one row a limit.

ghost use Rattle.std.specs.Prelude.{◌≡◌, ◌≤◌, pos, IfOk, IfErr, false, true};
ghost use Rattle.std.specs.List.{list_any};
ghost use Rattle.std.specs.Str.{bytes_eq};
ghost use Rattle.serde_json.specs.View.{view};
ghost use Rattle.job_file.specs.Limits.{inside, is_in_range, natural, number_of, place_of, row_of_limit};
ghost use Rattle.job_file.specs.Values.{names_limit};

use crate::keys::Key;
use serde_json::Value;

/// A number of a job that has a range.
#[derive(Clone, Copy)]
pub enum Limit {
    Loop,
    Depth,
    Ticks,
    Room,
    Input,
    Shards,
    /// The count of entries of `order`.
    Order,
    Slice,
    /// How many compiled scripts a cache keeps.
    Capacity,
}

/// The limits of a job.
#[derive(Clone, Copy)]
pub struct JobLimits {
    /// Turns of the loops of one frame.
    pub loops: u64,
    /// Calls that stand in one another.
    pub depth: u32,
    /// Ticks of one run.
    pub ticks: u64,
    /// The room of one run.
    pub room: u64,
    /// Bytes of the input.
    pub input: u64,
}

/// What the table says of a limit beside its name.
#[derive(Clone, Copy)]
pub struct LimitRow {
    pub default: i64,
    pub least: i64,
    pub most: i64,
}

/// A row of the table.
const fn bounded(default: i64, least: i64, most: i64) -> LimitRow
    ensures default { result.default ≡ default }
    ensures least { result.least ≡ least }
    ensures most { result.most ≡ most }
{
    LimitRow {
        default,
        least,
        most,
    }
}

impl Limit {
    /// The name of the limit.
    pub fn name(self) -> &'static str
        ensures { result.now ≡ (row_of_limit self).name }
    {
        match self {
            Limit::Loop => "loop",
            Limit::Depth => "depth",
            Limit::Ticks => "ticks",
            Limit::Room => "room",
            Limit::Input => "input",
            Limit::Shards => "shards",
            Limit::Order => "order",
            Limit::Slice => "slice",
            Limit::Capacity => "capacity",
        }
    }

    /// The default and the range of the limit.
    pub fn row(self) -> LimitRow
        ensures default { result.default ≡ pos (row_of_limit self).default }
        ensures least { result.least ≡ pos (row_of_limit self).least }
        ensures most { result.most ≡ pos (row_of_limit self).most }
    {
        match self {
            Limit::Loop => bounded(1_000_000, 1, 1_000_000_000),
            Limit::Depth => bounded(256, 1, 1_024),
            Limit::Ticks => bounded(10_000_000, 1, 1_000_000_000),
            Limit::Room => bounded(16_000_000, 1, 100_000_000),
            Limit::Input => bounded(1 << 30, 1, 1 << 32),
            Limit::Shards => bounded(1, 1, 64),
            Limit::Order => bounded(0, 0, 100_000),
            Limit::Slice => bounded(1_000_000, 1, 1_000_000_000),
            Limit::Capacity => bounded(100, 1, 1_000),
        }
    }
}

/// Whether a name is that of a limit inside `limits`.
pub fn names_limit(name: &str) -> bool
    ensures { result ≡ names_limit name.now }
{
    matches!(name, "loop" | "depth" | "ticks" | "room" | "input")
}
