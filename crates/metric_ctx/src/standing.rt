//! Where a shard stands, and how far it went.

use crate::phase::Phase;
use object_heap::Outcome;

/// Where a shard stands.
#[derive(Drop)]
pub(crate) enum Standing<R> {
    /// In a run of a script.
    Runs(Phase, R),
    /// It has ended, and leaves this.
    Ended(Outcome),
    /// Memory ran out, and nothing is known any more.
    Lost,
}

/// How far a shard went with some instructions.
#[derive(Clone, Copy, Debug, PartialEq, Eq)]
pub(crate) enum Went {
    /// All of them were run, and more are left.
    More,
    /// A run has ended and the next one has begun, with so many of them left.
    Next(u64),
    /// The shard has ended.
    Done,
    /// Want of memory.
    NoMemory,
}
