//! What a run comes to, and what it leaves.
use crate::heap::Heap;
use object_values::{Elements, Value};

/// Which limit a run has passed.
#[derive(Clone, Copy, Debug, PartialEq, Eq)]
pub enum Which {
    Loop,
    Depth,
    Ticks,
    Room,
}

/// What a run comes to.
#[derive(Drop)]
pub enum End {
    Value(Value),
    /// The number of the exception that was thrown, and the byte of the script's text at which it arose, where that is told.
    Thrown { id: u32, place: Option<u32> },
    /// A limit that the run has passed, and the byte of the script's text at which it arose, where that is told.
    Limit { limit: Which, place: Option<u32> },
}

/// What a run leaves.
#[derive(Drop)]
pub struct Outcome {
    pub end: End,
    pub heap: Heap,
    /// How many ticks were paid.
    pub ticks: u64,
    /// How many instructions were run.
    pub steps: u64,
    /// The members that were called, by their numbers, in the order of their first calls.
    pub reached: Elements<u32>,
}
