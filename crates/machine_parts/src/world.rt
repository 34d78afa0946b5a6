//! What a run changes.

use crate::reached::Reached;
use object_heap::Heap;

/// What a run changes.
#[derive(Drop)]
pub struct World {
    pub heap: Heap,
    /// Calls and turns that may still be paid.
    pub ticks: u64,
    /// The members that were called.
    pub reached: Reached,
}
