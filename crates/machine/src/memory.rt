//! Memory that a run leaves for the next one.

use code_meaning::Word;
use machine_parts::FrameMemory;
use object_values::Value;
use std::alloc::Global;

/// Memory that runs have left. A run that is given it takes no more than what it needs beyond it.
#[derive(Drop)]
pub struct RunMemory {
    pub(crate) frames: FrameMemory,
    pub(crate) taken: Vec<Word>,
    pub(crate) values: Vec<Value>,
}

impl RunMemory {
    /// None yet.
    pub fn new(alloc: Global) -> RunMemory {
        RunMemory {
            frames: FrameMemory::new(alloc),
            taken: Vec::new(alloc),
            values: Vec::new(alloc),
        }
    }
}
