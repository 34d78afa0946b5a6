//! The memory that reading takes.

use std::alloc::Global;

/// Memory for reading: made once, and lent to each reading. What one leaves in it changes nothing of the next.
pub struct Scratch {
    pub(crate) memory: json::Scratch,
}

impl Drop for Scratch {
    fn drop(self) {
        let Scratch { memory: _memory } = self;
    }
}

impl Scratch {
    /// Memory for small texts, which grows with the texts that are read.
    pub fn new(alloc: Global) -> Scratch {
        Scratch {
            memory: json::Scratch::new(alloc),
        }
    }
}
