//! Stacks of kinds as nodes of a table, and what stands at a line.

use pl_code::Slot;

/// A stack that is not empty: its top and what lies below, how many kinds it has, the number of its top 31 kinds and what lies
/// under those, and the stacks that are this one with an int, a long or a reference on top. A stack is told by its place; place
/// 0 is the empty one's, and where no such stack is there the number is 0.
#[derive(Clone, Copy)]
pub(crate) struct Node {
    pub kind: Slot,
    pub below: usize,
    pub height: usize,
    pub window: u64,
    pub under: usize,
    pub with_int: usize,
    pub with_long: usize,
    pub with_reference: usize,
}

/// What stands at a line: nothing yet, one stack, or stacks that differ.
#[derive(Clone, Copy)]
pub(crate) enum Place {
    Nowhere,
    Known(usize),
    Torn,
}
